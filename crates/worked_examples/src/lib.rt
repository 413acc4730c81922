// Document 01's worked examples: specs/Paper/Table.antt has them in one table, and one proof over the whole table.
// Rests on the definitions of every decoder; it has no code. Document 01: "Worked by hand".
#![tactic(auto)]
