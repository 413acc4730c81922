// Blocks without an undecided sample: every call that starts from samples answers of them what it did when all places counted as changed.
// Rests on the definitions of these calls; it has no code. Document 02: card 6, "only bits with a level are counted".
#![tactic(auto)]
