// Settings and records with b up to 8: every call says and leaves of them what it did while widths ended at 8, levels as numbers, and what it
// writes can be taken back.
// Rests on the definitions of these calls; it has no code. Document 02: card 7, "All answers with b up to 8 are unchanged".
#![tactic(auto)]
