// Iterative voting in single rounds: what opening a session and one step of it say and leave, and what is proved of stepping (specs/, proofs/).
// Rests on `session_asking`, `session_record`, `iterative_core`, `iterative_changed`, `iterative_rule`, `iterative_levels` and `quantiser`; it has no code.
// Document 01: "Rounds one at a time"; document 02: card 6.
#![tactic(auto)]
