// Matrices of equal columns: every call says and leaves of them what it did before columns could be unlike.
// Rests on the definitions of every call; it has no code. Document 02: card 2, "Matrices accepted so far give the answers they gave".
#![tactic(auto)]
