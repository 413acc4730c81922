// Majority-logic decoding in one step: the definitions (specs/) and what is proved of them (proofs/).
// Rests on `matrix`, `packed_word` and `syndrome`; it has no code. Document 01: "One-step voting".
#![tactic(auto)]
