// The checks of a matrix as bits of words, sixty-four to a word: definitions and laws, no code.
// Rests on `matrix` and on the definitions of `majority_logic`. Document 01: "Iterative voting", steps 2 and 4.
#![tactic(auto)]
