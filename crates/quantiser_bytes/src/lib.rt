// The samples that bytes are: how many, which is the first that is not finite, and what reading them leaves in an array.
// Rests on `byte_numbers` and on the definitions of `quantiser_levels`; it has no code. Document 01: refusal 8; "Worked by hand", the paragraph on the program.
#![tactic(auto)]
