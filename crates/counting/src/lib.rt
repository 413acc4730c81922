// Finite sums, tests counted as 0 or 1, first places, lists by their places, and lists overwritten at the front.
// Definitions stand in specs/, their laws in proofs/. Rests on nothing; it has no notion of a decoder and no code.
#![tactic(auto)]
