// The flips that votes decide.
// Rests on the definitions of `majority_logic` and `matrix_degrees`. Document 01: "One-step voting"; document 02: card 2.
#![tactic(auto)]

ghost use Rattle.std.specs.Prelude.{◌≡◌, ℕ, ◌*◌, ◌<◌, ◌≤◌, ltb, length};
ghost use Rattle.counting.specs.Places.{at};
ghost use Rattle.majority_logic.specs.Paper.Votes.{flip_when};
ghost use Rattle.matrix_degrees.specs.Degrees.{always};
ghost use Rattle.majority_flips.specs.Flips.{VotedBits};

use matrix_check::Shape;

// The bit b after the vote: turned over where more than half of its own checks fail, so that a tie keeps it.
// The test is added to the bit and not branched on, since no branch could be guessed from noise.
fn voted(weight: u16, v: u8, b: u8) -> u8
    requires { b < 2 }
    ensures { result ≡ flip_when (ltb weight (2 * v)) b }
{
    let turns = weight < 2 * (v as u16);
    b ^ (turns as u8)
}

// How many checks each bit is in.
pub trait Weights {
    ghost weight: { Self → ℕ → ℕ };

    fn weight(&self, j: usize) -> u16
        requires { j < 1023 }
        ensures { result ≡ weight self.now j };
}

// Each bit has a number of its own.
impl Weights for [u16; 1023] {
    ghost weight = { at };

    fn weight(&self, j: usize) -> u16 {
        self[j]
    }
}

// All bits are in gamma checks, with no array of weights to fill and to read.
#[derive(Clone, Copy, Debug, PartialEq, Eq)]
pub struct Equal {
    gamma: u16,
}

impl Weights for Equal {
    ghost weight = { λ e. always e.gamma };

    #[tactic(auto, unfolding(matrix_degrees::specs::Degrees::always))]
    fn weight(&self, _j: usize) -> u16 {
        self.gamma
    }
}

// The first n bits after the vote.
fn flip_front<W: Weights>(votes: &[u8; 1023], weights: &W, n: usize, bits: &mut [u8])
    requires { (n ≤ 1023) × (length bits.old ≡ 1023) × ((j : ℕ) → j < n → at bits.old j < 2) }
    ensures { VotedBits n (W.weight weights.now) votes.now bits.old bits.new }
{
    for j in 0..n {
        bits[j] = voted(weights.weight(j), votes[j], bits[j]);
    }
}

// Every bit after the vote, all at once from the same votes, each held against its own column's weight. The array is lent as a slice, since the loan tells the proof its length.
// Only this repository's crates call it, after the check.
pub fn flip_all(shape: Shape, votes: &[u8; 1023], weights: &[u16; 1023], bits: &mut [u8; 1023])
    requires { (shape.n ≤ 1023) × ((j : ℕ) → j < shape.n → at bits.old j < 2) }
    ensures { VotedBits shape.n (at weights.now) votes.now bits.old bits.new }
{
    flip_front(votes, weights, shape.n as usize, bits);
}

// Every bit after the vote where all columns weigh gamma.
// Only this repository's crates call it, after the check.
pub fn flip_equal(shape: Shape, votes: &[u8; 1023], bits: &mut [u8; 1023])
    requires { (shape.n ≤ 1023) × ((j : ℕ) → j < shape.n → at bits.old j < 2) }
    ensures { VotedBits shape.n (always shape.gamma) votes.now bits.old bits.new }
{
    let equal = Equal { gamma: shape.gamma };
    flip_front(votes, &equal, shape.n as usize, bits);
}
