// Rounds of reliability-based iterative majority-logic decoding: one round, and rounds until they end, by whichever way the votes are found.
// Rests on `iterative_levels`, `iterative_tally`, `majority_votes` and `matrix_degrees`. Document 01: "Iterative voting", steps 2 to 6; document 02: card 2.
#![tactic(auto)]

ghost use Rattle.std.proofs.Common.{refl, sym, ◌∙◌};
ghost use Rattle.std.specs.Prelude.{◌≡◌, ◌≤◌, ◌<◌, ℕ, List, length, replicate};
ghost use Rattle.counting.specs.Paper.Lists.{listed, over};
ghost use Rattle.counting.specs.Places.{at};
ghost use Rattle.matrix.specs.Paper.Code.{Matrix, Word};
ghost use Rattle.matrix.specs.Paper.PlainCheck.{Accepted};
ghost use Rattle.matrix.specs.Paper.Shapes.{matrix_of};
ghost use Rattle.matrix.specs.Tallies.{Weighed};
ghost use Rattle.matrix.proofs.Rows.{fails-cong};
ghost use Rattle.matrix_index.specs.Paper.Index.{index_of};
ghost use Rattle.majority_votes.specs.Tallies.{Tallied};
ghost use Rattle.syndrome_update.specs.Parities.{Parities};
ghost use Rattle.iterative_rounds.specs.Runs.{RunLent, Rounded, RunLeft};

use iterative_levels::Kept;
use majority_votes::Stop;
use matrix_check::Shape;

// How the votes of a word follow from those of the word before.
pub trait Tally {
    // what is kept from word to word is that of this word and its votes
    ghost keeps: { Self → Matrix → (ℕ → ℕ) → List ℕ → Type 0 };

    // what it reads by is the same before and after; by the index, the parities past the checks are too
    ghost stays: { Matrix → Self → Self → Type 0 };

    // The votes of the word `before` become those of the word `bits`; says how many checks fail.
    fn retally(
        &mut self,
        shape: Shape,
        list: &[u16],
        before: &[u8; 1023],
        bits: &[u8; 1023],
        votes: &mut [u8; 1023],
    ) -> u16
        requires accepted { Accepted (matrix_of shape list.now) }
        requires word { Word (matrix_of shape list.now) (at before.now) × Word (matrix_of shape list.now) (at bits.now) × keeps self.old (matrix_of shape list.now) (at before.now) votes.old }
        ensures { keeps self.new (matrix_of shape list.now) (at bits.now) votes.new × Tallied (matrix_of shape list.now) (at bits.now) votes.new result × stays (matrix_of shape list.now) self.old self.new };

    // over no word, and over one word after another
    ghost stays_so: { (w : Self) (H : Matrix) → stays H w w };

    ghost stays_on: { (u v w : Self) (H : Matrix) → stays H u v → stays H v w → stays H u w };

    // only the bits below n count, so that it is that of a copy too
    ghost of_copy: { (w : Self) (H : Matrix) (a z : ℕ → ℕ) (v : List ℕ) → Accepted H → ((j : ℕ) → j < H.n → a j ≡ z j) → keeps w H z v → keeps w H a v };
}

// By the index: the parities of the checks are kept.
#[derive(Drop)]
pub struct ByIndex<'a> {
    index: &'a [u16],
    parity: [u8; 1023],
}

impl<'a> Tally for ByIndex<'a> {
    ghost keeps = { λ w H z v. (w.index.now ≡ index_of H) × Parities H z w.parity };

    ghost stays = { λ H v w. (w.index.now ≡ v.index.now) × ((i : ℕ) → H.m ≤ i → at w.parity i ≡ at v.parity i) };

    fn retally(
        &mut self,
        shape: Shape,
        list: &[u16],
        before: &[u8; 1023],
        bits: &[u8; 1023],
        votes: &mut [u8; 1023],
    ) -> u16 {
        iterative_tally::retally(
            shape,
            list,
            self.index,
            before,
            bits,
            &mut self.parity,
            votes,
        )
    }

    ghost stays_so = { λ w H. (refl, λ i h. refl) };

    ghost stays_on = { λ u v w H s t. (t.0 ∙ s.0, λ i h. t.1 i h ∙ s.1 i h) };

    ghost of_copy = { λ w H a z v r e k. (k.0, record { bits = k.1.bits; each = λ i h. k.1.each i h ∙ sym (fails-cong H r.rows a z e i h) }) };
}

// Copies the first n bits. The cells past them stay.
#[tactic(auto, using(crate::proofs::Copies::front_copied))]
fn copy(n: usize, bits: &[u8; 1023], to: &mut [u8; 1023])
    requires { (n ≤ 1023) × (length to.old ≡ 1023) }
    ensures { to.new ≡ over (listed n (at bits.now)) to.old }
{
    to[..n].copy_from_slice(&bits[..n]);
}

// One round, steps 4 to 6: bits and levels by the votes of the old bits, then the votes of the new ones.
// How many checks fail is asked next, so it is counted with the votes.
fn round<T: Tally>(
    way: &mut T,
    shape: Shape,
    list: &[u16],
    weights: &[u8; 1023],
    middle: Kept,
    bits: &mut [u8; 1023],
    levels: &mut [Kept; 1023],
    before: &mut [u8; 1023],
    votes: &mut [u8; 1023],
) -> u16
    requires run_lent { RunLent (matrix_of shape list.now) middle bits.old levels.old × Weighed (matrix_of shape list.now) weights.now }
    requires kept { T.keeps way.old (matrix_of shape list.now) (at bits.old) votes.old × (length before.old ≡ 1023) }
    ensures { Rounded (matrix_of shape list.now) middle votes.old bits.old levels.old bits.new levels.new votes.new result × T.keeps way.new (matrix_of shape list.now) (at bits.new) votes.new × T.stays (matrix_of shape list.now) way.old way.new × (length before.new ≡ 1023) }
{
    let n = shape.n as usize;
    let ceiling = 2 * middle;
    copy(n, bits, before);
    iterative_levels::update(votes, weights, n, middle, ceiling, bits, levels);
    way.retally(shape, list, before, bits, votes)
}

// Rounds until no check fails or the limit is reached, with the columns' weights at hand. `way` is lent as that of a word of zeros,
// which has no votes, so that the first bits are tallied as those of any round. The arrays of a round are made once.
// Only this repository's crates call it, after asking the refusals.
pub fn rounds_on<T: Tally>(
    way: &mut T,
    shape: Shape,
    list: &[u16],
    weights: &[u8; 1023],
    limit: u16,
    middle: Kept,
    bits: &mut [u8; 1023],
    levels: &mut [Kept; 1023],
) -> Stop
    requires run_lent { RunLent (matrix_of shape list.now) middle bits.old levels.old × Weighed (matrix_of shape list.now) weights.now }
    requires kept { T.keeps way.old (matrix_of shape list.now) (at (replicate 1023 0)) (replicate 1023 0) }
    ensures { RunLeft (matrix_of shape list.now) middle limit bits.old levels.old bits.new levels.new result.rounds result.failing × T.stays (matrix_of shape list.now) way.old way.new }
{
    let mut before = [0u8; 1023];
    let mut votes = [0u8; 1023];
    let mut failing = way.retally(shape, list, &before, bits, &mut votes);
    for k in 0..limit {
        if failing == 0 {
            return Stop {
                rounds: k,
                failing: 0,
            };
        }
        failing = round(
            way,
            shape,
            list,
            weights,
            middle,
            bits,
            levels,
            &mut before,
            &mut votes,
        );
    }
    Stop {
        rounds: limit,
        failing,
    }
}

// Rounds until no check fails or the limit is reached. Only this repository's crates call it, after asking the refusals.
// The weights do not change from round to round, so they are read off the index once.
pub fn run(
    shape: Shape,
    list: &[u16],
    index: &[u16],
    limit: u16,
    middle: Kept,
    bits: &mut [u8; 1023],
    levels: &mut [Kept; 1023],
) -> Stop
    requires { RunLent (matrix_of shape list.now) middle bits.old levels.old × (index.now ≡ index_of (matrix_of shape list.now)) }
    ensures { RunLeft (matrix_of shape list.now) middle limit bits.old levels.old bits.new levels.new result.rounds result.failing }
{
    let n = shape.n as usize;
    let mut wide = [0u16; 1023];
    let mut weights = [0u8; 1023];
    matrix_degrees::weigh_starts(index, n, &mut wide);
    iterative_levels::narrow(&wide, n, &mut weights);
    let mut way = ByIndex {
        index,
        parity: [0u8; 1023],
    };
    rounds_on(&mut way, shape, list, &weights, limit, middle, bits, levels)
}
