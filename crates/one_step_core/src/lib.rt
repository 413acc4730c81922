// One-step voting on a matrix and a received word that are known to be accepted.
// Rests on `majority_votes`, `majority_flips`, `matrix_degrees`, `syndrome`, `packed_word`, `packed_distance` and `matrix_check`.
// Document 01: "One-step voting"; document 02: card 2.
#![tactic(auto)]

ghost use Rattle.answers.specs.Paper.Enums.{report_of};
ghost use Rattle.counting.specs.Places.{at};
ghost use Rattle.std.specs.Prelude.{⊤, ◌≡◌};
ghost use Rattle.counting.specs.Paper.Lists.{listed, over};
ghost use Rattle.matrix.specs.Paper.Code.{Matrix, Word, weight};
ghost use Rattle.matrix.specs.Paper.PlainCheck.{Accepted};
ghost use Rattle.matrix.specs.Paper.Shapes.{matrix_of};
ghost use Rattle.majority_flips.specs.Flips.{VotedBits};
ghost use Rattle.one_step_core.specs.Stepped.{Stepped, VoteLent, HandBackLent, HandedBack, Voted};

use answers::Report;
use majority_votes::Stop;
use matrix_check::Shape;

// Where the weights of an accepted matrix's columns are found.
pub trait Weigh {
    // what is looked at for them belongs to the matrix
    ghost belongs: { Self → Matrix → Type 0 };

    fn weigh(&self, shape: Shape, list: &[u16], weights: &mut [u16; 1023])
        requires { Accepted (matrix_of shape list.now) × belongs self.now (matrix_of shape list.now) }
        ensures { weights.new ≡ over (listed shape.n (weight (matrix_of shape list.now))) weights.old };
}

// How a word is voted on: by the rows of the matrix alone, or by an index too.
pub trait Vote: Weigh {
    fn vote(&self, shape: Shape, list: &[u16], bits: &mut [u8; 1023]) -> Stop
        requires { Accepted (matrix_of shape list.now) × Self.belongs self.now (matrix_of shape list.now) × Word (matrix_of shape list.now) (at bits.old) }
        ensures { Stepped (matrix_of shape list.now) bits.old bits.new result.rounds result.failing };
}

// Every bit after the vote, each held against its own column's weight. Where the sizes leave no room for unlike columns all weigh gamma,
// and no array of weights is cleared and filled: at the smallest codes that alone would be felt.
pub fn flip_own<W: Weigh>(
    way: &W,
    shape: Shape,
    list: &[u16],
    votes: &[u8; 1023],
    bits: &mut [u8; 1023],
)
    requires { Accepted (matrix_of shape list.now) × W.belongs way.now (matrix_of shape list.now) × Word (matrix_of shape list.now) (at bits.old) }
    ensures { VotedBits shape.n (weight (matrix_of shape list.now)) votes.now bits.old bits.new }
{
    let n = shape.n as usize;
    let gamma = shape.gamma as usize;
    if list.len() == n * gamma {
        majority_flips::flip_equal(shape, votes, bits);
        return;
    }
    let mut weights = [0u16; 1023];
    way.weigh(shape, list, &mut weights);
    majority_flips::flip_all(shape, votes, &weights, bits);
}

// By the rows alone.
#[derive(Clone, Copy, Debug, PartialEq, Eq)]
pub struct ByRows;

impl Weigh for ByRows {
    ghost belongs = { λ w H. ⊤ };

    fn weigh(&self, shape: Shape, list: &[u16], weights: &mut [u16; 1023]) {
        matrix_degrees::weigh(shape, list, weights);
    }
}

impl Vote for ByRows {
    // Nothing moves, and no column is weighed, where no check fails.
    fn vote(&self, shape: Shape, list: &[u16], bits: &mut [u8; 1023]) -> Stop {
        let mut votes = [0u8; 1023];
        let before = majority_votes::tally(shape, list, bits, &mut votes);
        if before == 0 {
            return Stop {
                rounds: 0,
                failing: 0,
            };
        }
        flip_own(self, shape, list, &votes, bits);
        let after = syndrome::failing_count(shape, list, bits);
        Stop {
            rounds: 1,
            failing: after,
        }
    }
}

// Packs the bits after the vote into the word's buffer, counts where they differ from the received word, and reports.
// Only this repository's crates call it, after a vote.
pub fn hand_back(
    n: usize,
    received: &[u8],
    stop: Stop,
    bits: &[u8; 1023],
    word: &mut [u8],
) -> Report
    requires { HandBackLent n received.now bits.now word.old }
    ensures { HandedBack n received.now (at bits.now) stop.rounds stop.failing word.old word.new (report_of result) }
{
    let need = (n + 7) / 8;
    packed_word::pack_into(bits, n, word);
    let changed = packed_distance::differing(&word[..need], received);
    answers::ended(stop.rounds, stop.failing, changed)
}

// The core, for a matrix that the check has accepted, by either way. Only this repository's crates call it, after asking the refusals.
pub fn one_step_by<V: Vote>(
    way: &V,
    shape: Shape,
    list: &[u16],
    received: &[u8],
    word: &mut [u8],
) -> Report
    requires { VoteLent (matrix_of shape list.now) received.now word.old × V.belongs way.now (matrix_of shape list.now) }
    ensures { Voted (matrix_of shape list.now) received.now word.old word.new (report_of result) }
{
    let n = shape.n as usize;
    let mut bits = [0u8; 1023];
    packed_word::unpack(received, n, &mut bits);
    let stop = way.vote(shape, list, &mut bits);
    hand_back(n, received, stop, &bits, word)
}

// The same by the rows alone. Only this repository's crates call it, after asking the refusals.
pub fn one_step_accepted(shape: Shape, list: &[u16], received: &[u8], word: &mut [u8]) -> Report
    requires { VoteLent (matrix_of shape list.now) received.now word.old }
    ensures { Voted (matrix_of shape list.now) received.now word.old word.new (report_of result) }
{
    one_step_by(&ByRows, shape, list, received, word)
}
