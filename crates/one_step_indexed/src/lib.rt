// One-step voting that takes matrix and index: the index is trusted only after it is found to be the matrix's own, and the votes are found by it.
// Rests on `one_step_core`, `majority_columns`, `syndrome_update`, `matrix_index_check`, `matrix_degrees` and `matrix_check`.
// Document 02: cards 1 and 2; refusals 1 to 5, 10, 7 and 9.
#![tactic(auto)]

ghost use Rattle.std.specs.Prelude.{◌≡◌};
ghost use Rattle.answers.specs.Paper.Enums.{report_of, said_of};
ghost use Rattle.matrix.specs.Paper.PlainCheck.{Accepted};
ghost use Rattle.matrix.specs.Paper.Shapes.{matrix_of};
ghost use Rattle.matrix_index.specs.Paper.Index.{index_of};
ghost use Rattle.one_step_core.specs.Stepped.{VoteLent, Voted};
ghost use Rattle.one_step_core.specs.Paper.Call.{OneStepAnswered};
ghost use Rattle.one_step_indexed.specs.Paper.Call.{OneStepIndexedAnswered};

use answers::{Refusal, Report};
use majority_votes::Stop;
use matrix_check::Shape;
use one_step_core::{Vote, Weigh};

// By the index too, where the rows of each column and their number are read.
#[derive(Clone, Copy, Debug, PartialEq, Eq)]
pub struct ByIndex<'a> {
    index: &'a [u16],
}

impl<'a> Weigh for ByIndex<'a> {
    ghost belongs = { λ w H. w.index.now ≡ index_of H };

    // A column's weight is the distance to the next starting place of the index.
    fn weigh(&self, shape: Shape, _list: &[u16], weights: &mut [u16; 1023]) {
        matrix_degrees::weigh_starts(self.index, shape.n as usize, weights);
    }
}

impl<'a> Vote for ByIndex<'a> {
    // Each bit's failing checks are counted among the rows of its column and held against their number,
    // and only the checks of flipped bits are looked at again.
    fn vote(&self, shape: Shape, list: &[u16], bits: &mut [u8; 1023]) -> Stop {
        let n = shape.n as usize;
        let m = shape.m as usize;
        let rho = shape.rho as usize;
        let index = self.index;
        let mut parity = [0u8; 1023];
        let mut votes = [0u8; 1023];
        let mut places = [0u16; 1023];
        syndrome::row_parities(list, m, rho, bits, &mut parity);
        let before = syndrome_update::count_odd(m, &parity);
        if before == 0 {
            return Stop {
                rounds: 0,
                failing: 0,
            };
        }
        majority_columns::tally_columns(index, n, &parity, &mut votes);
        let received = *bits;
        one_step_core::flip_own(self, shape, list, &votes, bits);
        let flipped = syndrome_update::list_flips(n, &received, bits, &mut places);
        syndrome_update::turn_listed(index, n, &places, flipped, &mut parity);
        let after = syndrome_update::count_odd(m, &parity);
        Stop {
            rounds: 1,
            failing: after,
        }
    }
}

// The core, with the index of an accepted matrix and a word that is known to be accepted.
fn one_step_own(
    shape: Shape,
    list: &[u16],
    index: &[u16],
    received: &[u8],
    word: &mut [u8],
) -> Report
    requires { VoteLent (matrix_of shape list.now) received.now word.old × (index.now ≡ index_of (matrix_of shape list.now)) }
    ensures { Voted (matrix_of shape list.now) received.now word.old word.new (report_of result) }
{
    one_step_core::one_step_by(&ByIndex { index }, shape, list, received, word)
}

// The refusals after matrix and index, then the vote.
fn on_own(
    shape: Shape,
    list: &[u16],
    index: &[u16],
    received: &[u8],
    word: &mut [u8],
) -> Result<Report, Refusal>
    requires { Accepted (matrix_of shape list.now) × (index.now ≡ index_of (matrix_of shape list.now)) }
    ensures { OneStepAnswered (matrix_of shape list.now) received.now word.old word.new (said_of result) }
{
    let n = shape.n as usize;
    syndrome::ask_word(n, received, word.len(), n)?;
    Ok(one_step_own(shape, list, index, received, word))
}

// One-step voting on a received word, by matrix and index. The word is written in either outcome; a refused call writes nothing.
pub fn one_step_indexed(
    shape: Shape,
    list: &[u16],
    index: &[u16],
    received: &[u8],
    word: &mut [u8],
) -> Result<Report, Refusal>
    ensures answer { OneStepIndexedAnswered (matrix_of shape list.now) index.now received.now word.old word.new (said_of result) }
    ensures alike { index.now ≡ index_of (matrix_of shape list.now) → OneStepAnswered (matrix_of shape list.now) received.now word.old word.new (said_of result) }
{
    matrix_index_check::check_indexed(shape, list, index)?;
    on_own(shape, list, index, received, word)
}
