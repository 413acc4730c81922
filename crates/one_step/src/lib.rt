// One-step majority-logic decoding of a received word: the whole call.
// Rests on `one_step_core`, `syndrome` and `matrix_check`. Document 01: "One-step voting"; refusals 1 to 5, 7 and 9.
#![tactic(auto)]

ghost use Rattle.answers.specs.Paper.Enums.{said_of};
ghost use Rattle.matrix.specs.Paper.PlainCheck.{Accepted};
ghost use Rattle.matrix.specs.Paper.Shapes.{matrix_of};
ghost use Rattle.majority_logic.specs.Paper.Claims.{FlippingRule};
ghost use Rattle.one_step_core.specs.Paper.Call.{OneStepAnswered};

use answers::{Refusal, Report};
use matrix_check::Shape;
pub use one_step_core::one_step_accepted;

// The refusals after the matrix check, then the vote.
fn on_accepted(
    shape: Shape,
    list: &[u16],
    received: &[u8],
    word: &mut [u8],
) -> Result<Report, Refusal>
    requires { Accepted (matrix_of shape list.now) }
    ensures { OneStepAnswered (matrix_of shape list.now) received.now word.old word.new (said_of result) }
{
    let n = shape.n as usize;
    syndrome::ask_word(n, received, word.len(), n)?;
    Ok(one_step_accepted(shape, list, received, word))
}

// The matrix check, and what follows where it accepts.
fn answered(shape: Shape, list: &[u16], received: &[u8], word: &mut [u8]) -> Result<Report, Refusal>
    ensures { OneStepAnswered (matrix_of shape list.now) received.now word.old word.new (said_of result) }
{
    matrix_check::check(shape, list)?;
    on_accepted(shape, list, received, word)
}

// One-step voting on a received word. The word is written in either outcome; a refused call writes nothing.
pub fn one_step(
    shape: Shape,
    list: &[u16],
    received: &[u8],
    word: &mut [u8],
) -> Result<Report, Refusal>
    ensures answer { OneStepAnswered (matrix_of shape list.now) received.now word.old word.new (said_of result) }
    ensures flipping_rule { FlippingRule (matrix_of shape list.now) received.now word.old word.new (said_of result) }
{
    answered(shape, list, received, word)
}
