// Reliability-based iterative majority-logic decoding of samples: the whole call.
// Rests on `iterative_core`, `iterative_rule`, `matrix_index`, `quantiser` and `matrix_check`. Document 01: "Iterative voting"; refusals 1 to 8.
#![tactic(auto)]

ghost use Rattle.std.specs.Prelude.{◌≡◌};
ghost use Rattle.answers.specs.Paper.Enums.{said_of};
ghost use Rattle.matrix.specs.Paper.PlainCheck.{Accepted};
ghost use Rattle.matrix.specs.Paper.Shapes.{matrix_of};
ghost use Rattle.matrix_index.specs.Paper.Index.{index_of};
ghost use Rattle.quantiser_settings.specs.Paper.Settings.{setting_of};
ghost use Rattle.iterative_core.specs.Paper.Call.{IterativeAnswered};
ghost use Rattle.iterative_rule.specs.Paper.Claims.{IterativeRule, AmpleLimit};

use answers::{Refusal, Report};
pub use iterative_core::iterative_accepted;
use matrix_check::Shape;
use quantiser::Setting;
use quantiser_levels::Cell;

// The refusals after matrix and index, then the decoding. Only this repository's crates call it, with the index of an accepted matrix.
pub fn iterative_own(
    shape: Shape,
    list: &[u16],
    index: &[u16],
    setting: Setting,
    samples: &[f32],
    word: &mut [u8],
    levels: &mut [Cell],
) -> Result<Report, Refusal>
    requires { Accepted (matrix_of shape list.now) × (index.now ≡ index_of (matrix_of shape list.now)) }
    ensures { IterativeAnswered (matrix_of shape list.now) (setting_of setting) samples.now (said_of result) word.old word.new levels.old levels.new }
{
    let n = shape.n as usize;
    iterative_core::ask_samples(n, setting, samples, word.len(), levels.len())?;
    Ok(iterative_accepted(shape, list, index, setting, samples, word, levels))
}

// The same with an index made for this call.
fn with_index(
    shape: Shape,
    list: &[u16],
    setting: Setting,
    samples: &[f32],
    word: &mut [u8],
    levels: &mut [Cell],
) -> Result<Report, Refusal>
    requires { Accepted (matrix_of shape list.now) }
    ensures { IterativeAnswered (matrix_of shape list.now) (setting_of setting) samples.now (said_of result) word.old word.new levels.old levels.new }
{
    let size = (shape.n as usize) + 1 + (shape.m as usize) * (shape.rho as usize);
    let mut index = [0u16; 33760];
    matrix_index::build(shape, list, &mut index);
    iterative_own(shape, list, &index[..size], setting, samples, word, levels)
}

// Iterative voting on samples. The word and the levels are written in either outcome; a refused call writes nothing.
pub fn iterative(
    shape: Shape,
    list: &[u16],
    setting: Setting,
    samples: &[f32],
    word: &mut [u8],
    levels: &mut [Cell],
) -> Result<Report, Refusal>
    ensures answer { IterativeAnswered (matrix_of shape list.now) (setting_of setting) samples.now (said_of result) word.old word.new levels.old levels.new }
    ensures flipping_rule { IterativeRule (matrix_of shape list.now) (setting_of setting) samples.now word.old word.new levels.old (said_of result) }
    ensures ample_limit { AmpleLimit (matrix_of shape list.now) (setting_of setting) samples.now word.old word.new levels.old (said_of result) }
{
    matrix_check::check(shape, list)?;
    with_index(shape, list, setting, samples, word, levels)
}
