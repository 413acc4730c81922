// Iterative voting that takes matrix and index: the index is trusted only after it is found to be the matrix's own.
// Rests on `iterative`, `matrix_index_check` and `matrix_check`. Document 02: card 1; refusals 1 to 5, 10, 6 to 8.
#![tactic(auto)]

ghost use Rattle.std.specs.Prelude.{◌≡◌};
ghost use Rattle.answers.specs.Paper.Enums.{said_of};
ghost use Rattle.matrix.specs.Paper.Shapes.{matrix_of};
ghost use Rattle.matrix_index.specs.Paper.Index.{index_of};
ghost use Rattle.quantiser_settings.specs.Paper.Settings.{setting_of};
ghost use Rattle.iterative_core.specs.Paper.Call.{IterativeAnswered};
ghost use Rattle.iterative_indexed.specs.Paper.Call.{IterativeIndexedAnswered};

use answers::{Refusal, Report};
use matrix_check::Shape;
use quantiser::Setting;
use quantiser_levels::Cell;

// Iterative voting on samples, by matrix and index. The word and the levels are written in either outcome; a refused call writes nothing.
pub fn iterative_indexed(
    shape: Shape,
    list: &[u16],
    index: &[u16],
    setting: Setting,
    samples: &[f32],
    word: &mut [u8],
    levels: &mut [Cell],
) -> Result<Report, Refusal>
    ensures answer { IterativeIndexedAnswered (matrix_of shape list.now) index.now (setting_of setting) samples.now (said_of result) word.old word.new levels.old levels.new }
    ensures alike { index.now ≡ index_of (matrix_of shape list.now) → IterativeAnswered (matrix_of shape list.now) (setting_of setting) samples.now (said_of result) word.old word.new levels.old levels.new }
{
    matrix_index_check::check_indexed(shape, list, index)?;
    iterative::iterative_own(shape, list, index, setting, samples, word, levels)
}
