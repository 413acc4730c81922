// Opening a session, by value: what it asks, and the record in and out.
// Rests on `session`, `session_asking`, `session_record`, `iterative_core`, `quantiser`, `packed_word`, `syndrome` and `matrix_check`. Document 01: "Rounds one at a time"; refusals 1 to 8.
#![tactic(auto)]

ghost use Rattle.std.specs.Prelude.{◌≡◌};
ghost use Rattle.answers.specs.Paper.Enums.{verdict_of};
ghost use Rattle.matrix.specs.Paper.Shapes.{matrix_of};
ghost use Rattle.quantiser_settings.specs.Paper.Settings.{setting_of};
ghost use Rattle.iterative_core.specs.Paper.Iterative.{iterative_verdict};
ghost use Rattle.session_asking.specs.Paper.Asked.{lent};
ghost use Rattle.session_asking.specs.Paper.PlainCalls.{Openable};
ghost use Rattle.session_asking.specs.Paper.Asked.{held_of};
ghost use Rattle.session.specs.Paper.Steps.{opened_left, open_of};
ghost use Rattle.session.specs.RoundParts.{blank};
ghost use Rattle.session.specs.Paper.Call.{Leaves};

use answers::Refusal;
use matrix_check::Shape;
use quantiser::Setting;
use quantiser_levels::Cell;
use session_record::{Course, Session, Turn};

// What opening asks, in its order: 1 to 8.
fn ask_open(
    shape: Shape,
    list: &[u16],
    setting: Setting,
    samples: &[f32],
    bytes: usize,
    room: usize,
) -> Result<(), Refusal>
    ensures { verdict_of result ≡ iterative_verdict (matrix_of shape list.now) (setting_of setting) samples.now bytes room }
{
    let n = shape.n as usize;
    matrix_check::check(shape, list)?;
    iterative_core::ask_samples(n, setting, samples, bytes, room)
}

// An opening that no refusal applies to: levels and hard bits, and what is counted on them.
fn open_accepted(
    shape: Shape,
    list: &[u16],
    setting: Setting,
    samples: &[f32],
    word: &mut [u8],
    levels: &mut [Cell],
) -> Turn
    requires { Openable (matrix_of shape list.now) (setting_of setting) samples.now (lent blank word.old levels.old) }
    ensures { Leaves (opened_left (matrix_of shape list.now) (setting_of setting) samples.now (lent blank word.old levels.old)) result.answer result.session word.new levels.new }
{
    let n = shape.n as usize;
    let course = Course {
        bits: setting.bits,
        limit: setting.limit,
    };
    let mut cells = [0u8; 1023];
    quantiser::fill(setting, samples, levels, &mut cells);
    packed_word::pack_into(&cells, n, word);
    let failing = syndrome::failing_count(shape, list, &cells);
    session_record::after_round(shape, course, 0, failing, 0)
}

// Opens a session, by value: the record in and out. A refused opening hands the record back.
pub fn open_value(
    session: Session,
    shape: Shape,
    list: &[u16],
    setting: Setting,
    samples: &[f32],
    word: &mut [u8],
    levels: &mut [Cell],
) -> Turn
    ensures { Leaves (open_of (matrix_of shape list.now) (setting_of setting) samples.now (held_of session word.old levels.old)) result.answer result.session word.new levels.new }
{
    let asked = ask_open(shape, list, setting, samples, word.len(), levels.len());
    match asked {
        Ok(()) => open_accepted(shape, list, setting, samples, word, levels),
        Err(f) => session_record::refuse(session, f),
    }
}
