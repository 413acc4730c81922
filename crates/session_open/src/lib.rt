// Opening a session on the caller's own record, or on a copy of it.
// Rests on `session_opening` and `session_record`. Document 01: "Rounds one at a time".
#![tactic(auto)]

ghost use Rattle.matrix.specs.Paper.Shapes.{matrix_of};
ghost use Rattle.quantiser_settings.specs.Paper.Settings.{setting_of};
ghost use Rattle.session_asking.specs.Paper.Asked.{held_of};
ghost use Rattle.session.specs.Paper.Steps.{open_of};
ghost use Rattle.session.specs.Paper.Call.{Leaves};

use answers::{Refusal, Report};
use matrix_check::Shape;
use quantiser::Setting;
use quantiser_levels::Cell;
use session_record::{Session, Turn};

// Opens a session on the caller's own record, which a refused opening leaves.
pub fn open(
    session: &mut Session,
    shape: Shape,
    list: &[u16],
    setting: Setting,
    samples: &[f32],
    word: &mut [u8],
    levels: &mut [Cell],
) -> Result<Report, Refusal>
    ensures { Leaves (open_of (matrix_of shape list.now) (setting_of setting) samples.now (held_of session.old word.old levels.old)) result session.new word.new levels.new }
{
    let opened = session_opening::open_value(*session, shape, list, setting, samples, word, levels);
    *session = opened.session;
    opened.answer
}

// `open` on a copy of the record, which is handed back: for the C interface, whose caller keeps the record as numbers. So both forms stay.
pub fn open_copy(
    session: Session,
    shape: Shape,
    list: &[u16],
    setting: Setting,
    samples: &[f32],
    word: &mut [u8],
    levels: &mut [Cell],
) -> Turn
    ensures { Leaves (open_of (matrix_of shape list.now) (setting_of setting) samples.now (held_of session word.old levels.old)) result.answer result.session word.new levels.new }
{
    let mut opened = session;
    let answer = open(&mut opened, shape, list, setting, samples, word, levels);
    Turn {
        session: opened,
        answer,
    }
}
