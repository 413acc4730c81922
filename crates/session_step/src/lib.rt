// One step of a session on the caller's own record, or on a copy of it.
// Rests on `session_round` and `session_record`. Document 01: "Rounds one at a time"; document 02: card 6.
#![tactic(auto)]

ghost use Rattle.matrix.specs.Paper.Shapes.{matrix_of};
ghost use Rattle.session_asking.specs.Paper.Asked.{held_of};
ghost use Rattle.session.specs.Paper.Steps.{step_of};
ghost use Rattle.session.specs.Paper.Call.{Leaves};

use answers::{Refusal, Report};
use matrix_check::Shape;
use quantiser_levels::Cell;
use session_record::{Session, Turn};

// One step, which brings the caller's own record up to date; a refused step leaves it.
pub fn step(
    session: &mut Session,
    shape: Shape,
    list: &[u16],
    received: &[u8],
    opened: &[Cell],
    word: &mut [u8],
    levels: &mut [Cell],
) -> Result<Report, Refusal>
    ensures { Leaves (step_of (matrix_of shape list.now) received.now opened.now (held_of session.old word.old levels.old)) result session.new word.new levels.new }
{
    let stepped = session_round::step_value(*session, shape, list, received, opened, word, levels);
    *session = stepped.session;
    stepped.answer
}

// `step` on a copy of the record, which is handed back: for the C interface, whose caller keeps the record as numbers. So both forms stay.
pub fn step_copy(
    session: Session,
    shape: Shape,
    list: &[u16],
    received: &[u8],
    opened: &[Cell],
    word: &mut [u8],
    levels: &mut [Cell],
) -> Turn
    ensures { Leaves (step_of (matrix_of shape list.now) received.now opened.now (held_of session word.old levels.old)) result.answer result.session word.new levels.new }
{
    let mut stepped = session;
    let answer = step(&mut stepped, shape, list, received, opened, word, levels);
    Turn {
        session: stepped,
        answer,
    }
}
