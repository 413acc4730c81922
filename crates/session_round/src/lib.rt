// One step of a session, by value: the record in and out.
// Rests on `session`, `session_asking`, `session_record`, `iterative_core`, `iterative_levels`, `iterative_changed`, `packed_word`, `majority_votes`, `syndrome` and `matrix_degrees`.
// Document 01: "Rounds one at a time"; document 02: cards 2 and 6.
#![tactic(auto)]

ghost use Rattle.std.specs.Prelude.{◌≡◌, ◌*◌, length};
ghost use Rattle.matrix.specs.Paper.Code.{weight};
ghost use Rattle.matrix.specs.Paper.PlainCheck.{Accepted};
ghost use Rattle.matrix.specs.Paper.Shapes.{matrix_of};
ghost use Rattle.iterative_levels.specs.Levels.{Bounds, Moved};
ghost use Rattle.session_asking.specs.Paper.PlainCalls.{Steppable};
ghost use Rattle.session_asking.specs.Paper.Asked.{held_of};
ghost use Rattle.session.specs.Paper.Steps.{stepped_left, step_of};
ghost use Rattle.session.specs.RoundParts.{RoundLent, RoundLeft};
ghost use Rattle.session.specs.Paper.Call.{Leaves};

use iterative_levels::Kept;
use matrix_check::Shape;
use quantiser_levels::{Cell, largest_of};
use session_record::{Course, Session, Turn};

// Brings the bits and the levels to the next round by the votes of the old bits, each bit by its own column's weight.
fn move_levels(
    shape: Shape,
    list: &[u16],
    votes: &[u8; 1023],
    middle: Kept,
    bits: &mut [u8; 1023],
    kept: &mut [Kept; 1023],
)
    requires { Accepted (matrix_of shape list.now) × Bounds shape.n (2 * middle) kept.old × (length bits.old ≡ 1023) × (length kept.old ≡ 1023) }
    ensures { Moved votes.now (weight (matrix_of shape list.now)) shape.n middle (2 * middle) bits.old kept.old bits.new kept.new }
{
    let n = shape.n as usize;
    let ceiling = 2 * middle;
    let mut wide = [0u16; 1023];
    let mut weights = [0u8; 1023];
    matrix_degrees::weigh(shape, list, &mut wide);
    iterative_levels::narrow(&wide, n, &mut weights);
    iterative_levels::update(votes, &weights, n, middle, ceiling, bits, kept);
}

// Steps 4 to 6 on the word and the levels lent, and how many checks of the new word fail.
fn round_on(shape: Shape, list: &[u16], middle: Kept, word: &mut [u8], levels: &mut [Cell]) -> u16
    requires { RoundLent (matrix_of shape list.now) middle word.old levels.old }
    ensures { RoundLeft (matrix_of shape list.now) middle word.old word.new levels.old levels.new result }
{
    let n = shape.n as usize;
    let mut bits = [0u8; 1023];
    let mut kept: [Kept; 1023] = [0; 1023];
    let mut votes = [0u8; 1023];
    packed_word::unpack(word, n, &mut bits);
    iterative_levels::bias(levels, n, middle, &mut kept);
    majority_votes::tally(shape, list, &bits, &mut votes);
    move_levels(shape, list, &votes, middle, &mut bits, &mut kept);
    packed_word::pack_into(&bits, n, word);
    iterative_levels::unbias(&kept, n, middle, levels);
    syndrome::failing_count(shape, list, &bits)
}

// A step that no refusal applies to: one round, and what is counted on the word that it leaves. The opening's levels are read alone.
fn step_accepted(
    session: Session,
    shape: Shape,
    list: &[u16],
    received: &[u8],
    opened: &[Cell],
    word: &mut [u8],
    levels: &mut [Cell],
) -> Turn
    requires { Steppable (matrix_of shape list.now) received.now opened.now (held_of session word.old levels.old) }
    ensures { Leaves (stepped_left (matrix_of shape list.now) received.now opened.now (held_of session word.old levels.old)) result.answer result.session word.new levels.new }
{
    let n = shape.n as usize;
    let course = Course {
        bits: session.bits,
        limit: session.limit,
    };
    let k = session.k;
    let middle = largest_of(course.bits);
    let failing = round_on(shape, list, middle, word, levels);
    let changed = iterative_changed::changed_since(received, opened, word, n);
    session_record::after_round(shape, course, k + 1, failing, changed)
}

// One step of a session, by value: the record in and out. A refused step hands the record back.
pub fn step_value(
    session: Session,
    shape: Shape,
    list: &[u16],
    received: &[u8],
    opened: &[Cell],
    word: &mut [u8],
    levels: &mut [Cell],
) -> Turn
    ensures { Leaves (step_of (matrix_of shape list.now) received.now opened.now (held_of session word.old levels.old)) result.answer result.session word.new levels.new }
{
    let asked = session_asking::ask_step(session, shape, list, received, opened, word, levels);
    match asked {
        Ok(()) => step_accepted(session, shape, list, received, opened, word, levels),
        Err(f) => session_record::refuse(session, f),
    }
}
