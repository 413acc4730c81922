// What opening a session and a step of it ask (specs/), and the questions of a step in their order.
// Rests on `session_record`, `quantiser_levels`, `quantiser_settings`, `syndrome`, `packed_word` and `matrix_check`. Document 01: "Refused for the session"; refusals 1 to 9.
#![tactic(auto)]

ghost use Rattle.std.specs.Prelude.{◌≡◌, ◌≤◌, [], length};
ghost use Rattle.counting.specs.Paper.Search.{any_below};
ghost use Rattle.answers.specs.Paper.Enums.{verdict_of};
ghost use Rattle.packed_word.specs.Paper.Packed.{bytes_for};
ghost use Rattle.matrix.specs.Paper.PlainCheck.{Accepted};
ghost use Rattle.matrix.specs.Paper.Shapes.{matrix_of};
ghost use Rattle.session_record.specs.Paper.Sessions.{record_of};
ghost use Rattle.session_asking.specs.Paper.Asked.{unusable, ended, other_sizes, step_verdict};
ghost use Rattle.session_asking.specs.Paper.PlainCalls.{Usable};
ghost use Rattle.session_asking.specs.Parts.{out_of_range, far, beyond_in, known_verdict, lent_verdict};
ghost use Rattle.session_asking.specs.Paper.Asked.{held_of};

use answers::{Refusal, refused_when};
use matrix_check::Shape;
use quantiser_levels::{Cell, largest_of};
use session_record::{Session, State};

// Whether b, the round limit or k of a working record is out of range.
fn out_of_range(bits: u16, limit: u16, k: u16) -> bool
    ensures { result ≡ out_of_range bits limit k }
{
    !quantiser_settings::ranges_fit(bits, limit) || limit <= k
}

// Refusal 20.
#[tactic(auto, unfolding(crate::specs::Paper::Asked::unusable))]
fn is_unusable(session: Session) -> bool
    ensures { result ≡ unusable (record_of session) }
{
    match session.state {
        State::Empty => true,
        State::Working => out_of_range(session.bits, session.limit, session.k),
        State::Decoded | State::Failed => false,
    }
}

// Refusal 21.
#[tactic(auto, unfolding(crate::specs::Paper::Asked::ended))]
fn is_ended(session: Session) -> bool
    ensures { result ≡ ended (record_of session) }
{
    matches!(session.state, State::Decoded | State::Failed)
}

// Refusal 22.
#[tactic(auto, unfolding(crate::specs::Paper::Asked::other_sizes))]
fn sizes_differ(shape: Shape, session: Session) -> bool
    ensures { result ≡ other_sizes (matrix_of shape []) (record_of session) }
{
    let Session {
        n,
        m,
        rho,
        gamma,
        ..
    } = session;
    shape != Shape { n, m, rho, gamma }
}

// Whether one of the first n levels lies beyond ±L.
fn any_far(levels: &[Cell], n: usize, middle: u16) -> bool
    requires { n ≤ length levels.now }
    ensures { result ≡ any_below (far middle levels.now) n }
{
    levels[..n].iter().any(|r| middle < r.unsigned_abs())
}

// Refusal 23: a spare place set in the word, or one of the first n levels beyond ±L.
fn is_beyond(n: usize, middle: u16, word: &[u8], levels: &[Cell]) -> bool
    requires { (n ≤ 1023) × (bytes_for n ≤ length word.now) × (n ≤ length levels.now) }
    ensures { result ≡ beyond_in n middle word.now levels.now }
{
    let need = (n + 7) / 8;
    packed_word::spare_set(&word[..need], n) || any_far(levels, n, middle)
}

// What a step asks of its record and its matrix: 20, 21, 1 to 5, 22.
#[tactic(auto, unfolding(crate::specs::Parts::known_verdict, crate::specs::Paper::Asked::other_sizes))]
fn ask_known(session: Session, shape: Shape, list: &[u16]) -> Result<(), Refusal>
    ensures { verdict_of result ≡ known_verdict (matrix_of shape list.now) (record_of session) }
{
    refused_when(is_unusable(session), Refusal::Record)?;
    refused_when(is_ended(session), Refusal::Ended)?;
    matrix_check::check(shape, list)?;
    refused_when(sizes_differ(shape, session), Refusal::OtherSizes)
}

// What a step asks of what is lent with them: 7, 9, 23. Of the opening's levels it asks how many there are, and nothing else.
fn ask_lent(
    session: Session,
    shape: Shape,
    list: &[u16],
    received: &[u8],
    opened: &[Cell],
    word: &[u8],
    levels: &[Cell],
) -> Result<(), Refusal>
    requires { Accepted (matrix_of shape list.now) × Usable (record_of session) }
    ensures { verdict_of result ≡ lent_verdict (matrix_of shape list.now) received.now opened.now (held_of session word.now levels.now) }
{
    let n = shape.n as usize;
    let middle = largest_of(session.bits);
    if opened.len() != n {
        return Err(Refusal::Buffer);
    }
    syndrome::ask_word(n, received, word.len(), levels.len())?;
    refused_when(is_beyond(n, middle, word, levels), Refusal::Beyond)
}

// What a step asks, in its order.
pub fn ask_step(
    session: Session,
    shape: Shape,
    list: &[u16],
    received: &[u8],
    opened: &[Cell],
    word: &[u8],
    levels: &[Cell],
) -> Result<(), Refusal>
    ensures { verdict_of result ≡ step_verdict (matrix_of shape list.now) received.now opened.now (held_of session word.now levels.now) }
{
    ask_known(session, shape, list)?;
    ask_lent(session, shape, list, received, opened, word, levels)
}
