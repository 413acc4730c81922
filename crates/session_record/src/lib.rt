// The caller's record of a session, and what a round or a refusal leaves in it.
// Rests on `answers` and `matrix_check`. Document 01: "Rounds one at a time".
#![tactic(auto)]

ghost use Rattle.std.specs.Prelude.{◌≡◌, []};
ghost use Rattle.answers.specs.Paper.Answers.{refusal, report};
ghost use Rattle.answers.specs.Paper.Enums.{refusal_number, refusal_place, outcome_of, said_of};
ghost use Rattle.matrix.specs.Paper.Shapes.{matrix_of};
ghost use Rattle.session_record.specs.Paper.Record.{record_for, state_after, outcome_in};
ghost use Rattle.session_record.specs.Paper.Sessions.{state_number, known_state, course_of, record_of};

use answers::{Outcome, Refusal, Report};
use matrix_check::Shape;

// How a session stands.
#[derive(Clone, Copy, Debug, PartialEq, Eq)]
pub enum State {
    Empty,
    Working,
    Decoded,
    Failed,
}

// What stays through a session: bit width and round limit.
#[derive(Clone, Copy, Debug, PartialEq, Eq)]
pub struct Course {
    pub bits: u16,
    pub limit: u16,
}

// The caller's record of a session: its state, bit width, round limit, round and sizes.
#[derive(Clone, Copy, Debug, PartialEq, Eq)]
pub struct Session {
    pub state: State,
    pub bits: u16,
    pub limit: u16,
    pub k: u16,
    pub n: u16,
    pub m: u16,
    pub rho: u16,
    pub gamma: u16,
}

// What a call leaves: the record, and its answer.
#[derive(Clone, Copy, Debug, PartialEq, Eq)]
pub struct Turn {
    pub session: Session,
    pub answer: Result<Report, Refusal>,
}

// The state's number: 0 empty, 1 working, 2 decoded, 3 failed. The C interface's number, beside `state_of`, so that both are functions of one form.
pub fn number_of(state: State) -> u16
    ensures { result ≡ state_number state }
{
    match state {
        State::Empty => 0,
        State::Working => 1,
        State::Decoded => 2,
        State::Failed => 3,
    }
}

// The state of a number, as the C interface has it. Any other number is taken as empty, so that this is no `TryFrom`.
pub fn state_of(number: u16) -> State
    ensures { state_number result ≡ known_state number }
{
    match number {
        1 => State::Working,
        2 => State::Decoded,
        3 => State::Failed,
        _ => State::Empty,
    }
}

// Steps 2 and 3: how a word with so many failing checks leaves the session.
fn state_after(failing: u16, course: Course, k: u16) -> State
    ensures { state_number result ≡ state_after failing (course_of course) k }
{
    if failing == 0 {
        State::Decoded
    } else if k == course.limit {
        State::Failed
    } else {
        State::Working
    }
}

// The outcome that an answer says of a state. No call leaves an empty record.
fn outcome_in(state: State) -> Outcome
    ensures { outcome_of result ≡ outcome_in (state_number state) }
{
    match state {
        State::Empty | State::Working => Outcome::Working,
        State::Decoded => Outcome::Decoded,
        State::Failed => Outcome::Failed,
    }
}

// The record and the answer after round k.
pub fn after_round(shape: Shape, course: Course, k: u16, failing: u16, changed: u16) -> Turn
    ensures { (record_of result.session ≡ record_for (matrix_of shape []) (state_after failing (course_of course) k) (course_of course) k)
        × (said_of result.answer ≡ report (outcome_in (state_after failing (course_of course) k)) k failing changed) }
{
    let state = state_after(failing, course, k);
    let outcome = outcome_in(state);
    let session = Session {
        state,
        bits: course.bits,
        limit: course.limit,
        k,
        n: shape.n,
        m: shape.m,
        rho: shape.rho,
        gamma: shape.gamma,
    };
    let answer = Ok(Report {
        outcome,
        rounds: k,
        failing,
        changed,
    });
    Turn { session, answer }
}

// A refusal: the record as it came.
pub fn refuse(session: Session, f: Refusal) -> Turn
    ensures { (result.session ≡ session) × (said_of result.answer ≡ refusal (refusal_number f) (refusal_place f)) }
{
    let kept = session;
    let answer = Err(f);
    Turn {
        session: kept,
        answer,
    }
}
