// What the calls answer: a report, a count or nothing, or the refusal as the error of a `Result`.
// specs/Paper/Enums.antt gives document 01's numbers for each case, and the contracts of the calls speak through it.
// The functions by which every call asks its refusals stand here too: a refusal where a test passes, one question after another,
// and refusal 7's lengths.
// Rests on nothing. Document 01: "Refused for the input", "Refused for the session", and what an answer holds ("Iterative voting").
#![tactic(auto)]

ghost use Rattle.std.specs.Prelude.{◌≡◌};
ghost use Rattle.answers.specs.Paper.Answers.{accepted, refuse_if, and_then, wrong_lengths, report, outcome_by};
ghost use Rattle.answers.specs.Paper.Enums.{refusal_number, refusal_place, outcome_of, verdict_of, report_of};

// Why a call is refused. A refusal that has a place carries it.
#[derive(Clone, Copy, Debug, PartialEq, Eq)]
pub enum Refusal {
    Sizes,
    Length,
    Entry(u16),
    Weight(u16),
    Overlap(u16),
    Setting,
    Buffer,
    Sample(u16),
    Spare,
    Index,
    Sheet,
    NoSheet,
    Level(u16),
    Record,
    Ended,
    OtherSizes,
    Beyond,
}

// How decoding stands.
#[derive(Clone, Copy, Debug, PartialEq, Eq)]
pub enum Outcome {
    Decoded,
    Failed,
    Working,
}

// What an accepted decoding call answers; and the count of changed bits, whose other numbers are 0.
#[derive(Clone, Copy, Debug, PartialEq, Eq)]
pub struct Report {
    pub outcome: Outcome,
    pub rounds: u16,
    pub failing: u16,
    pub changed: u16,
}

impl Refusal {
    // The refusal's number in documents 01 and 02.
    pub fn number(self) -> u16
        ensures { result ≡ refusal_number self }
    {
        match self {
            Refusal::Sizes => 1,
            Refusal::Length => 2,
            Refusal::Entry(_) => 3,
            Refusal::Weight(_) => 4,
            Refusal::Overlap(_) => 5,
            Refusal::Setting => 6,
            Refusal::Buffer => 7,
            Refusal::Sample(_) => 8,
            Refusal::Spare => 9,
            Refusal::Index => 10,
            Refusal::Sheet => 11,
            Refusal::NoSheet => 12,
            Refusal::Level(_) => 13,
            Refusal::Record => 20,
            Refusal::Ended => 21,
            Refusal::OtherSizes => 22,
            Refusal::Beyond => 23,
        }
    }

    // The refusal's place, 0 where it has none.
    pub fn place(self) -> u16
        ensures { result ≡ refusal_place self }
    {
        match self {
            Refusal::Entry(i) => i,
            Refusal::Weight(j) => j,
            Refusal::Overlap(i) => i,
            Refusal::Sample(j) => j,
            Refusal::Level(j) => j,
            _ => 0,
        }
    }
}

impl Outcome {
    // The outcome's number: 0 decoded, 1 failed, 2 working.
    pub fn number(self) -> u16
        ensures { result ≡ outcome_of self }
    {
        match self {
            Outcome::Decoded => 0,
            Outcome::Failed => 1,
            Outcome::Working => 2,
        }
    }
}

// A refusal where the test passes, for a call that asks by `?`.
pub fn refused_when(test: bool, f: Refusal) -> Result<(), Refusal>
    ensures { verdict_of result ≡ refuse_if test (refusal_number f) (refusal_place f) accepted }
{
    if test {
        return Err(f);
    }
    Ok(())
}

// What is asked first, then what is asked next, for a caller that has both answers; one that asks the next only then writes `?`.
pub fn and_then(first: Result<(), Refusal>, next: Result<(), Refusal>) -> Result<(), Refusal>
    ensures { verdict_of result ≡ and_then (verdict_of first) (verdict_of next) }
{
    first.and(next)
}

// Refusal 7: what is lent has not the length wanted, or one of two written buffers is shorter than needed.
// A buffer that the call does not write is given as just long enough.
pub fn wrong_lengths(
    lent: usize,
    wanted: usize,
    bytes: usize,
    need: usize,
    room: usize,
    cells: usize,
) -> bool
    ensures { result ≡ wrong_lengths lent wanted bytes need room cells }
{
    lent != wanted || bytes < need || room < cells
}

// A report: decoded where no check fails, else failed.
pub fn ended(rounds: u16, failing: u16, changed: u16) -> Report
    ensures { report_of result ≡ report (outcome_by failing) rounds failing changed }
{
    let outcome = if failing == 0 {
        Outcome::Decoded
    } else {
        Outcome::Failed
    };
    Report {
        outcome,
        rounds,
        failing,
        changed,
    }
}
