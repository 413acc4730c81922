// The program's lines as text in a lent buffer: heading, `short`, refusals, and a block's line.
// Each function puts its text at a place of the buffer and answers the place after it.
// Rests on `program_numerals` and `answers`. Document 01: "Worked by hand", the paragraph on the program.
#![tactic(auto)]

ghost use Rattle.std.specs.Prelude.{◌+◌, ◌*◌, ◌≤◌, ◌++◌, length};
ghost use Rattle.answers.specs.Paper.Enums.{refusal_number, refusal_place, outcome_of, report_of, said_of};
ghost use Rattle.program_numerals.specs.Paper.Numerals.{ascii};
ghost use Rattle.program_numerals.specs.Texts.{PutWithin};
ghost use Rattle.program_text.specs.Paper.Output.{heading, short_text, refused_text, outcome_text, said_text, block_text};

use answers::{Outcome, Refusal, Report};

// The outcome's word and a space. A whole call that has not decoded has failed.
fn put_outcome(out: &mut [u8], at: usize, o: Outcome) -> usize
    requires { at + 8 ≤ length out.old }
    ensures { PutWithin 8 (outcome_text (outcome_of o) ++ ascii " ") at out.old out.new result }
{
    match o {
        Outcome::Decoded => program_numerals::put_text(out, at, b"decoded "),
        Outcome::Failed => program_numerals::put_text(out, at, b"failed "),
        Outcome::Working => program_numerals::put_text(out, at, b"failed "),
    }
}

// The heading line. Only this repository's crates call it, where there is room.
pub fn put_heading(out: &mut [u8], at: usize) -> usize
    requires { at + 38 ≤ length out.old }
    ensures { PutWithin 38 heading at out.old out.new result }
{
    program_numerals::put_text(out, at, b"block end rounds failing changed word\n")
}

// The line of an input that ends too early. Only this repository's crates call it, where there is room.
pub fn put_short(out: &mut [u8], at: usize) -> usize
    requires { at + 6 ≤ length out.old }
    ensures { PutWithin 6 short_text at out.old out.new result }
{
    program_numerals::put_text(out, at, b"short\n")
}

// The line of a refusal that ends the run. Only this repository's crates call it, where there is room.
pub fn put_refused(out: &mut [u8], at: usize, f: Refusal) -> usize
    requires { at + 20 ≤ length out.old }
    ensures { PutWithin 20 (refused_text (refusal_number f) (refusal_place f)) at out.old out.new result }
{
    let at = program_numerals::put_text(out, at, b"refused ");
    let at = program_numerals::put_number(out, at, f.number(), b' ');
    program_numerals::put_number(out, at, f.place(), b'\n')
}

// What follows the number in the line of a block that is decoded or failed.
fn put_report(out: &mut [u8], at: usize, p: Report, word: &[u8]) -> usize
    requires { at + 27 + 2 * length word.now ≤ length out.old }
    ensures { PutWithin (27 + 2 * length word.now) (said_text (report_of p) word.now) at out.old out.new result }
{
    let outcome = p.outcome;
    let at = put_outcome(out, at, outcome);
    let at = program_numerals::put_number(out, at, p.rounds, b' ');
    let at = program_numerals::put_number(out, at, p.failing, b' ');
    let at = program_numerals::put_number(out, at, p.changed, b' ');
    program_numerals::put_word(out, at, word)
}

// The line of a block. Only this repository's crates call it, where there is room.
pub fn put_block(
    out: &mut [u8],
    at: usize,
    number: u16,
    answer: Result<Report, Refusal>,
    word: &[u8],
) -> usize
    requires { at + 33 + 2 * length word.now ≤ length out.old }
    ensures { PutWithin (33 + 2 * length word.now) (block_text number (said_of answer) word.now) at out.old out.new result }
{
    let at = program_numerals::put_number(out, at, number, b' ');
    match answer {
        Ok(p) => put_report(out, at, p, word),
        Err(f) => put_refused(out, at, f),
    }
}
