// What crosses the exported functions as numbers: an answer in one number of 64 bits, a setting, and a session record of eight numbers.
// Rests on `answers`, `quantiser` and `session_record`. Design, section 4: the test face.
#![tactic(auto)]

ghost use Rattle.std.specs.Prelude.{◌≡◌, ◌+◌, ◌*◌, ◌≤◌, length};
ghost use Rattle.answers.specs.Paper.Answers.{report, acceptance, after};
ghost use Rattle.answers.specs.Paper.Enums.{refusal_number, refusal_place, report_of, said_of, verdict_of, counted_of, stored_of};
ghost use Rattle.counting.specs.Paper.Lists.{over};
ghost use Rattle.quantiser_settings.specs.Paper.Settings.{setting_of};
ghost use Rattle.quantiser_settings.specs.Numbers.{setting_by};
ghost use Rattle.session_record.specs.Paper.Sessions.{record_of};
ghost use Rattle.ffi_codes.specs.Codes.{code_of, Small};
ghost use Rattle.ffi_codes.specs.Records.{record_cells, record_in, cells_of, written_by};
ghost use Rattle.ffi_codes.specs.Settings.{StandsFor};

use answers::{Refusal, Report};
use quantiser::{Setting, Step};
use session_record::{Session, Turn, number_of, state_of};

// A refusal: its number and its place. `firmware_codes` has the same in 32 bits, which is what its face answers in: one sum each, in two crates.
fn refusal_code(f: Refusal) -> u64
    ensures { result ≡ refusal_number f * 65536 + refusal_place f }
{
    let k = f.number() as u64;
    let x = f.place() as u64;
    k * 65536 + x
}

// A report: outcome, rounds, failing and changed, each in its own places.
fn report_code(p: Report) -> u64
    requires { Small (report_of p) }
    ensures { result ≡ code_of (report_of p) }
{
    let outcome = p.outcome;
    let o = outcome.number() as u64;
    let r = p.rounds as u64;
    let f = p.failing as u64;
    let c = p.changed as u64;
    o + 4294967296 * (r + 256 * (f + 4096 * c))
}

// The answer of a decoding call, or of the count of changed bits.
// Only this repository's crates call it: every such answer has room.
pub fn answer_code(a: Result<Report, Refusal>) -> u64
    requires { Small (said_of a) }
    ensures { result ≡ code_of (said_of a) }
{
    match a {
        Ok(p) => report_code(p),
        Err(f) => refusal_code(f),
    }
}

// The answer of a count: failing alone is not 0.
// Only this repository's crates call it: a count has room.
pub fn counted_code(a: Result<u16, Refusal>) -> u64
    requires { Small (counted_of a) }
    ensures { result ≡ code_of (counted_of a) }
{
    match a {
        Ok(f) => 4294967296 * (256 * (f as u64)),
        Err(e) => refusal_code(e),
    }
}

// The answer of a check: 0 where it accepts.
pub fn checked_code(a: Result<(), Refusal>) -> u64
    ensures { result ≡ code_of (after (verdict_of a) acceptance) }
{
    match a {
        Ok(()) => 0,
        Err(refusal) => refusal_code(refusal),
    }
}

// The answer of a call that stores a sheet: how many bytes it wrote.
pub fn stored_code(a: Result<u32, Refusal>) -> u64
    ensures { result ≡ code_of (stored_of a) }
{
    match a {
        Ok(k) => 4294967296 * (k as u64),
        Err(why) => refusal_code(why),
    }
}

// How many cells a record is.
pub const RECORD_CELLS: usize = 8;

// The setting of a kind of step and a step. A third kind is given a step that is out of range, so that it is refused as 6 too.
pub fn setting_of(bits: u16, limit: u16, kind: u16, step: f32) -> Setting
    ensures { StandsFor (setting_by bits limit kind step) (setting_of result) }
{
    let step = match kind {
        0 => Step::Level(step),
        1 => Step::FullScale(step),
        _ => Step::Level(0.0),
    };
    Setting { bits, limit, step }
}

// The session that a record's cells are.
// Only this repository's crates call it, after asking for the cells' number.
pub fn session_in(cells: &[u16]) -> Session
    requires { length cells.now ≡ record_cells }
    ensures { record_of result ≡ record_in cells.now }
{
    Session {
        state: state_of(cells[0]),
        bits: cells[1],
        limit: cells[2],
        k: cells[3],
        n: cells[4],
        m: cells[5],
        rho: cells[6],
        gamma: cells[7],
    }
}

// The cells of a session.
#[tactic(auto, unfolding(counting::specs::Paper::Lists::over))]
fn session_out(s: Session, cells: &mut [u16])
    requires { length cells.old ≡ record_cells }
    ensures { cells.new ≡ over (cells_of (record_of s)) cells.old }
{
    let number = number_of(s.state);
    cells.copy_from_slice(&[number, s.bits, s.limit, s.k, s.n, s.m, s.rho, s.gamma]);
}

// Brings the record up to date, unless the call was refused.
fn turn_out(turn: Turn, cells: &mut [u16])
    requires { length cells.old ≡ record_cells }
    ensures { cells.new ≡ written_by (said_of turn.answer) (cells_of (record_of turn.session)) cells.old }
{
    let answer = turn.answer;
    let s = turn.session;
    match answer {
        Ok(_) => session_out(s, cells),
        Err(_) => {}
    }
}

// The code of a turn, whose record goes to the cells.
// Only this repository's crates call it, after asking for the cells' number.
pub fn turn_code(turn: Turn, cells: &mut [u16]) -> u64
    requires { (length cells.old ≡ record_cells) × Small (said_of turn.answer) }
    ensures { (result ≡ code_of (said_of turn.answer)) × (cells.new ≡ written_by (said_of turn.answer) (cells_of (record_of turn.session)) cells.old) }
{
    let answer = turn.answer;
    turn_out(turn, cells);
    answer_code(answer)
}
