// What leaves the firmware's face: the returned number, the report's eight bytes, the levels as bytes.
// Rests on `answers`, `counting`, `byte_numbers` and, for the cells of levels, `quantiser_levels`. Document 02: cards 3 and 7.
#![tactic(auto)]

ghost use Rattle.std.specs.Prelude.{◌≡◌, ◌+◌, ◌*◌, ◌/◌, ◌%◌, ◌≤◌, length};
ghost use Rattle.counting.specs.Paper.Lists.{over};
ghost use Rattle.answers.specs.Paper.Enums.{refusal_number, refusal_place, report_of, said_of};
ghost use Rattle.firmware_codes.specs.Paper.Codes.{result_of, report_bytes, level_number, level_bytes};

use answers::{Refusal, Report};
use quantiser_levels::Cell;

// A refusal: its number and its place.
fn refusal_result(f: Refusal) -> u32
    ensures { result ≡ refusal_number f * 65536 + refusal_place f }
{
    let k = f.number() as u32;
    let x = f.place() as u32;
    k * 65536 + x
}

// The returned number: the outcome's, or the refusal's.
pub fn result(a: Result<Report, Refusal>) -> u32
    ensures { result ≡ result_of (said_of a) }
{
    match a {
        Ok(p) => {
            let outcome = p.outcome;
            outcome.number() as u32
        }
        Err(f) => refusal_result(f),
    }
}

// The report's eight bytes at the front of the buffer. Only this repository's crates call it, with room for them.
#[tactic(auto, unfolding(counting::specs::Paper::Lists::over))]
pub fn report_out(p: Report, bytes: &mut [u8])
    requires { 8 ≤ length bytes.old }
    ensures { bytes.new ≡ over (report_bytes (report_of p)) bytes.old }
{
    let [r0, r1] = p.rounds.to_le_bytes();
    let [f0, f1] = p.failing.to_le_bytes();
    let [c0, c1] = p.changed.to_le_bytes();
    bytes[..8].copy_from_slice(&[r0, r1, f0, f1, c0, c1, 0, 0]);
}

// A level as a number of 16 bits in two's complement.
fn level_number(l: Cell) -> u16
    ensures { result ≡ level_number l }
{
    l.cast_unsigned()
}

// The levels at the front of the buffer, two bytes each, low byte first. Only this repository's crates call it, with room for them.
pub fn levels_out(levels: &[Cell], bytes: &mut [u8])
    requires { 2 * length levels.now ≤ length bytes.old }
    ensures { bytes.new ≡ over (level_bytes levels.now) bytes.old }
{
    for (j, level) in levels.iter().enumerate() {
        byte_numbers::put16(level_number(*level), 2 * j, bytes);
    }
}
