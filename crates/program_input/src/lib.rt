// What the program's input begins with, as functions on bytes: the sizes and the setting, and what is asked of them.
// Rests on `byte_numbers`, `quantiser`, `matrix_check` and `answers`. Document 01: "Worked by hand", the paragraph on the program.
#![tactic(auto)]

ghost use Rattle.std.specs.Prelude.{◌≤◌, ◌<◌, ◌≡◌, not, [], length, MatchOption};
ghost use Rattle.matrix.specs.Paper.Check.{sizes_fit};
ghost use Rattle.matrix.specs.Paper.Shapes.{matrix_of};
ghost use Rattle.quantiser_settings.specs.Paper.Settings.{kind_of, float_of};
ghost use Rattle.program_input.specs.Paper.Input.{matrix_in, setting_in};
ghost use Rattle.program_input.specs.Paper.Opening.{opening, setting_verdict, opening_verdict};
ghost use Rattle.program_input.specs.Runs.{opened_of};

use answers::Refusal;
use byte_numbers::{finite_pattern, number16, number32, wide};
use matrix_check::Shape;
use quantiser::{Setting, Step};

// The sizes of the matrix. Only this repository's crates call it, with eight bytes at least.
pub fn sizes(bytes: &[u8]) -> Shape
    requires { 8 ≤ length bytes.now }
    ensures { matrix_of result ≡ matrix_in bytes.now }
{
    Shape {
        n: number16(bytes, 0),
        m: number16(bytes, 2),
        rho: number16(bytes, 4),
        gamma: number16(bytes, 6),
    }
}

// The step of its kind, where there is one of that kind. (`ffi_codes::setting_of` has a third arm: its calls ask other things before the setting.)
fn step_by(kind: u8, d: f32) -> Option<Step>
    ensures { MatchOption result (1 < kind) (λ s. (kind_of s ≡ kind) × (float_of s ≡ d)) }
{
    match kind {
        0 => Some(Step::Level(d)),
        1 => Some(Step::FullScale(d)),
        _ => None,
    }
}

// The setting of seven bytes, refused where it is out of range. A pattern that is not finite never becomes a float.
// Only this repository's crates call it, with seven bytes at least.
pub fn setting(bytes: &[u8]) -> Result<Setting, Refusal>
    requires { 7 ≤ length bytes.now }
    ensures { opened_of result ≡ opening (setting_verdict (setting_in bytes.now)) (setting_in bytes.now) }
{
    let p = number32(bytes, 3);
    if !finite_pattern(p) {
        return Err(Refusal::Setting);
    }
    let Some(step) = step_by(bytes[2], f32::from_bits(p)) else {
        return Err(Refusal::Setting);
    };
    let s = Setting {
        bits: wide(bytes[0]),
        limit: wide(bytes[1]),
        step,
    };
    if quantiser::setting_fits(s) {
        Ok(s)
    } else {
        Err(Refusal::Setting)
    }
}

// Whether refusal 1 applies. Of an empty list the check refuses the sizes, or else the length.
pub fn sizes_refused(shape: Shape) -> bool
    ensures { result ≡ not (sizes_fit (matrix_of shape [])) }
{
    let none = [0u16; 1];
    match matrix_check::check(shape, &none[..0]) {
        Ok(()) => false,
        Err(f) => f.number() == 1,
    }
}

// How the run begins, once the list and the setting are read.
// Only this repository's crates call it, with seven bytes at least.
pub fn begin(shape: Shape, list: &[u16], bytes: &[u8]) -> Result<Setting, Refusal>
    requires { 7 ≤ length bytes.now }
    ensures { opened_of result ≡ opening (opening_verdict (matrix_of shape list.now) (setting_in bytes.now)) (setting_in bytes.now) }
{
    matrix_check::check(shape, list)?;
    setting(bytes)
}
