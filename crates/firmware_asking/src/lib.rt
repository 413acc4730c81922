// What the firmware's face asks before it reads the list or the samples, and the setting that it is lent.
// Rests on `ffi_codes`, `byte_numbers`, `quantiser`, `matrix_check` and `answers`. Document 02: cards 3 and 7.
#![tactic(auto)]

ghost use Rattle.std.specs.Prelude.{◌≡◌, cond, Some, None, [], ◌≤◌};
ghost use Rattle.std.specs.Float.{binary32};
ghost use Rattle.std.specs.Float.Ieee.{of_bits};
ghost use Rattle.std.specs.Float.Ieee.Scale.{finite};
ghost use Rattle.answers.specs.Paper.Enums.{verdict_of};
ghost use Rattle.matrix.specs.Paper.Shapes.{matrix_of};
ghost use Rattle.quantiser_settings.specs.Paper.Settings.{setting_of};
ghost use Rattle.ffi_codes.specs.Settings.{StandsFor};
ghost use Rattle.firmware_asking.specs.Paper.Asked.{face_setting};
ghost use Rattle.firmware_asking.specs.Asking.{list_verdict, lent_verdict};

use answers::Refusal;
use ffi_codes::setting_of;
use matrix_check::Shape;
use quantiser::Setting;

// The float of a pattern, where it is finite.
fn step_of(p: u32) -> Option<f32>
    ensures { result ≡ cond (finite (of_bits binary32 p)) (Some (of_bits binary32 p)) None }
{
    if byte_numbers::finite_pattern(p) {
        return Some(f32::from_bits(p));
    }
    None
}

// The setting of a kind of step and the step's bits. Where they are no step in range, one that is out of range stands for them: 6 is refused in its turn.
pub fn setting_by(bits: u16, limit: u16, kind: u16, p: u32) -> Setting
    ensures { StandsFor (face_setting bits limit kind p) (setting_of result) }
{
    setting_of(bits, limit, kind, step_of(p).unwrap_or(0.0))
}

// Refusals 1 and 2, before the list is read.
pub fn ask_list(shape: Shape, bytes: usize) -> Result<(), Refusal>
    ensures { verdict_of result ≡ list_verdict (matrix_of shape []) bytes }
{
    if !matrix_check::sizes_fit(shape) {
        return Err(Refusal::Sizes);
    }
    let m = shape.m as usize;
    let rho = shape.rho as usize;
    if bytes != 2 * (m * rho) {
        return Err(Refusal::Length);
    }
    Ok(())
}

// Refusals 6 and 7, before the samples are read. Only this repository's crates call it, after the matrix is accepted.
pub fn ask_lent(
    n: usize,
    setting: Setting,
    bytes: usize,
    word: usize,
    levels: usize,
    report: usize,
) -> Result<(), Refusal>
    requires { n ≤ 1023 }
    ensures { verdict_of result ≡ lent_verdict n (setting_of setting) bytes word levels report }
{
    if !quantiser::setting_fits(setting) {
        return Err(Refusal::Setting);
    }
    let need = (n + 7) / 8;
    if answers::wrong_lengths(bytes, 4 * n, word, need, levels, 2 * n) {
        return Err(Refusal::Buffer);
    }
    if report < 8 {
        return Err(Refusal::Buffer);
    }
    Ok(())
}
