// The samples of a block as a running decoder keeps them: by guesses where the table confirms each of them, else by the exact rule.
// Rests on `quantiser_guess`, `quantiser_table`, and on `byte_numbers`, `quantiser`, `iterative_levels` and `iterative_changed`. Document 01: "Samples and levels"; refusal 8.
#![tactic(auto)]

ghost use Rattle.std.specs.Prelude.{◌≡◌, ◌<◌, IfSome, unwrap_or};
ghost use Rattle.quantiser_settings.specs.Paper.Settings.{setting_of};
ghost use Rattle.quantiser_table.specs.Least.{table_of};
ghost use Rattle.program_samples.specs.Taken.{Takeable, Taken};

use iterative_levels::Kept;
use quantiser_levels::Cell;
use quantiser_settings::Setting;

// By the exact rule. Answers the place of the first sample that is not finite, if there is one; then nothing is written.
fn exact(
    setting: Setting,
    bytes: &[u8],
    n: usize,
    middle: Kept,
    bits: &mut [u8; 1023],
    kept: &mut [Kept; 1023],
    marks: &mut [u8; 1023],
) -> Option<usize>
    requires { Takeable (setting_of setting) bytes.now n middle bits.old kept.old marks.old }
    ensures { Taken (setting_of setting) bytes.now n (unwrap_or result n) bits.old bits.new kept.old kept.new marks.old marks.new × IfSome result (λ r. r < n) }
{
    let mut xs = [0f32; 1023];
    if let Some(place) = byte_numbers::samples(bytes, &mut xs) {
        return Some(place);
    }
    let mut levels: [Cell; 1023] = [0; 1023];
    quantiser::fill(setting, &xs[..n], &mut levels, bits);
    iterative_levels::bias(&levels, n, middle, kept);
    iterative_changed::mark(&levels, bits, n, marks);
    None
}

// Writes hard bits, kept levels and marks of the samples; or answers the place of the first that is not finite, with nothing written.
// Only this repository's crates call it, with the table of an accepted setting.
pub fn take_samples(
    setting: Setting,
    table: &[u64],
    bytes: &[u8],
    n: usize,
    middle: Kept,
    bits: &mut [u8; 1023],
    kept: &mut [Kept; 1023],
    marks: &mut [u8; 1023],
) -> Option<usize>
    requires { Takeable (setting_of setting) bytes.now n middle bits.old kept.old marks.old × (table.now ≡ table_of (setting_of setting)) }
    ensures { Taken (setting_of setting) bytes.now n (unwrap_or result n) bits.old bits.new kept.old kept.new marks.old marks.new × IfSome result (λ r. r < n) }
{
    if quantiser_guess::take(setting, table, bytes, n, middle, bits, kept, marks) {
        return None;
    }
    exact(setting, bytes, n, middle, bits, kept, marks)
}
