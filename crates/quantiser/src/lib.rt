// Samples to levels and hard bits, exactly: all samples of a block. The setting is passed on.
// Rests on `quantiser_settings`, `quantiser_levels`, `packed_word` and `answers`. Document 01: "Samples and levels"; refusals 6, 7 and 8.
#![tactic(auto)]

ghost use Rattle.std.specs.Prelude.{◌≡◌, ◌<◌, length, MatchOption};
ghost use Rattle.answers.specs.Paper.Enums.{verdict_of};
ghost use Rattle.quantiser_levels.specs.Paper.Samples.{first_not_finite, too_short};
ghost use Rattle.quantiser_levels.specs.Scale.{Narrow};
ghost use Rattle.quantiser_settings.specs.Paper.Settings.{setting_of};
ghost use Rattle.quantiser.specs.Buffers.{Roomy, FilledBy, Fillable, Filled};
ghost use Rattle.quantiser.specs.Paper.Call.{Quantised};

use answers::Refusal;
use quantiser_levels::{Cell, Scale, hard_bit, is_finite, level_by};
use quantiser_settings::scale_of;
pub use quantiser_settings::{MOST_BITS, Setting, Step, setting_fits};

// The place of the first sample that is not finite, if there is one.
pub fn first_not_finite(samples: &[f32]) -> Option<usize>
    ensures { MatchOption result (first_not_finite samples.now ≡ length samples.now) (λ i. (i ≡ first_not_finite samples.now) × (i < length samples.now)) }
{
    samples.iter().position(|x| !is_finite(*x))
}

// Writes the levels of the samples by a scale, and their hard bits one to a cell.
fn fill_by(scale: Scale, samples: &[f32], levels: &mut [Cell], cells: &mut [u8])
    requires narrow { Narrow scale.gain scale.top scale.sig }
    requires roomy { Roomy samples.now levels.old cells.old }
    ensures { FilledBy scale samples.now levels.old levels.new cells.old cells.new }
{
    for (j, x) in samples.iter().enumerate() {
        levels[j] = level_by(scale, *x);
        cells[j] = hard_bit(*x);
    }
}

// Writes the levels of the samples, and their hard bits one to a cell. Only this repository's crates call it, after asking the refusals.
// The array is lent as a slice, since the loan says that it has 1023 cells.
pub fn fill(setting: Setting, samples: &[f32], levels: &mut [Cell], bits: &mut [u8; 1023])
    requires { Fillable (setting_of setting) samples.now levels.old }
    ensures { Filled (setting_of setting) samples.now levels.old levels.new bits.old bits.new }
{
    fill_by(scale_of(setting), samples, levels, bits);
}

// Whether there are too many samples, or a buffer is too short for them.
fn too_short(n: usize, levels: usize, bytes: usize) -> bool
    ensures { result ≡ too_short n levels bytes }
{
    1023 < n || levels < n || bytes < (n + 7) / 8
}

// Writes the levels of the samples and their hard bits packed as a word, or says why not and writes nothing.
pub fn quantise(
    setting: Setting,
    samples: &[f32],
    levels: &mut [Cell],
    word: &mut [u8],
) -> Result<(), Refusal>
    ensures { Quantised (setting_of setting) samples.now (verdict_of result) levels.old levels.new word.old word.new }
{
    let n = samples.len();
    if !setting_fits(setting) {
        return Err(Refusal::Setting);
    }
    if too_short(n, levels.len(), word.len()) {
        return Err(Refusal::Buffer);
    }
    // Compared, and not matched on: else the compiler's loop counts in the number that the C call answers, two instructions more for each sample.
    let place = first_not_finite(samples).unwrap_or(n);
    if place < n {
        return Err(Refusal::Sample(place as u16));
    }
    let mut bits = [0u8; 1023];
    fill(setting, samples, levels, &mut bits);
    packed_word::pack_into(&bits, n, word);
    Ok(())
}
