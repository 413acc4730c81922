// Iterative voting on a matrix, a setting and samples that are known to be accepted, and what is asked of setting and samples before.
// Rests on `iterative_rounds`, `iterative_changed`, `quantiser` and `packed_word`. Document 01: "Iterative voting"; refusals 6 to 8. Document 02: card 6.
#![tactic(auto)]

ghost use Rattle.std.specs.Prelude.{◌≡◌, ◌≤◌, length};
ghost use Rattle.answers.specs.Paper.Enums.{verdict_of, report_of};
ghost use Rattle.matrix.specs.Paper.Shapes.{matrix_of};
ghost use Rattle.quantiser_levels.specs.Paper.Samples.{largest};
ghost use Rattle.quantiser_settings.specs.Paper.Settings.{setting_of};
ghost use Rattle.quantiser.specs.Buffers.{Fillable};
ghost use Rattle.matrix_index.specs.Paper.Index.{index_of};
ghost use Rattle.iterative_core.specs.Paper.Iterative.{samples_verdict};
ghost use Rattle.iterative_core.specs.Calls.{CallLent, Started, Decoded};

use answers::{Refusal, Report};
use iterative_levels::Kept;
use matrix_check::Shape;
use quantiser::Setting;
use quantiser_levels::{Cell, largest_of};

// What is asked of the setting, the samples and the written buffers: 6, 7, 8.
// Only this repository's crates call it, after the matrix is accepted.
pub fn ask_samples(
    n: usize,
    setting: Setting,
    samples: &[f32],
    bytes: usize,
    room: usize,
) -> Result<(), Refusal>
    requires { n ≤ 1023 }
    ensures { verdict_of result ≡ samples_verdict n (setting_of setting) samples.now bytes room }
{
    let need = (n + 7) / 8;
    if !quantiser::setting_fits(setting) {
        return Err(Refusal::Setting);
    }
    if answers::wrong_lengths(samples.len(), n, bytes, need, room, n) {
        return Err(Refusal::Buffer);
    }
    if let Some(place) = quantiser::first_not_finite(samples) {
        return Err(Refusal::Sample(place as u16));
    }
    Ok(())
}

// Step 1: the samples' levels, written to the caller's buffer and kept for the rounds, and their hard bits.
fn start(
    setting: Setting,
    samples: &[f32],
    middle: Kept,
    levels: &mut [Cell],
    bits: &mut [u8; 1023],
    kept: &mut [Kept; 1023],
)
    requires { Fillable (setting_of setting) samples.now levels.old × (middle ≡ largest setting.bits) × (length kept.old ≡ 1023) }
    ensures { Started (setting_of setting) samples.now levels.old levels.new bits.old bits.new kept.old kept.new }
{
    let n = samples.len();
    quantiser::fill(setting, samples, levels, bits);
    iterative_levels::bias(levels, n, middle, kept);
}

// The core, for a matrix, its index, a setting and samples that are known to be accepted.
// Only this repository's crates call it, after asking the refusals.
pub fn iterative_accepted(
    shape: Shape,
    list: &[u16],
    index: &[u16],
    setting: Setting,
    samples: &[f32],
    word: &mut [u8],
    levels: &mut [Cell],
) -> Report
    requires { CallLent (matrix_of shape list.now) (setting_of setting) samples.now word.old levels.old × (index.now ≡ index_of (matrix_of shape list.now)) }
    ensures { Decoded (matrix_of shape list.now) (setting_of setting) samples.now (report_of result) word.old word.new levels.old levels.new }
{
    let n = shape.n as usize;
    let limit = setting.limit;
    let middle = largest_of(setting.bits);
    let mut bits = [0u8; 1023];
    let mut kept: [Kept; 1023] = [0; 1023];
    let mut marks = [0u8; 1023];
    start(setting, samples, middle, levels, &mut bits, &mut kept);
    iterative_changed::mark(levels, &bits, n, &mut marks);
    let stop = iterative_rounds::run(shape, list, index, limit, middle, &mut bits, &mut kept);
    packed_word::pack_into(&bits, n, word);
    iterative_levels::unbias(&kept, n, middle, levels);
    let changed = iterative_changed::turned(&marks, &bits, n);
    answers::ended(stop.rounds, stop.failing, changed)
}
