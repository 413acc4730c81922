// Levels of samples without a division: a guess in floating point, which is taken only where the table of least magnitudes confirms it.
// Rests on `quantiser_table` and `byte_numbers`; on `iterative_levels` and `iterative_changed` for what a running decoder keeps. Document 01: "Samples and levels".
#![tactic(auto)]

ghost use Rattle.std.specs.Prelude.{◌≡◌, true, not, ◌+◌, ◌*◌, ◌<◌, ◌≤◌, T, length};
ghost use Rattle.std.specs.Float.Ieee.Scale.{finite};
ghost use Rattle.counting.specs.Paper.Search.{any_below};
ghost use Rattle.byte_numbers.specs.Paper.Numbers.{samples_in};
ghost use Rattle.quantiser_levels.specs.Paper.Samples.{most_level, setting_fits, largest};
ghost use Rattle.quantiser_settings.specs.Paper.Settings.{setting_of};
ghost use Rattle.quantiser_table.specs.Least.{most_pattern, table_of};
ghost use Rattle.quantiser_guess.specs.Guess.{fits_at, misfit, kept_by, bit_by, mark_by, Guessed, Confirmed, Laid};
ghost use Rattle.quantiser_guess.specs.Placed.{Took};

use iterative_levels::Kept;
use quantiser_settings::Setting;

// The pattern of infinity in the place of those above it, which are NaNs' and no floats to compute with.
fn bounded(p: u32) -> u32
    ensures { result ≤ most_pattern }
{
    if p < 0x7f80_0000 { p } else { 0x7f80_0000 }
}

// A guess at the level of a magnitude: any number below 2,048 will do, since the table is asked. A NaN fails the comparison.
fn guessed(x: f32, rate: f32, peak: f32) -> u32
    requires { T (finite peak) }
    ensures { result < 2048 }
{
    let y = x * rate;
    // By hand, since `min` asks for a NaN once more.
    let y = if y < peak { y } else { peak };
    f32::to_bits(y + 8388608.0) % 2048
}

// The guesses of all samples. The compiled loop takes several at a time, so that it goes by index.
fn guess_all(bytes: &[u8], n: usize, rate: f32, peak: f32, guess: &mut [u16; 1023])
    requires { (T (finite peak)) × (length bytes.now ≡ 4 * n) × (n ≤ 1023) × (length guess.old ≡ 1023) }
    ensures { Guessed n guess.new }
{
    for j in 0..n {
        let u = byte_numbers::number32(bytes, 4 * j);
        let p = bounded(u % 0x8000_0000);
        guess[j] = guessed(f32::from_bits(p), rate, peak) as u16;
    }
}

// Whether the table confirms a guess.
fn fits(table: &[u64], g: usize, p: u64) -> bool
    requires { g + 1 < length table.now }
    ensures { result ≡ fits_at table.now g p }
{
    (table[g] <= p) & (p < table[g + 1])
}

// Whether the table confirms every guess. No branch is taken within the loop, as `all` would take one.
fn all_fit(bytes: &[u8], n: usize, table: &[u64], guess: &[u16; 1023]) -> bool
    requires { (length bytes.now ≡ 4 * n) × (n ≤ 1023) × (length table.now ≡ 2050) × (Guessed n guess.now) }
    ensures { result ≡ not (any_below (misfit table.now bytes.now guess.now) n) }
{
    let mut ok = true;
    for j in 0..n {
        let p = byte_numbers::number32(bytes, 4 * j) % 0x8000_0000;
        ok = ok & fits(table, guess[j] as usize, p as u64);
    }
    ok
}

// The level of a sample by its pattern and its magnitude, kept as R + L.
fn kept_one(u: u32, g: u16, middle: Kept) -> Kept
    requires { (middle ≤ most_level) × (g ≤ middle) }
    ensures { result ≡ kept_by middle u g }
{
    if u < 0x8000_0000 {
        middle + g
    } else {
        middle - g
    }
}

// The hard bit of a sample by its pattern.
fn bit_one(u: u32) -> u8
    ensures { result ≡ bit_by u }
{
    if (u < 0x8000_0000) & (0 < u) { 1 } else { 0 }
}

// The mark of a place: its bit, or 2 where its level is 0. `iterative_changed` has it of a signed level: here there is a magnitude, and a cast is no plainer.
fn mark_one(g: u16, z: u8) -> u8
    ensures { result ≡ mark_by g z }
{
    if g == 0 { 2 } else { z }
}

// One pass from bytes to bits, kept levels and marks, by guesses that are confirmed.
fn place_all(
    bytes: &[u8],
    n: usize,
    middle: Kept,
    guess: &[u16; 1023],
    bits: &mut [u8; 1023],
    kept: &mut [Kept; 1023],
    marks: &mut [u8; 1023],
)
    requires { (length bytes.now ≡ 4 * n) × (n ≤ 1023) × (Confirmed middle n guess.now) × (length bits.old ≡ 1023) × (length kept.old ≡ 1023) × (length marks.old ≡ 1023) }
    ensures { Laid n middle bytes.now guess.now bits.old bits.new kept.old kept.new marks.old marks.new }
{
    for j in 0..n {
        let u = byte_numbers::number32(bytes, 4 * j);
        let g = guess[j];
        let z = bit_one(u);
        bits[j] = z;
        kept[j] = kept_one(u, g, middle);
        marks[j] = mark_one(g, z);
    }
}

// Writes hard bits, kept levels and marks of the samples and says true; or says false and writes nothing, where the table does not confirm a guess
// (so where a sample is not finite). A bool, as the samples stand in the lent arrays and there is no value to answer. Only this repository's crates call it, with the table of an accepted setting.
pub fn take(
    setting: Setting,
    table: &[u64],
    bytes: &[u8],
    n: usize,
    middle: Kept,
    bits: &mut [u8; 1023],
    kept: &mut [Kept; 1023],
    marks: &mut [u8; 1023],
) -> bool
    requires { (setting_fits (setting_of setting) ≡ true) × (table.now ≡ table_of (setting_of setting)) × (middle ≡ largest setting.bits) × (length bytes.now ≡ 4 * n) × (n ≤ 1023) × (length bits.old ≡ 1023) × (length kept.old ≡ 1023) × (length marks.old ≡ 1023) }
    ensures { Took (setting_of setting) (samples_in bytes.now) result bits.old bits.new kept.old kept.new marks.old marks.new }
{
    // A little more than a half: samples half-way between two levels are then guessed at the upper one, which is theirs.
    let rate = 0.50000024 / f32::from_bits(table[1] as u32);
    let peak = (middle as u32) as f32;
    let mut guess = [0u16; 1023];
    guess_all(bytes, n, rate, peak, &mut guess);
    if all_fit(bytes, n, table, &guess) {
        place_all(bytes, n, middle, &guess, bits, kept, marks);
        return true;
    }
    false
}
