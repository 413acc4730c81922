// The setting: the bit width, the round limit and the step, whether they are in range, and the scale of its samples.
// Rests on `quantiser_levels`. Document 01: "Samples and levels"; refusal 6.
#![tactic(auto)]

ghost use Rattle.std.specs.Prelude.{◌≡◌, true};
ghost use Rattle.quantiser_levels.specs.Paper.Samples.{ranges_fit, step_fits, setting_fits};
ghost use Rattle.quantiser_levels.specs.Scale.{Scaled};
ghost use Rattle.quantiser_settings.specs.Paper.Settings.{setting_of, float_of};
ghost use Rattle.quantiser_settings.specs.Gain.{gain_by};

use quantiser_levels::{Scale, largest_of, take_apart};

// The most bits that a level may have.
pub const MOST_BITS: u16 = 12;

// The step: a level step or a full scale.
#[derive(Clone, Copy, Debug, PartialEq)]
pub enum Step {
    Level(f32),
    FullScale(f32),
}

// The bit width, the round limit and the step.
#[derive(Clone, Copy, Debug, PartialEq)]
pub struct Setting {
    pub bits: u16,
    pub limit: u16,
    pub step: Step,
}

// Whether the bit width and the round limit are in range.
pub fn ranges_fit(bits: u16, limit: u16) -> bool
    ensures { result ≡ ranges_fit bits limit }
{
    2 <= bits && bits <= MOST_BITS && limit <= 255
}

// Whether a setting may have this step: from 2 ^ -20 to 2 ^ 20. A NaN fails here too.
fn step_fits(d: f32) -> bool
    ensures { result ≡ step_fits d }
{
    0.00000095367431640625 <= d && d <= 1048576.0
}

// The float of the step, whichever its kind.
fn step_of(step: Step) -> f32
    ensures { result ≡ float_of step }
{
    match step {
        Step::Level(d) | Step::FullScale(d) => d,
    }
}

// Whether the setting is in range: refusal 6 where it is not.
pub fn setting_fits(s: Setting) -> bool
    ensures { result ≡ setting_fits (setting_of s) }
{
    ranges_fit(s.bits, s.limit) && step_fits(step_of(s.step))
}

// What a sample is multiplied by: a full scale is the largest level's, a level step that of level 1.
fn gain_by(step: Step, top: u64) -> u64
    ensures { result ≡ gain_by step top }
{
    match step {
        Step::Level(_) => 1,
        Step::FullScale(_) => top,
    }
}

// The scale of a setting, taken once for all its samples. Only this repository's crates call it, after asking refusal 6.
pub fn scale_of(setting: Setting) -> Scale
    requires { setting_fits (setting_of setting) ≡ true }
    ensures { Scaled (setting_of setting) result.gain result.top result.sig result.shift }
{
    let top = u64::from(largest_of(setting.bits));
    let d = take_apart(step_of(setting.step));
    Scale {
        gain: gain_by(setting.step, top),
        top,
        sig: d.sig,
        shift: d.shift,
    }
}
