// A table of the least magnitude of each level, made by the exact rule: the level of a sample can be looked up in it without a division.
// Rests on `quantiser_settings` and `quantiser_levels`, and on `byte_numbers` for its laws. Document 01: "Samples and levels".
#![tactic(auto)]

ghost use Rattle.std.specs.Prelude.{◌≡◌, true, ◌-◌, ◌*◌, ◌^◌, ◌<◌, ◌≤◌, length};
ghost use Rattle.quantiser_levels.specs.Paper.Samples.{setting_fits};
ghost use Rattle.quantiser_levels.specs.Scale.{Narrow};
ghost use Rattle.quantiser_settings.specs.Paper.Settings.{setting_of};
ghost use Rattle.quantiser_table.specs.Least.{most_pattern, table_of};
ghost use Rattle.quantiser_table.specs.Scales.{magnitude_by, least_by, Between};

use quantiser_levels::{Scale, level_by};
use quantiser_settings::{Setting, scale_of};

// The magnitude of the level of a pattern. It has no minus sign, so that the level is its own magnitude.
fn magnitude_at(scale: Scale, p: u32) -> u16
    requires { (Narrow scale.gain scale.top scale.sig) × (p < most_pattern) }
    ensures { result ≡ magnitude_by scale.gain scale.top (scale.sig * 2 ^ scale.shift) p }
{
    level_by(scale, f32::from_bits(p)) as u16
}

// Where the least pattern of a level is looked for: from `from` on, and not beyond `to`.
#[derive(Clone, Copy, Debug, PartialEq, Eq)]
struct Span {
    from: u32,
    to: u32,
}

// What is left of a span by the level of pattern c, as levels rise with the pattern. A pattern outside tells nothing.
fn narrowed(scale: Scale, q: u16, s: Span, c: u32) -> Span
    requires { Narrow scale.gain scale.top scale.sig × Between scale.gain scale.top (scale.sig * 2 ^ scale.shift) q s.from s.to }
    ensures { Between scale.gain scale.top (scale.sig * 2 ^ scale.shift) q result.from result.to × (result.to - result.from ≤ s.to - s.from) × (s.from ≤ c → c < s.to → result.to - result.from < s.to - s.from) }
{
    let from = s.from;
    let to = s.to;
    if c < from {
        return Span { from, to };
    }
    if to <= c {
        return Span { from, to };
    }
    if q <= magnitude_at(scale, c) {
        return Span { from, to: c };
    }
    Span { from: c + 1, to }
}

// The least pattern whose level is q or more: first by two patterns about `near`, which may be any number, then by halving;
// that of infinity beyond the largest level.
fn least_pattern(scale: Scale, q: u16, near: u32) -> u32
    requires { Narrow scale.gain scale.top scale.sig × (near < 4294967288) }
    ensures { result ≡ least_by scale.gain scale.top (scale.sig * 2 ^ scale.shift) q }
{
    let most: u32 = 0x7f80_0000;
    if scale.top < q as u64 {
        return most;
    }
    let all = Span { from: 0, to: most };
    let below = narrowed(scale, q, all, near + 4);
    let mut s = narrowed(scale, q, below, near);
    // No index is counted: each turn halves the span that is left.
    while s.from < s.to {
        let c = (s.from + s.to) / 2;
        s = narrowed(scale, q, s, c);
    }
    s.to
}

// Where the next one may be: as far beyond the last one as that is beyond the one before it, less two. Any number will do.
fn near(before: u32, last: u32) -> u32
    ensures { result < 4294967288 }
{
    if last < before {
        return 0;
    }
    if 0x7f80_0000 < last {
        return 0;
    }
    let next = last + (last - before);
    if next < 2 { 0 } else { next - 2 }
}

// The table of a setting. Only this repository's crates call it, with a setting that is accepted.
pub fn build(setting: Setting, table: &mut [u64])
    requires { (setting_fits (setting_of setting) ≡ true) × (length table.old ≡ 2050) }
    ensures { table.new ≡ table_of (setting_of setting) }
{
    let scale = scale_of(setting);
    let mut before: u32 = 0;
    let mut last: u32 = 0;
    for q in 0..2050 {
        let p = least_pattern(scale, q as u16, near(before, last));
        table[q] = p as u64;
        before = last;
        last = p;
    }
}
