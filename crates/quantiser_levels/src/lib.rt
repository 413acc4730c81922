// The level and the hard bit of one sample, exactly.
// Rests on `counting`, `answers` and `packed_word` for its definitions. Document 01: "Samples and levels".
#![tactic(auto)]

ghost use Rattle.std.specs.Prelude.{◌≡◌, min, ◌-◌, ◌*◌, ◌^◌, ◌<◌, ◌≤◌, T};
ghost use Rattle.std.specs.Float.Ieee.Scale.{finite};
ghost use Rattle.quantiser_levels.specs.Paper.Samples.{most_bits, largest, nearest_whole, signed, hard_of};
ghost use Rattle.quantiser_levels.specs.Scale.{level_by, Digits, Apart, Narrow};

// A stored level.
pub type Cell = i16;

// A sample half-way between two levels goes away from zero at 0, and toward zero at 1.
const TIE: u64 = 0;

// A finite float by its own fields: its sign, and its magnitude as sig * 2 ^ shift units of 2 ^ -149.
#[derive(Clone, Copy, Debug, PartialEq, Eq)]
pub struct Parts {
    pub negative: bool,
    pub sig: u64,
    pub shift: u64,
}

// What the levels of one setting have in common: the gain, the largest level, and the step's magnitude as in `Parts`.
#[derive(Clone, Copy, Debug, PartialEq, Eq)]
pub struct Scale {
    pub gain: u64,
    pub top: u64,
    pub sig: u64,
    pub shift: u64,
}

// Whether a float is neither infinite nor a NaN: a NaN fails every comparison. By two comparisons, as the library's own test subtracts:
// at an infinite sample that raises the processor's flag for an invalid operation, for which a caller may have a trap.
pub fn is_finite(x: f32) -> bool
    ensures { result ≡ finite x }
{
    let top = f32::from_bits(0x7f80_0000);
    -top < x && x < top
}

// The hard bit comes from the sample and not from its level. Both zeros give 0.
pub fn hard_bit(x: f32) -> u8
    ensures { result ≡ hard_of x }
{
    if 0.0 < x { 1 } else { 0 }
}

// A float by its fields. Only a field of 0, of zeros and subnormals, has no leading one.
// Only this repository's crates call it, with finite floats.
pub fn take_apart(x: f32) -> Parts
    requires { T (finite x) }
    ensures { Apart x result.negative result.sig result.shift }
{
    let bits = f32::to_bits(x) as u64;
    let negative = 0x8000_0000 <= bits;
    let field = bits % 0x8000_0000 / 0x80_0000;
    let digits = bits % 0x80_0000;
    if field == 0 {
        return Parts {
            negative,
            sig: digits,
            shift: 0,
        };
    }
    Parts {
        negative,
        sig: 0x80_0000 + digits,
        shift: field - 1,
    }
}

// n / d to the nearest whole number, at most `top`.
fn capped(n: u64, d: u64, top: u64) -> u64
    requires { (n < 2 ^ 62) × (0 < d) × (d < 2 ^ 62) }
    ensures { result ≡ min top (nearest_whole n d) }
{
    ((2 * n + d - TIE) / (2 * d)).min(top)
}

// How far the shift `a` is above the shift `b`, at most 27 places.
fn places(a: u64, b: u64) -> u64
    ensures { result ≡ min 27 (a - b) }
{
    a.saturating_sub(b).min(27)
}

// The magnitude of a level: sample and step are shifted by what one has more than the other.
// Past 26 places the sample is so large that the magnitude is the largest, or so small that it is 0,
// so that 27 places give the same as more, and the numbers fit 64 bits.
fn magnitude_of(s: Scale, y: Parts) -> u64
    requires { (Narrow s.gain s.top s.sig) × (Digits y.sig y.shift) }
    ensures { result ≡ min s.top (nearest_whole (s.gain * (y.sig * 2 ^ y.shift)) (s.sig * 2 ^ s.shift)) }
{
    let n = (s.gain * y.sig) << places(y.shift, s.shift);
    let d = s.sig << places(s.shift, y.shift);
    capped(n, d, s.top)
}

// A magnitude with its sign. Minus 0 is 0.
fn with_sign(negative: bool, n: u64) -> Cell
    requires { n < 2 ^ (most_bits - 1) }
    ensures { result ≡ signed negative n }
{
    let v = n as Cell;
    if negative { -v } else { v }
}

// The level of a finite sample. Only this repository's crates call it, with the scale of a setting in range.
pub fn level_by(s: Scale, x: f32) -> Cell
    requires { (Narrow s.gain s.top s.sig) × (T (finite x)) }
    ensures { result ≡ level_by s.gain s.top (s.sig * 2 ^ s.shift) x }
{
    let y = take_apart(x);
    with_sign(y.negative, magnitude_of(s, y))
}

// L, the largest level of so many bits. Only this repository's crates call it, with a width in range.
pub fn largest_of(bits: u16) -> u16
    requires { (2 ≤ bits) × (bits ≤ most_bits) }
    ensures { result ≡ largest bits }
{
    (1u16 << (bits - 1)) - 1
}
