// Numbers and single-format floats that stand in bytes, low byte first.
// Rests on `counting`. Document 01: "Worked by hand", the paragraph on the program. Document 02: cards 3, 5 and 7.
#![tactic(auto)]

ghost use Rattle.std.specs.Prelude.{◌+◌, ◌/◌, ◌≤◌, ◌<◌, ◌≡◌, length, MatchOption};
ghost use Rattle.std.specs.Float.{binary32};
ghost use Rattle.std.specs.Float.Ieee.{of_bits};
ghost use Rattle.std.specs.Float.Ieee.Scale.{finite};
ghost use Rattle.std.proofs.lemmas.List.Edits.{sets};
ghost use Rattle.counting.specs.Paper.Lists.{over};
ghost use Rattle.byte_numbers.specs.Paper.Numbers.{number16, number32, bytes16, entries_in};
ghost use Rattle.byte_numbers.specs.Floats.{Sampled};

// A byte as a wider number.
pub fn wide(b: u8) -> u16
    ensures { (result ≡ b) × (result < 256) }
{
    u16::from(b)
}

// The 16-bit number at byte p. Only this repository's crates call it, where the bytes have one.
pub fn number16(bytes: &[u8], p: usize) -> u16
    requires { p + 1 < length bytes.now }
    ensures { result ≡ number16 bytes.now p }
{
    u16::from_le_bytes([bytes[p], bytes[p + 1]])
}

// The 32-bit number at byte p: compiled, that is one load. Only this repository's crates call it, where the bytes have one.
pub fn number32(bytes: &[u8], p: usize) -> u32
    requires { p + 3 < length bytes.now }
    ensures { result ≡ number32 bytes.now p }
{
    u32::from_le_bytes([bytes[p], bytes[p + 1], bytes[p + 2], bytes[p + 3]])
}

// A 16-bit number at byte p, low byte first. Only this repository's crates call it, with room for it.
pub fn put16(x: u16, p: usize, bytes: &mut [u8])
    requires { p + 1 < length bytes.old }
    ensures { bytes.new ≡ sets bytes.old p (bytes16 x) }
{
    bytes[p..p + 2].copy_from_slice(&x.to_le_bytes());
}

// The 16-bit numbers that the bytes are, at the front of an array. Only this repository's crates call it, with room for them.
pub fn entries(bytes: &[u8], list: &mut [u16])
    requires { length bytes.now / 2 ≤ length list.old }
    ensures { list.new ≡ over (entries_in bytes.now) list.old }
{
    for i in 0..bytes.len() / 2 {
        list[i] = number16(bytes, 2 * i);
    }
}

// Whether a pattern is that of a finite float: the exponent's field is not all ones.
pub fn finite_pattern(p: u32) -> bool
    ensures { result ≡ finite (of_bits binary32 p) }
{
    p % 0x8000_0000 / 0x80_0000 != 255
}

// The floats that the bytes are, up to the first that is not finite, whose place it answers if there is one.
// Only this repository's crates call it, with room for them.
pub fn samples(bytes: &[u8], xs: &mut [f32]) -> Option<usize>
    requires { length bytes.now / 4 ≤ length xs.old }
    ensures { MatchOption result (Sampled bytes.now xs.old xs.new (length bytes.now / 4)) (λ r. Sampled bytes.now xs.old xs.new r × (r < length bytes.now / 4)) }
{
    for i in 0..bytes.len() / 4 {
        let p = number32(bytes, 4 * i);
        if !finite_pattern(p) {
            return Some(i);
        }
        xs[i] = f32::from_bits(p);
    }
    None
}
