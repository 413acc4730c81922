// Packed words: eight bits to a byte, bit 0 in the highest place of byte 0. One bit read, set and turned over, and the spare places; words
// unpacked and packed.
// Rests on `counting`. Document 01: "The code and the block"; the named form "by shift and mask".
#![tactic(auto)]

ghost use Rattle.std.specs.Prelude.{◌≡◌, ℕ, ◌+◌, ◌*◌, ◌/◌, ◌<◌, ◌≤◌, ltb, length};
ghost use Rattle.counting.specs.Paper.Sum.{flag};
ghost use Rattle.counting.specs.Paper.Lists.{over};
ghost use Rattle.counting.specs.Places.{at};
ghost use Rattle.packed_word.specs.Paper.Packed.{bit_at, bytes_for, packed_byte, pack, spare_set};
ghost use Rattle.packed_word.specs.Steps.{Unpacked, SetBit, FlipBit};

// Bit j of a packed word. Only this repository's crates call it, with a bit that the word has.
pub fn get_bit(w: &[u8], j: usize) -> u8
    requires { j / 8 < length w.now }
    ensures { result ≡ bit_at w.now j }
{
    (w[j / 8] >> (7 - j % 8)) & 1
}

// Sets bit j of a packed word, and changes no other: document 01's named form. Only this repository's crates call it, with a bit that the word has.
pub fn set_bit(w: &mut [u8], j: usize)
    requires { j / 8 < length w.old }
    ensures { SetBit w.old w.new j }
{
    w[j / 8] |= 1 << (7 - j % 8);
}

// Turns bit j of a packed word over, and changes no other, in the same form. No crate of this repository needs it yet.
pub fn flip_bit(w: &mut [u8], j: usize)
    requires { j / 8 < length w.old }
    ensures { FlipBit w.old w.new j }
{
    w[j / 8] ^= 1 << (7 - j % 8);
}

// Whether a place of the last byte that holds no bit of the word is set. There are at most seven such places.
// Only this repository's crates call it, with the bytes of n bits.
pub fn spare_set(w: &[u8], n: usize) -> bool
    requires { (length w.now ≡ bytes_for n) × (n ≤ 1023) }
    ensures { result ≡ spare_set n w.now }
{
    (n..8 * w.len()).any(|j| get_bit(w, j) == 1)
}

// Writes the n bits of a word into the first n cells, one to a cell. Only this repository's crates call it, with the bytes of n bits.
pub fn unpack(w: &[u8], n: usize, bits: &mut [u8; 1023])
    requires { (n ≤ 1023) × (n ≤ 8 * length w.now) }
    ensures { Unpacked n w.now bits.old bits.new }
{
    for j in 0..n {
        bits[j] = get_bit(w, j);
    }
}

// Cell j, and 0 from place n on, so that the spare places of the last byte are clear.
fn bit_or_zero(bits: &[u8; 1023], n: usize, j: usize) -> u8
    requires { n ≤ 1023 }
    ensures { result ≡ flag (ltb j n) * at bits.now j }
{
    if j < n { bits[j] } else { 0 }
}

// A byte with one bit more, at its low end. The byte has room for it.
fn with_bit(b: u8, x: u8) -> u8
    requires { (b < 128) × (x < 2) }
    ensures { result ≡ 2 * b + x }
{
    (b << 1) | x
}

// Byte q of the word whose bits are the first n cells.
fn packed_byte(bits: &[u8; 1023], n: usize, q: usize) -> u8
    requires { (n ≤ 1023) × (q < 128) × ((j : ℕ) → j < n → at bits.now j < 2) }
    ensures { result ≡ packed_byte n (at bits.now) q }
{
    let mut b: u8 = 0;
    for i in 0..8 {
        b = with_bit(b, bit_or_zero(bits, n, 8 * q + i));
    }
    b
}

// Writes the word whose bits are the first n cells, spare places clear, into the first bytes of w.
// Only this repository's crates call it, with room for these bytes.
pub fn pack_into(bits: &[u8; 1023], n: usize, w: &mut [u8])
    requires { (n ≤ 1023) × (bytes_for n ≤ length w.old) × ((j : ℕ) → j < n → at bits.now j < 2) }
    ensures { w.new ≡ over (pack n (at bits.now)) w.old }
{
    let bytes = (n + 7) / 8;
    for q in 0..bytes {
        w[q] = packed_byte(bits, n, q);
    }
}
