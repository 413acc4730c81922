// At how many places two runs of bytes differ: sixty-four places at a time, the last bytes singly.
// Rests on `packed_word` and `counting`. Document 02, card 4; the named form: "64-bit word built from eight bytes, difference counted
// with the language's ones count".
#![tactic(auto)]

ghost use Rattle.std.specs.Prelude.{◌≡◌, ◌+◌, ◌*◌, ◌-◌, ◌^◌, ◌<◌, ◌≤◌, length};
ghost use Rattle.std.specs.Int.Bits.{bit_xor};
ghost use Rattle.std.specs.Int.Count.{ones};
ghost use Rattle.packed_word.specs.Paper.Packed.{bit_at, distance};
ghost use Rattle.packed_distance.specs.Parts.{WordRead, apart, apart_in};

// The number that the first eight bytes make, the first the lowest: compiled, that is one load of 64 bits.
fn eight(w: &[u8]) -> u64
    requires { 8 ≤ length w.now }
    ensures { WordRead w.now 0 8 result }
{
    u64::from_le_bytes([w[0], w[1], w[2], w[3], w[4], w[5], w[6], w[7]])
}

// The ones of the difference of two words.
fn ones_apart(x: u64, y: u64) -> u32
    ensures { result ≡ ones (bit_xor x y) }
{
    (x ^ y).count_ones()
}

// At how many of their sixty-four places the eight bytes from byte q on differ.
fn word_apart(a: &[u8], b: &[u8], q: usize) -> u64
    requires { (q + 8 ≤ length a.now) × (q + 8 ≤ length b.now) }
    ensures { result ≡ apart_in a.now b.now q 8 }
{
    u64::from(ones_apart(eight(&a[q..]), eight(&b[q..])))
}

// At how many places the first words, of eight bytes each, differ. There are few enough that 64 bits can count their places.
fn words_apart(a: &[u8], b: &[u8], words: usize) -> u64
    requires { (8 * words ≤ length a.now) × (8 * words ≤ length b.now) × (words < 2 ^ 58) }
    ensures { result ≡ apart_in a.now b.now 0 (8 * words) }
{
    let mut found: u64 = 0;
    for i in 0..words {
        found += word_apart(a, b, 8 * i);
    }
    found
}

// At how many places the bytes from byte `from` on differ, byte by byte: the last ones, fewer than eight.
fn last_apart(a: &[u8], b: &[u8], from: usize) -> u16
    requires { (length a.now ≡ length b.now) × (from ≤ length a.now) × (length a.now < from + 8) }
    ensures { result ≡ apart_in a.now b.now from (length a.now - from) }
{
    let mut found: u16 = 0;
    for q in from..a.len() {
        found += (a[q] ^ b[q]).count_ones() as u16;
    }
    found
}

// At how many places two runs of bytes of one length differ, of any length whose places 64 bits can count: the words of eight bytes,
// then the last bytes singly.
fn places_apart(a: &[u8], b: &[u8]) -> u64
    requires { (length a.now ≡ length b.now) × (length a.now < 2 ^ 61) }
    ensures { result ≡ distance (8 * length a.now) (bit_at a.now) (bit_at b.now) }
{
    let words = a.len() / 8;
    words_apart(a, b, words) + last_apart(a, b, 8 * words) as u64
}

// At how many places two words of the same length differ: every count of changed bits. Only this repository's crates call it.
pub fn differing(a: &[u8], b: &[u8]) -> u16
    requires { (length a.now ≡ length b.now) × (length a.now ≤ 128) }
    ensures { result ≡ distance (8 * length a.now) (bit_at a.now) (bit_at b.now) }
{
    places_apart(a, b) as u16
}
