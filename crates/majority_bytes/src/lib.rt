// Votes counted in planes, brought to bytes: eight at a time, as those of the eight columns from a multiple of eight on stand at one place of a word's eight bytes.
// Rests on the definitions of `majority_planes`. Document 01: "Iterative voting", step 4.
#![tactic(auto)]

ghost use Rattle.std.specs.Prelude.{◌≡◌, ℕ, ◌+◌, ◌*◌, ◌/◌, ◌%◌, ◌≤◌, ◌<◌, length};
ghost use Rattle.counting.specs.Places.{at};
ghost use Rattle.majority_planes.specs.Planes.{plane_value};
ghost use Rattle.majority_bytes.specs.Bytes.{spread_of, wide_of, byte_of, BytesLaid};

// The digits of x at places s, 8 + s, .. 56 + s, each as a byte.
fn spread(x: u64, s: usize) -> u64
    requires { s < 8 }
    ensures { result ≡ spread_of x s }
{
    (x >> s) & 0x0101010101010101
}

// The numbers at these places of word w, each as a byte.
fn wide(planes: &[u64; 96], w: usize, s: usize) -> u64
    requires { (w < 16) × (s < 8) }
    ensures { result ≡ wide_of (plane_value planes.now w) s }
{
    let low = spread(planes[w], s) + 2 * spread(planes[16 + w], s) + 4 * spread(planes[32 + w], s);
    let high = spread(planes[48 + w], s)
        + 2 * spread(planes[64 + w], s)
        + 4 * spread(planes[80 + w], s);
    low + 8 * high
}

// The words of sums for one place of the bytes. The compiled loop takes several at a time.
fn widen_some(planes: &[u64; 96], s: usize, sums: &mut [u64; 128])
    requires { (s < 8) × (length sums.old ≡ 128) × ((k : ℕ) → k < 16 * s → at sums.old k ≡ wide_of (plane_value planes.now (k % 16)) (k / 16)) }
    ensures { (length sums.new ≡ 128) × ((k : ℕ) → k < 16 * s + 16 → at sums.new k ≡ wide_of (plane_value planes.now (k % 16)) (k / 16)) }
{
    for w in 0..16 {
        sums[16 * s + w] = wide(planes, w, s);
    }
}

// All of them.
fn widen(planes: &[u64; 96], sums: &mut [u64; 128])
    requires { length sums.old ≡ 128 }
    ensures { (length sums.new ≡ 128) × ((k : ℕ) → k < 128 → at sums.new k ≡ wide_of (plane_value planes.now (k % 16)) (k / 16)) }
{
    for s in 0..8 {
        widen_some(planes, s, sums);
    }
}

// Writes the eight bytes of x from a place on; the bytes before them stay.
fn put_word(x: u64, from: usize, bytes: &mut [u8; 1024])
    requires { (from + 8 ≤ 1024) × (length bytes.old ≡ 1024) }
    ensures { (length bytes.new ≡ 1024) × ((j : ℕ) → j < from → at bytes.new j ≡ at bytes.old j) × ((r : ℕ) → r < 8 → at bytes.new (from + r) ≡ byte_of x r) }
{
    bytes[from..from + 8].copy_from_slice(&x.to_le_bytes());
}

// Writes the numbers of the planes as bytes. Only this repository's crates call it.
pub fn lay(planes: &[u64; 96], bytes: &mut [u8; 1024])
    requires { length bytes.old ≡ 1024 }
    ensures { BytesLaid planes.now bytes.new }
{
    let mut sums = [0u64; 128];
    widen(planes, &mut sums);
    for q in 0..128 {
        put_word(sums[q], 8 * q, bytes);
    }
}
