// Votes counted sixty-four columns at a time: the digits of their numbers stand in planes, and eight sets of columns are added by adders of whole words.
// Rests on `counting`. Document 01: "Iterative voting", step 4.
#![tactic(auto)]

ghost use Rattle.std.specs.Prelude.{◌≡◌, ◌+◌, ◌*◌, ◌≤◌, ◌<◌, length};
ghost use Rattle.counting.specs.Places.{at};
ghost use Rattle.majority_planes.specs.Planes.{six_digits, sets_count, SetsAt, SixDigits, PlanesLaid};
ghost use Rattle.majority_planes.specs.Adders.{odd_of, most_of, eight_bits, Grown, PlanePut, PlanesTo};

// A word of each of six planes, the lowest digits first.
#[derive(Clone, Copy, Default)]
struct Digits {
    a: u64,
    b: u64,
    c: u64,
    d: u64,
    e: u64,
    f: u64,
}

// Where one or all of three words are set: the sum's digit.
fn odd(x: u64, y: u64, z: u64) -> u64
    ensures { result ≡ odd_of x y z }
{
    (x ^ y) ^ z
}

// Where two or all of them are: the digit to carry.
fn most(x: u64, y: u64, z: u64) -> u64
    ensures { result ≡ most_of x y z }
{
    (x & y) | ((x ^ y) & z)
}

// Adds the places of eight words.
fn add_eight(
    p: Digits,
    x0: u64,
    x1: u64,
    x2: u64,
    x3: u64,
    x4: u64,
    x5: u64,
    x6: u64,
    x7: u64,
) -> Digits
    ensures { Grown (six_digits p.a p.b p.c p.d p.e p.f) (eight_bits x0 x1 x2 x3 x4 x5 x6 x7) (six_digits result.a result.b result.c result.d result.e result.f) }
{
    let a0 = odd(p.a, x0, x1);
    let s0 = most(p.a, x0, x1);
    let a1 = odd(a0, x2, x3);
    let s1 = most(a0, x2, x3);
    let a2 = odd(a1, x4, x5);
    let s2 = most(a1, x4, x5);
    let a3 = odd(a2, x6, x7);
    let s3 = most(a2, x6, x7);
    let b0 = odd(p.b, s0, s1);
    let t0 = most(p.b, s0, s1);
    let b1 = odd(b0, s2, s3);
    let t1 = most(b0, s2, s3);
    let c0 = odd(p.c, t0, t1);
    let u = most(p.c, t0, t1);
    let v = p.d & u;
    Digits {
        a: a3,
        b: b1,
        c: c0,
        d: p.d ^ u,
        e: p.e ^ v,
        f: p.f ^ (p.e & v),
    }
}

// Word w of the set that stands at place q of the list.
fn word_of(sets: &[u64], rows: &[u16; 1023], q: usize, w: usize) -> u64
    requires { (q < 1023) × (w < 16) × (at rows.now q < 1023) × (16 * at rows.now q + 16 ≤ length sets.now) }
    ensures { result ≡ at sets.now (16 * at rows.now q + w) }
{
    let i = rows[q] as usize;
    sets[16 * i + w]
}

// Adds word w of the eight sets listed from a place on.
fn add_listed(sets: &[u64], rows: &[u16; 1023], q: usize, w: usize, p: Digits) -> Digits
    requires { (q + 8 ≤ 1023) × (w < 16) × SetsAt sets.now rows.now (q + 8) }
    ensures { Grown (six_digits p.a p.b p.c p.d p.e p.f) (sets_count sets.now rows.now q 8 w) (six_digits result.a result.b result.c result.d result.e result.f) }
{
    add_eight(
        p,
        word_of(sets, rows, q, w),
        word_of(sets, rows, q + 1, w),
        word_of(sets, rows, q + 2, w),
        word_of(sets, rows, q + 3, w),
        word_of(sets, rows, q + 4, w),
        word_of(sets, rows, q + 5, w),
        word_of(sets, rows, q + 6, w),
        word_of(sets, rows, q + 7, w),
    )
}

// Puts a word of each plane in its place; the others stay.
fn put(p: Digits, w: usize, planes: &mut [u64; 96])
    requires { (w < 16) × (length planes.old ≡ 96) }
    ensures { PlanePut w (six_digits p.a p.b p.c p.d p.e p.f) planes.old planes.new }
{
    planes[w] = p.a;
    planes[16 + w] = p.b;
    planes[32 + w] = p.c;
    planes[48 + w] = p.d;
    planes[64 + w] = p.e;
    planes[80 + w] = p.f;
}

// Counts the listed sets in words w and w + 1. The two stand side by side, so that the compiled loop takes both at a time.
fn count_pair(
    sets: &[u64],
    rows: &[u16; 1023],
    from: usize,
    eights: usize,
    w: usize,
    planes: &mut [u64; 96],
)
    requires { (from + 8 * eights ≤ 1023) × (w + 2 ≤ 16) × SetsAt sets.now rows.now (from + 8 * eights) × SixDigits sets.now rows.now from (8 * eights) × PlanesTo w sets.now rows.now from (8 * eights) planes.old }
    ensures { PlanesTo (w + 2) sets.now rows.now from (8 * eights) planes.new }
{
    let none = Digits::default();
    let mut p = none;
    let mut r = none;
    for q in 0..eights {
        p = add_listed(sets, rows, from + 8 * q, w, p);
        r = add_listed(sets, rows, from + 8 * q, w + 1, r);
    }
    put(p, w, planes);
    put(r, w + 1, planes);
}

// Counts the listed sets, eight times `eights` of them from a place on: in how many of them each place of their words is set.
// The array of rows is lent whole, as in `majority_votes`. Only this repository's crates call it, where no count is above 63.
pub fn count(sets: &[u64], rows: &[u16; 1023], from: usize, eights: usize, planes: &mut [u64; 96])
    requires { (from + 8 * eights ≤ 1023) × SetsAt sets.now rows.now (from + 8 * eights) × SixDigits sets.now rows.now from (8 * eights) × (length planes.old ≡ 96) }
    ensures { PlanesLaid sets.now rows.now from (8 * eights) planes.new }
{
    for h in 0..8 {
        count_pair(sets, rows, from, eights, 2 * h, planes);
    }
}
