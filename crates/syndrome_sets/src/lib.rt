// The set of failing checks of a word that follows another one: a flipped bit turns over its column's checks, sixty-four at a time.
// Rests on the definitions of `syndrome_words`, and for its laws on those of `syndrome_update` and `syndrome`. Document 01: "Iterative voting", steps 2 and 4.
#![tactic(auto)]

ghost use Rattle.std.specs.Prelude.{◌≡◌, ℕ, ◌+◌, ◌*◌, ◌≤◌, ◌<◌, length};
ghost use Rattle.std.specs.Int.Bits.{bit_xor};
ghost use Rattle.std.specs.Int.Count.{ones};
ghost use Rattle.counting.specs.Paper.Lists.{listed, over};
ghost use Rattle.counting.specs.Paper.Sum.{sum_below};
ghost use Rattle.counting.specs.Places.{at};
ghost use Rattle.syndrome_sets.specs.Turns.{word_after, words_for, ColumnAt};
ghost use Rattle.syndrome_sets.specs.Counts.{word_apart, sets_apart};

// Turns over the words of a set by those that stand in `columns` from a place on.
fn turn_column<const WORDS: usize>(columns: &[u64], from: usize, parity: &mut [u64; 16])
    requires { (WORDS ≤ 16) × (from ≤ 17391) × (from + WORDS ≤ length columns.now) × (length parity.old ≡ 16) }
    ensures { parity.new ≡ over (listed WORDS (λ w. bit_xor (at parity.old w) (at columns.now (from + w)))) parity.old }
{
    for w in 0..WORDS {
        parity[w] ^= columns[from + w];
    }
}

// The same for each listed column, on a copy, which the compiled loop keeps in registers.
fn turn_listed<const WORDS: usize>(
    columns: &[u64],
    places: &[u16; 1023],
    count: usize,
    parity: &mut [u64; 16],
)
    requires { (WORDS ≤ 16) × (count ≤ 1023) × ((q : ℕ) → q < count → ColumnAt columns.now (at places.now q)) × (length parity.old ≡ 16) }
    ensures { parity.new ≡ over (listed WORDS (word_after columns.now places.now count parity.old)) parity.old }
{
    let mut p = *parity;
    for j in &places[..count] {
        turn_column::<WORDS>(columns, 16 * *j as usize, &mut p);
    }
    *parity = p;
}

// The same with as many words as m checks need, two or sixteen, each in a loop laid out for that many.
// Only this repository's crates call it, with the columns of an accepted matrix.
pub fn turn(
    columns: &[u64],
    n: usize,
    m: usize,
    places: &[u16; 1023],
    count: usize,
    parity: &mut [u64; 16],
)
    requires { (n ≤ 1023) × (17 * n ≤ length columns.now) × (count ≤ 1023) × ((q : ℕ) → q < count → at places.now q < n) × (length parity.old ≡ 16) }
    ensures { parity.new ≡ over (listed (words_for m) (word_after columns.now places.now count parity.old)) parity.old }
{
    if m <= 128 {
        turn_listed::<2>(columns, places, count, parity)
    } else {
        turn_listed::<16>(columns, places, count, parity)
    }
}

// In how many bits two words differ.
fn word_apart(x: u64, y: u64) -> u16
    ensures { (result ≡ ones (bit_xor x y)) × (result ≡ word_apart x y) }
{
    (x ^ y).count_ones() as u16
}

// How many bits of their first words two sets differ in. Only this repository's crates call it, with sets of checks.
pub fn apart(words: usize, a: &[u64; 16], b: &[u64; 16]) -> u16
    requires { words ≤ 16 }
    ensures { (result ≡ sum_below words (λ w. ones (bit_xor (at a.now w) (at b.now w)))) × (result ≡ sets_apart words a.now b.now) }
{
    let mut t: u16 = 0;
    for w in 0..words {
        t += word_apart(a[w], b[w]);
    }
    t
}
