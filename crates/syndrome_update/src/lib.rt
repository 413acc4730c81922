// The parities of the checks of a word that follows another one: those of the flipped bits' checks are turned over, by the index.
// Rests on `matrix_index` and `syndrome`. Document 01: "Iterative voting", steps 2 and 4. Document 02: card 1.
#![tactic(auto)]

ghost use Rattle.std.specs.Prelude.{ℕ, ◌+◌, ◌≤◌, ◌<◌, ◌≡◌, length};
ghost use Rattle.counting.specs.Paper.Sum.{sum_below};
ghost use Rattle.counting.specs.Places.{at, among};
ghost use Rattle.syndrome.specs.Places.{Part, Places};
ghost use Rattle.syndrome_update.specs.Parities.{Bits, BitsBelow, ParitiesTurned, differing, FlipsListed, column_rows, listed_rows, Columns};

// Lists the places from `from` to before `to` at which two words differ behind the first t, which are those before `from`; says how many are listed then.
// Each place is written and then counted by the difference, so that no branch is guessed wrong.
fn list_part(
    from: usize,
    to: usize,
    before: &[u8; 1023],
    bits: &[u8; 1023],
    places: &mut [u16],
    t: usize,
) -> usize
    requires { (from ≤ to) × (to ≤ 1023) × BitsBelow to before.now × BitsBelow to bits.now × Places (differing (at before.now) (at bits.now)) from places.old t }
    ensures { FlipsListed (differing (at before.now) (at bits.now)) to places.old places.new result }
{
    let mut t = t;
    for j in from..to {
        places[t] = j as u16;
        t += (before[j] ^ bits[j]) as usize;
    }
    t
}

// The same for eight places from j on: where the words agree in all of them, nothing is written. Compiled, the eight bytes of a word
// are one load of 64 bits.
fn list_eight(
    j: usize,
    before: &[u8; 1023],
    bits: &[u8; 1023],
    places: &mut [u16],
    t: usize,
) -> usize
    requires { (j + 8 ≤ 1023) × BitsBelow (j + 8) before.now × BitsBelow (j + 8) bits.now × Places (differing (at before.now) (at bits.now)) j places.old t }
    ensures { FlipsListed (differing (at before.now) (at bits.now)) (j + 8) places.old places.new result }
{
    if before[j..j + 8].first_chunk::<8>() == bits[j..j + 8].first_chunk::<8>() {
        return t;
    }
    list_part(j, j + 8, before, bits, places, t)
}

// Lists the places below n at which two words differ at the front of `places`, each once, and says how many they are.
// Eight places in which the words agree are passed over at once. What the cell behind the places listed holds does not matter; those past it stay.
// Only this repository's crates call it, with words of an accepted matrix.
pub fn list_flips(n: usize, before: &[u8; 1023], bits: &[u8; 1023], places: &mut [u16]) -> usize
    requires { (n ≤ 1023) × BitsBelow n before.now × BitsBelow n bits.now × (length places.old ≡ 1023) }
    ensures { FlipsListed (differing (at before.now) (at bits.now)) n places.old places.new result }
{
    let eights = n / 8;
    let mut t = 0;
    for q in 0..eights {
        t = list_eight(8 * q, before, bits, places, t);
    }
    list_part(8 * eights, n, before, bits, places, t)
}

// Turns over the parity at each of `count` row numbers of the index.
fn turn_checks(index: &[u16], from: usize, count: usize, parity: &mut [u8; 1023])
    requires { Part index.now from count × Bits parity.old }
    ensures { ParitiesTurned (among index.now from count) parity.old parity.new }
{
    let rows = &index[from..from + count];
    for i in rows {
        parity[*i as usize] ^= 1;
    }
}

// The same at the rows of column j.
fn turn_column(index: &[u16], n: usize, j: usize, parity: &mut [u8; 1023])
    requires { Columns index.now n × (j < n) × Bits parity.old }
    ensures { ParitiesTurned (column_rows index.now n j) parity.old parity.new }
{
    let from = index[j] as usize;
    let to = index[j + 1] as usize;
    turn_checks(index, n + 1 + from, to - from, parity);
}

// The same at the rows of each of `count` listed columns. Only this repository's crates call it, with the index of an accepted matrix.
pub fn turn_listed(
    index: &[u16],
    n: usize,
    places: &[u16; 1023],
    count: usize,
    parity: &mut [u8; 1023],
)
    requires { Columns index.now n × (count ≤ 1023) × ((q : ℕ) → q < count → at places.now q < n) × Bits parity.old }
    ensures { ParitiesTurned (listed_rows index.now n places.now count) parity.old parity.new }
{
    for j in &places[..count] {
        turn_column(index, n, *j as usize, parity);
    }
}

// How many of m parities are 1. Only this repository's crates call it, with parities of an accepted matrix.
pub fn count_odd(m: usize, parity: &[u8; 1023]) -> u16
    requires { (m ≤ 1023) × Bits parity.now }
    ensures { result ≡ sum_below m (at parity.now) }
{
    parity[..m].iter().map(|p| *p as u16).sum()
}
