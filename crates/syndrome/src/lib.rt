// The syndrome of a word: which parity checks fail, and how many; and what every call asks of a received word.
// Rests on `matrix_check` and `packed_word`. Document 01: "The code and the block"; refusals 7 and 9.
#![tactic(auto)]

ghost use Rattle.std.specs.Prelude.{◌≡◌, ℕ, ◌%◌, ◌<◌, ◌≤◌, length};
ghost use Rattle.answers.specs.Paper.Enums.{verdict_of};
ghost use Rattle.counting.specs.Paper.Lists.{listed, over};
ghost use Rattle.counting.specs.Places.{at};
ghost use Rattle.matrix.specs.Paper.Code.{Word, fails, failing};
ghost use Rattle.matrix.specs.Paper.PlainCheck.{Accepted};
ghost use Rattle.matrix.specs.Paper.Shapes.{matrix_of};
ghost use Rattle.syndrome.specs.Paper.Failing.{word_verdict};
ghost use Rattle.syndrome.specs.Places.{Part, BitsAt, ones_at, Checks, row_fails, PlacesListed};

use answers::Refusal;
use matrix_check::Shape;

// The parity of the bits at `count` column numbers of the list: a row's check fails where it is 1.
// Only this repository's crates call it, with rows of an accepted matrix.
pub fn row_parity(list: &[u16], from: usize, count: usize, bits: &[u8; 1023]) -> u8
    requires { Part list.now from count × BitsAt list.now from count (at bits.now) }
    ensures { result ≡ ones_at list.now from count (at bits.now) % 2 }
{
    let row = &list[from..from + count];
    let mut x: u8 = 0;
    for j in row {
        x ^= bits[*j as usize];
    }
    x
}

// The parity of each of m rows of the list. The cells past them stay.
fn parities(list: &[u16], m: usize, rho: usize, bits: &[u8; 1023], parity: &mut [u8; 1023])
    requires { Checks list.now m rho (at bits.now) × (length parity.old ≡ 1023) }
    ensures { parity.new ≡ over (listed m (row_fails list.now rho (at bits.now))) parity.old }
{
    for i in 0..m {
        parity[i] = row_parity(list, i * rho, rho, bits);
    }
}

// The same, with the loop over a row's entries laid out for each of the smallest row weights.
// Only this repository's crates call it, with rows of an accepted matrix.
pub fn row_parities(list: &[u16], m: usize, rho: usize, bits: &[u8; 1023], parity: &mut [u8; 1023])
    requires { Checks list.now m rho (at bits.now) × (length parity.old ≡ 1023) }
    ensures { parity.new ≡ over (listed m (row_fails list.now rho (at bits.now))) parity.old }
{
    match rho {
        3 => parities(list, m, 3, bits, parity),
        4 => parities(list, m, 4, bits, parity),
        5 => parities(list, m, 5, bits, parity),
        6 => parities(list, m, 6, bits, parity),
        _ => parities(list, m, rho, bits, parity),
    }
}

// Lists the rows whose parity is 1 at the front of `rows`, in their order, and says how many they are.
// Each row is written and then counted by its parity, so that no branch is guessed wrong.
// Only this repository's crates call it, with parities of an accepted matrix.
pub fn list_odd(m: usize, parity: &[u8; 1023], rows: &mut [u16]) -> usize
    requires { (m ≤ 1023) × ((i : ℕ) → i < m → at parity.now i < 2) × (length rows.old ≡ 1023) }
    ensures { PlacesListed (at parity.now) m rows.old rows.new result }
{
    let mut t = 0;
    for i in 0..m {
        rows[t] = i as u16;
        t += parity[i] as usize;
    }
    t
}

// The rows of an accepted matrix whose checks fail. The array is lent as a slice, since the loan tells the proof its length.
// Only this repository's crates call it, after the check.
pub fn failing_rows(shape: Shape, list: &[u16], bits: &[u8; 1023], rows: &mut [u16; 1023]) -> usize
    requires { Accepted (matrix_of shape list.now) × Word (matrix_of shape list.now) (at bits.now) }
    ensures { PlacesListed (fails (matrix_of shape list.now) (at bits.now)) shape.m rows.old rows.new result }
{
    let m = shape.m as usize;
    let rho = shape.rho as usize;
    let mut parity = [0u8; 1023];
    row_parities(list, m, rho, bits, &mut parity);
    list_odd(m, &parity, rows)
}

// How many checks of a word fail. Only this repository's crates call it, after the check.
pub fn failing_count(shape: Shape, list: &[u16], bits: &[u8; 1023]) -> u16
    requires { Accepted (matrix_of shape list.now) × Word (matrix_of shape list.now) (at bits.now) }
    ensures { result ≡ failing (matrix_of shape list.now) (at bits.now) }
{
    let m = shape.m as usize;
    let rho = shape.rho as usize;
    let mut count: u16 = 0;
    for i in 0..m {
        count += row_parity(list, i * rho, rho, bits) as u16;
    }
    count
}

// What is asked of a received word and the written buffers: 7, 9. A buffer that the call does not write is given as just long enough.
// Only this repository's crates call it, after the matrix is accepted.
pub fn ask_word(n: usize, received: &[u8], bytes: usize, room: usize) -> Result<(), Refusal>
    requires { n ≤ 1023 }
    ensures { verdict_of result ≡ word_verdict n received.now bytes room }
{
    let need = (n + 7) / 8;
    if answers::wrong_lengths(received.len(), need, bytes, need, room, n) {
        return Err(Refusal::Buffer);
    }
    answers::refused_when(packed_word::spare_set(received, n), Refusal::Spare)
}
