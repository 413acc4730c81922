// Refusal 5 in one pass: whether two rows have two columns in common. Which rows they are, the exact search of `matrix_overlap` finds.
// Rests on `matrix`. Document 01: "Refused for the input" 5.
#![tactic(auto)]

ghost use Rattle.std.specs.Prelude.{◌≡◌, ◌+◌, ◌*◌, ◌<◌, ◌≤◌, length, get_or};
ghost use Rattle.matrix.specs.Ordered.{Ordered};
ghost use Rattle.matrix.specs.Paper.Shapes.{matrix_of};
ghost use Rattle.matrix_meeting.specs.Marks.{Meets, SaysTwice, Unmarked, bit_for, marked, noted};
ghost use Rattle.matrix_meeting.specs.Overlaps.{RowsSeen, part_overlaps, has_overlap};

use matrix::{Shape, column};

// The bits that were met in one word after another, and those of them that were met twice.
#[derive(Clone, Copy)]
struct Met {
    once: u64,
    twice: u64,
}

// Meets the bits of word `at` of the rows seen.
fn meet(met: Met, seen: &[u64], at: usize) -> Met
    requires { at < length seen.now }
    ensures { Meets met (get_or seen.now at 0) result }
{
    let word = seen[at];
    Met {
        once: met.once | word,
        twice: met.twice | (met.once & word),
    }
}

// Meets the rows seen in the columns of row i: each column has four words, one bit for each row of a part.
// Whether a row is met twice, so has two columns of row i.
fn met_twice(shape: Shape, list: &[u16], i: usize, seen: &[u64]) -> bool
    requires { Ordered (matrix_of shape list.now) × (i < shape.m) × (shape.n * 4 ≤ length seen.now) }
    ensures { SaysTwice (matrix_of shape list.now) i seen.now result }
{
    let rho = shape.rho as usize;
    let mut a = Met { once: 0, twice: 0 };
    let mut b = Met { once: 0, twice: 0 };
    let mut c = Met { once: 0, twice: 0 };
    let mut d = Met { once: 0, twice: 0 };
    for k in 0..rho {
        let at = column(shape, list, i, k) * 4;
        a = meet(a, seen, at);
        b = meet(b, seen, at + 1);
        c = meet(c, seen, at + 2);
        d = meet(d, seen, at + 3);
    }
    (a.twice | b.twice | c.twice | d.twice) != 0
}

// Notes that row i has column c.
fn note(seen: &mut [u64], c: usize, i: usize)
    requires { c * 4 + 3 < length seen.old }
    ensures { seen.new ≡ marked (bit_for c i) seen.old }
{
    let at = c * 4 + i / 64 % 4;
    seen[at] = seen[at] | (1 << (i % 64));
}

// Notes the columns of row i, where it is one of the part's 256 rows.
fn note_row(shape: Shape, list: &[u16], part: usize, i: usize, seen: &mut [u64])
    requires { Ordered (matrix_of shape list.now) × (i < shape.m) × (shape.n * 4 ≤ length seen.old) }
    ensures { seen.new ≡ noted (matrix_of shape list.now) part i seen.old }
{
    let rho = shape.rho as usize;
    if i / 256 != part {
        return;
    }
    for k in 0..rho {
        note(seen, column(shape, list, i, k), i);
    }
}

// Whether a row of the part is met twice by a later row, in words that are lent cleared.
fn rows_twice(shape: Shape, list: &[u16], part: usize, seen: &mut [u64]) -> bool
    requires { Ordered (matrix_of shape list.now) × (part * 256 < shape.m) × (shape.n * 4 ≤ length seen.old) × Unmarked seen.old }
    ensures { RowsSeen (matrix_of shape list.now) part seen.old seen.new result }
{
    let m = shape.m as usize;
    for i in part * 256..m {
        if met_twice(shape, list, i, seen) {
            return true;
        }
        note_row(shape, list, part, i, seen);
    }
    false
}

// The same in memory of its own.
fn part_twice_in<const SIZE: usize>(shape: Shape, list: &[u16], part: usize) -> bool
    requires { Ordered (matrix_of shape list.now) × (part * 256 < shape.m) × (shape.n * 4 ≤ SIZE) × (SIZE ≤ 4096) }
    ensures { result ≡ part_overlaps (matrix_of shape list.now) part }
{
    let mut seen = [0u64; SIZE];
    rows_twice(shape, list, part, &mut seen)
}

// Few columns get less memory, since clearing it takes longer than their search.
fn part_twice(shape: Shape, list: &[u16], part: usize) -> bool
    requires { Ordered (matrix_of shape list.now) × (part * 256 < shape.m) }
    ensures { result ≡ part_overlaps (matrix_of shape list.now) part }
{
    if shape.n <= 256 {
        part_twice_in::<1024>(shape, list, part)
    } else {
        part_twice_in::<4096>(shape, list, part)
    }
}

// Whether a pair of columns is met twice, so whether two rows share two columns.
// The rows are taken in parts of 256: what is seen of one part stays in the nearest cache, of all rows it does not.
// Only this repository's crates call it, after asking refusals 1 to 3.
pub fn pair_twice(shape: Shape, list: &[u16]) -> bool
    requires { Ordered (matrix_of shape list.now) }
    ensures { result ≡ has_overlap (matrix_of shape list.now) }
{
    let m = shape.m as usize;
    for part in 0..(m + 255) / 256 {
        if part_twice(shape, list, part) {
            return true;
        }
    }
    false
}
