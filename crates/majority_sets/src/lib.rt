// Votes of listed checks: where they are many and long, eight at a time by their rows as sets of columns; else one by one.
// Rests on `majority_planes`, `majority_bytes`, `majority_votes` and on the definitions of `matrix_rows`. Document 01: "Iterative voting", step 4.
#![tactic(auto)]

ghost use Rattle.std.specs.Prelude.{◌≡◌, ◌+◌, ◌*◌, ◌≤◌, ◌||◌, ltb, length};
ghost use Rattle.matrix.specs.Paper.PlainCheck.{Accepted};
ghost use Rattle.matrix.specs.Paper.Shapes.{matrix_of};
ghost use Rattle.matrix_rows.specs.Rows.{RowSets};
ghost use Rattle.majority_votes.specs.Tallies.{of_rows, Addable, More, Takeable, Fewer};
ghost use Rattle.majority_planes.specs.Planes.{SetsAt, SixDigits};
ghost use Rattle.majority_sets.specs.Sets.{listed_votes, first_bytes, BytesCount, VotesFew};

use majority_votes::{Add, Take, Turn};
use matrix_check::Shape;

// In how many of the listed supports, eight times `eights` of them from a place on, each column stands.
fn count_eights(
    supports: &[u64],
    rows: &[u16; 1023],
    from: usize,
    eights: usize,
    bytes: &mut [u8; 1024],
)
    requires { (from + 8 * eights ≤ 1023) × SetsAt supports.now rows.now (from + 8 * eights) × SixDigits supports.now rows.now from (8 * eights) × (length bytes.old ≡ 1024) }
    ensures { BytesCount supports.now rows.now from (8 * eights) bytes.new }
{
    let mut planes = [0u64; 96];
    majority_planes::count(supports, rows, from, eights, &mut planes);
    majority_bytes::lay(&planes, bytes);
}

// Turns the votes by the first n bytes; those past them stay.
fn turn_bytes<T: Turn>(n: usize, bytes: &[u8; 1024], votes: &mut [u8; 1023])
    requires { (n ≤ 1023) × T.room (first_bytes n bytes.now) votes.old }
    ensures { T.turned (first_bytes n bytes.now) votes.old votes.new }
{
    for j in 0..n {
        votes[j] = T::turn(votes[j], bytes[j]);
    }
}

// Turns the votes of eight times `eights` listed supports, from a place on.
fn turn_eights<T: Turn>(
    n: usize,
    supports: &[u64],
    rows: &[u16; 1023],
    from: usize,
    eights: usize,
    votes: &mut [u8; 1023],
)
    requires { (n ≤ 1023) × (from + 8 * eights ≤ 1023) × SetsAt supports.now rows.now (from + 8 * eights) × SixDigits supports.now rows.now from (8 * eights) × T.room (listed_votes n supports.now rows.now from (8 * eights)) votes.old }
    ensures { T.turned (listed_votes n supports.now rows.now from (8 * eights)) votes.old votes.new }
{
    let mut bytes = [0u8; 1024];
    count_eights(supports, rows, from, eights, &mut bytes);
    turn_bytes::<T>(n, &bytes, votes);
}

// Whether so many rows of so many columns go one by one: few of them, or short ones. It is a matter of speed alone.
fn one_by_one(rho: usize, count: usize) -> bool
    ensures { result ≡ (ltb rho 24 || ltb count 32) }
{
    (rho < 24) | (count < 32)
}

// One turn at each column of each listed row. Which way is taken is a matter of speed alone.
// Only this repository's crates call it, with the sets of an accepted matrix and rows of it.
pub fn turn<T: Turn>(
    shape: Shape,
    list: &[u16],
    supports: &[u64],
    rows: &[u16; 1023],
    count: usize,
    votes: &mut [u8; 1023],
)
    requires { Accepted (matrix_of shape list.now) × RowSets (matrix_of shape list.now) supports.now × VotesFew (matrix_of shape list.now) rows.now count × T.room (of_rows list.now shape.rho rows.now count) votes.old }
    ensures { T.turned (of_rows list.now shape.rho rows.now count) votes.old votes.new }
{
    let n = shape.n as usize;
    let rho = shape.rho as usize;
    if one_by_one(rho, count) {
        majority_votes::turn_rows::<T>(list, rho, rows, count, votes);
        return;
    }
    let rest = count % 8;
    majority_votes::turn_rows::<T>(list, rho, rows, rest, votes);
    turn_eights::<T>(n, supports, rows, rest, count / 8, votes);
}

// A vote more at each column of each listed row.
// Only this repository's crates call it, with the sets of an accepted matrix and rows of it.
pub fn add(
    shape: Shape,
    list: &[u16],
    supports: &[u64],
    rows: &[u16; 1023],
    count: usize,
    votes: &mut [u8; 1023],
)
    requires { Accepted (matrix_of shape list.now) × RowSets (matrix_of shape list.now) supports.now × VotesFew (matrix_of shape list.now) rows.now count × Addable (of_rows list.now shape.rho rows.now count) votes.old }
    ensures { More (of_rows list.now shape.rho rows.now count) votes.old votes.new }
{
    let rho = shape.rho as usize;
    if one_by_one(rho, count) {
        majority_votes::add_rows(list, rho, rows, count, votes);
        return;
    }
    turn::<Add>(shape, list, supports, rows, count, votes);
}

// A vote less at each column of each listed row.
// Only this repository's crates call it, with the sets of an accepted matrix and rows of it.
pub fn take(
    shape: Shape,
    list: &[u16],
    supports: &[u64],
    rows: &[u16; 1023],
    count: usize,
    votes: &mut [u8; 1023],
)
    requires { Accepted (matrix_of shape list.now) × RowSets (matrix_of shape list.now) supports.now × VotesFew (matrix_of shape list.now) rows.now count × Takeable (of_rows list.now shape.rho rows.now count) votes.old }
    ensures { Fewer (of_rows list.now shape.rho rows.now count) votes.old votes.new }
{
    let rho = shape.rho as usize;
    if one_by_one(rho, count) {
        majority_votes::take_rows(list, rho, rows, count, votes);
        return;
    }
    turn::<Take>(shape, list, supports, rows, count, votes);
}
