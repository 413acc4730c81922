// The columns of a matrix as sets of rows, sixty-four rows to a word, with the columns' weights behind them.
// Rests on `matrix_check` and on the definitions of `syndrome_words`. Document 01: "Iterative voting", step 4.
#![tactic(auto)]

ghost use Rattle.std.specs.Prelude.{◌≡◌, ℕ, ◌+◌, ◌*◌, ◌/◌, ◌%◌, ◌^◌, ◌≤◌, ◌<◌, length};
ghost use Rattle.counting.specs.Paper.Lists.{listed, over};
ghost use Rattle.counting.specs.Places.{at};
ghost use Rattle.matrix.specs.Paper.PlainCheck.{Accepted};
ghost use Rattle.matrix.specs.Paper.Shapes.{matrix_of};
ghost use Rattle.matrix_columns.specs.Columns.{columns_size, columns_of};
ghost use Rattle.matrix_columns.specs.Filling.{entry_put, row_put, RowFits};

use matrix_check::Shape;

// Adds row i to the set of column j of n, and counts it in the column's weight.
fn place_entry(n: usize, i: usize, j: usize, columns: &mut [u64])
    requires { (n ≤ 1023) × (i < 1023) × (j < n) × (17 * n ≤ length columns.old) × (at columns.old (16 * j + i / 64) + 2 ^ (i % 64) < 18446744073709551616) × (at columns.old (16 * n + j) + 1 < 18446744073709551616) }
    ensures { columns.new ≡ entry_put n i j columns.old }
{
    let w = i / 64;
    let one = 1u64 << (i % 64);
    columns[16 * j + w] += one;
    columns[16 * n + j] += 1;
}

// Adds row i to the set of each of its columns, and to their weights.
fn place_row(shape: Shape, list: &[u16], i: usize, columns: &mut [u64])
    requires { Accepted (matrix_of shape list.now) × (i < shape.m) × (columns_size (matrix_of shape list.now) ≤ length columns.old) × RowFits (matrix_of shape list.now) i columns.old }
    ensures { columns.new ≡ row_put (matrix_of shape list.now) i shape.rho columns.old }
{
    let n = shape.n as usize;
    let rho = shape.rho as usize;
    for j in &list[i * rho..i * rho + rho] {
        place_entry(n, i, *j as usize, columns);
    }
}

// Writes the columns' sets and weights at the front of `columns`; the cells past them stay.
// Only this repository's crates call it, with an accepted matrix and room for them.
pub fn build(shape: Shape, list: &[u16], columns: &mut [u64])
    requires { Accepted (matrix_of shape list.now) × (columns_size (matrix_of shape list.now) ≤ length columns.old) }
    ensures { columns.new ≡ over (columns_of (matrix_of shape list.now)) columns.old }
{
    let n = shape.n as usize;
    let m = shape.m as usize;
    columns[..17 * n].fill(0);
    for i in 0..m {
        place_row(shape, list, i, columns);
    }
}

// Keeps the weights as numbers of eight bits; the cells past the first n stay.
// Only this repository's crates call it, with the columns of an accepted matrix.
pub fn weigh(columns: &[u64], n: usize, weights: &mut [u8; 1023])
    requires { (n ≤ 1023) × (17 * n ≤ length columns.now) × ((j : ℕ) → j < n → at columns.now (16 * n + j) ≤ 255) × (length weights.old ≡ 1023) }
    ensures { weights.new ≡ over (listed n (λ j. at columns.now (16 * n + j))) weights.old }
{
    for j in 0..n {
        weights[j] = columns[16 * n + j] as u8;
    }
}
