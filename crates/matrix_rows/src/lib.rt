// The rows of a matrix as sets of columns, sixteen words a row.
// Rests on `matrix_check`. Document 01: "Iterative voting", step 4.
// `matrix_columns` walks the entries in the same way: a trait over both would need a size, a step and four laws for two loops of three lines.
#![tactic(auto)]

ghost use Rattle.std.specs.Prelude.{◌≡◌, ◌+◌, ◌*◌, ◌^◌, ◌≤◌, ◌<◌, length};
ghost use Rattle.counting.specs.Paper.Lists.{over};
ghost use Rattle.counting.specs.Places.{at};
ghost use Rattle.matrix.specs.Paper.PlainCheck.{Accepted};
ghost use Rattle.matrix.specs.Paper.Shapes.{matrix_of};
ghost use Rattle.matrix_rows.specs.Rows.{word_of, place_of, rows_size, rows_of};
ghost use Rattle.matrix_rows.specs.Filling.{entry_put, row_put, RowFits};

use matrix_check::Shape;

// Adds column j to the set of row i.
fn place_entry(i: usize, j: usize, rows: &mut [u64])
    requires { (i < 1023) × (j < 1023) × (16 * i + 16 ≤ length rows.old) × (at rows.old (16 * i + word_of j) + 2 ^ (place_of j) < 18446744073709551616) }
    ensures { rows.new ≡ entry_put i j rows.old }
{
    let w = j / 8 % 16;
    let one = 1u64 << (8 * (j % 8) + j / 128);
    rows[16 * i + w] += one;
}

// Adds each of its columns to the set of row i.
fn place_row(shape: Shape, list: &[u16], i: usize, rows: &mut [u64])
    requires { Accepted (matrix_of shape list.now) × (i < shape.m) × (rows_size (matrix_of shape list.now) ≤ length rows.old) × RowFits (matrix_of shape list.now) i rows.old }
    ensures { rows.new ≡ row_put (matrix_of shape list.now) i shape.rho rows.old }
{
    let rho = shape.rho as usize;
    for j in &list[i * rho..i * rho + rho] {
        place_entry(i, *j as usize, rows);
    }
}

// Writes the rows' sets at the front of `rows`; the cells past them stay.
// Only this repository's crates call it, with an accepted matrix and room for them.
pub fn build(shape: Shape, list: &[u16], rows: &mut [u64])
    requires { Accepted (matrix_of shape list.now) × (rows_size (matrix_of shape list.now) ≤ length rows.old) }
    ensures { rows.new ≡ over (rows_of (matrix_of shape list.now)) rows.old }
{
    let m = shape.m as usize;
    rows[..16 * m].fill(0);
    for i in 0..m {
        place_row(shape, list, i, rows);
    }
}
