// The index of a matrix: the rows of each column, beside the list, from which a bit's checks are read off.
// Rests on `matrix_degrees` and `matrix_check`. Document 02: cards 1 and 2.
#![tactic(auto)]

ghost use Rattle.std.specs.Prelude.{◌+◌, ◌≤◌, ◌<◌, ◌≡◌, length};
ghost use Rattle.counting.specs.Paper.Lists.{listed, over};
ghost use Rattle.counting.specs.Places.{at};
ghost use Rattle.matrix.specs.Paper.PlainCheck.{Accepted};
ghost use Rattle.matrix.specs.Paper.Shapes.{matrix_of};
ghost use Rattle.matrix_index.specs.Paper.Index.{column_start, index_of, index_size};
ghost use Rattle.matrix_index.specs.Filling.{start_sum, Cursors, Passed, row_put};

use matrix_check::Shape;

// The starting places of n columns by their weights, and where the last column ends: n + 1 running sums. The cells past them stay.
fn put_starts(n: usize, weights: &[u16; 1023], cells: &mut [u16])
    requires { (n ≤ 1023) × (n < length cells.old) × (start_sum weights.now n ≤ 65535) }
    ensures { cells.new ≡ over (listed (n + 1) (start_sum weights.now)) cells.old }
{
    let mut sum: u16 = 0;
    for (j, weight) in weights[..n].iter().enumerate() {
        cells[j] = sum;
        sum += *weight;
    }
    cells[n] = sum;
}

// Copies the first `count` numbers of a list. The cells past them stay.
// Only this repository's crates call it, with a list and cells that are as long.
#[tactic(auto, using(crate::proofs::Starts::front_copied))]
pub fn copy_front(count: usize, list: &[u16], cells: &mut [u16])
    requires { (count ≤ length list.now) × (count ≤ length cells.old) }
    ensures { cells.new ≡ over (listed count (at list.now)) cells.old }
{
    cells[..count].copy_from_slice(&list[..count]);
}

// Writes row i behind the rows that stand at each of its columns, whose cursors move on.
fn place_row(shape: Shape, list: &[u16], i: usize, cursors: &mut [u16], index: &mut [u16])
    requires { Accepted (matrix_of shape list.now) × (i < shape.m) × Cursors (matrix_of shape list.now) (column_start (matrix_of shape list.now)) i 0 cursors.old × (index_size (matrix_of shape list.now) ≤ length index.old) }
    ensures { Passed (matrix_of shape list.now) (column_start (matrix_of shape list.now)) (i + 1) 0 cursors.old cursors.new × (index.new ≡ row_put (matrix_of shape list.now) i shape.rho index.old) }
{
    let rho = shape.rho as usize;
    let base = (shape.n as usize) + 1;
    // By index: each number leads to its cursor and from there into the index, and the loop is laid out for that. `matrix_index_replay::row_stands` is not the same: it only reads the index, and ends early.
    for k in 0..rho {
        let j = list[i * rho + k] as usize;
        let c = cursors[j] as usize;
        index[base + c] = i as u16;
        cursors[j] = (c + 1) as u16;
    }
}

// Writes the starting places by the columns' weights: n of them as cursors, n + 1 at the front of the index. The rest of both stays.
fn set_out(shape: Shape, list: &[u16], cursors: &mut [u16; 1023], index: &mut [u16])
    requires { Accepted (matrix_of shape list.now) × (shape.n < length index.old) }
    ensures { (cursors.new ≡ over (listed shape.n (column_start (matrix_of shape list.now))) cursors.old) × (index.new ≡ over (listed (shape.n + 1) (column_start (matrix_of shape list.now))) index.old) }
{
    let n = shape.n as usize;
    matrix_degrees::weigh(shape, list, cursors);
    put_starts(n, cursors, index);
    copy_front(n, index, cursors);
}

// Writes the index of an accepted matrix at the front of the memory. The rest stays.
// Only this repository's crates call it, after the check.
pub fn build(shape: Shape, list: &[u16], index: &mut [u16])
    requires { Accepted (matrix_of shape list.now) × (index_size (matrix_of shape list.now) ≤ length index.old) }
    ensures { index.new ≡ over (index_of (matrix_of shape list.now)) index.old }
{
    let m = shape.m as usize;
    let mut cursors = [0u16; 1023];
    set_out(shape, list, &mut cursors, index);
    for i in 0..m {
        place_row(shape, list, i, &mut cursors, index);
    }
}
