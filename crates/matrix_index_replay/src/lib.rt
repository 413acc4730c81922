// A lent index compared with the matrix by replay: the rows are placed again from the index's own starting places, and each number is
// looked at where it would be written. No number of it is used as a place before it is compared with the length.
// Of the matrix only the order of its rows is asked: at the end each column's rows must reach just to where the next column starts.
// Rests on `matrix_index`. Document 02: card 1, refusal 10; card 2.
#![tactic(auto)]

ghost use Rattle.std.specs.Prelude.{◌≤◌, ◌<◌, ◌&&◌, ◌≡◌, ltb, eqb, length};
ghost use Rattle.counting.specs.Places.{at};
ghost use Rattle.matrix.specs.Paper.Code.{matrix};
ghost use Rattle.matrix.specs.Ordered.{Ordered};
ghost use Rattle.matrix.specs.Paper.Shapes.{matrix_of};
ghost use Rattle.matrix_index.specs.Paper.Index.{index_size};
ghost use Rattle.matrix_index.specs.Filling.{Cursors};
ghost use Rattle.matrix_index_replay.specs.Replay.{RowReplayed, RowsReplayed, Replayed};

use matrix_check::Shape;

// Whether number p of the index is there and is i.
fn number_is(index: &[u16], p: usize, i: u16) -> bool
    ensures { result ≡ ltb p (length index.now) && eqb (at index.now p) i }
{
    index.get(p).is_some_and(|x| *x == i)
}

// Whether row i of rho entries stands at all of its places. The cursors move on as if it were placed, up to where it does not stand.
fn row_stands(
    shape: Shape,
    rho: usize,
    list: &[u16],
    i: usize,
    cursors: &mut [u16],
    index: &[u16],
) -> bool
    requires { Ordered (matrix shape.n shape.m rho shape.gamma list.now) × (i < shape.m) × (length index.now ≤ 33760) × Cursors (matrix shape.n shape.m rho shape.gamma list.now) (at index.now) i 0 cursors.old }
    ensures { RowReplayed (matrix shape.n shape.m rho shape.gamma list.now) i index.now cursors.old cursors.new result }
{
    let base = (shape.n as usize) + 1;
    // By index, laid out as `matrix_index::place_row` is.
    for k in 0..rho {
        let j = list[i * rho + k] as usize;
        let c = cursors[j] as usize;
        if !number_is(index, base + c, i as u16) {
            return false;
        }
        cursors[j] = (c + 1) as u16;
    }
    true
}

// The same, with the loop laid out for rows of five.
fn row_laid_out(shape: Shape, list: &[u16], i: usize, cursors: &mut [u16], index: &[u16]) -> bool
    requires { Ordered (matrix_of shape list.now) × (i < shape.m) × (length index.now ≤ 33760) × Cursors (matrix_of shape list.now) (at index.now) i 0 cursors.old }
    ensures { RowReplayed (matrix_of shape list.now) i index.now cursors.old cursors.new result }
{
    let rho = shape.rho as usize;
    if rho == 5 {
        return row_stands(shape, 5, list, i, cursors, index);
    }
    row_stands(shape, rho, list, i, cursors, index)
}

// Whether all rows do, and each column's rows reach to where the next column starts.
fn rows_stand(shape: Shape, list: &[u16], index: &[u16]) -> bool
    requires { Ordered (matrix_of shape list.now) × (length index.now ≡ index_size (matrix_of shape list.now)) }
    ensures { RowsReplayed (matrix_of shape list.now) index.now result }
{
    let n = shape.n as usize;
    let m = shape.m as usize;
    let mut cursors = [0u16; 1023];
    matrix_index::copy_front(n, index, &mut cursors);
    for i in 0..m {
        if !row_laid_out(shape, list, i, &mut cursors, index) {
            return false;
        }
    }
    cursors[..n] == index[1..n + 1]
}

// Whether a list has the starting places and the rows of an ordered matrix: of an accepted one, whether it is its index.
// Only this repository's crates call it, after asking refusals 1 to 3.
pub fn replay(shape: Shape, list: &[u16], index: &[u16]) -> bool
    requires { Ordered (matrix_of shape list.now) }
    ensures { Replayed (matrix_of shape list.now) index.now result }
{
    let n = shape.n as usize;
    let size = n + 1 + (shape.m as usize) * (shape.rho as usize);
    if index.len() != size {
        return false;
    }
    if index[0] != 0 {
        return false;
    }
    rows_stand(shape, list, index)
}
