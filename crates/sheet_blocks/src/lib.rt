// Refusal 12 as one question: whether an accepted matrix is a grid of blocks of size z, each zero or a shifted identity.
// Rests on `sheet` and `matrix_check`. Document 02: card 5.
#![tactic(auto)]

ghost use Rattle.std.specs.Prelude.{◌+◌, ◌/◌, ◌%◌, ◌<◌, ◌≡◌, length};
ghost use Rattle.counting.specs.Paper.Sum.{sum_below};
ghost use Rattle.matrix.specs.Paper.PlainCheck.{Accepted};
ghost use Rattle.matrix.specs.Paper.Shapes.{matrix_of};
ghost use Rattle.sheet.specs.Paper.MatrixSheet.{describes};
ghost use Rattle.sheet_blocks.specs.Parts.{Says, Filled, Ready, Split, Follows, Stands, Turning, strays};

use matrix_check::Shape;
use sheet::turn;

// Whether z is not 0 and blocks of that size fill the columns and the rows.
fn whole_blocks(n: u16, m: u16, z: u16) -> bool
    ensures { Says (Filled n m z) result }
{
    if z == 0 {
        return false;
    }
    (n % z == 0) & (m % z == 0)
}

// Where the blocks of block row r start that have an entry of its first row, and how far behind the entry stands. One division for each.
fn split_row(
    shape: Shape,
    list: &[u16],
    z: u16,
    r: usize,
    starts: &mut [u16; 32],
    shifts: &mut [u16; 32],
)
    requires { Ready (matrix_of shape list.now) z × (r < shape.m / z) × (length starts.old ≡ 32) × (length shifts.old ≡ 32) }
    ensures { Split (matrix_of shape list.now) z r starts.new shifts.new }
{
    let rho = shape.rho as usize;
    let from = r * (z as usize) * rho;
    for k in 0..rho {
        let e = list[from + k];
        let shift = e % z;
        starts[k] = e - shift;
        shifts[k] = shift;
    }
}

// How many entries of row i of block row r are not those of its first row, turned by i. Counted without a division.
fn row_strays(
    shape: Shape,
    list: &[u16],
    z: u16,
    r: usize,
    i: u16,
    starts: &[u16; 32],
    shifts: &[u16; 32],
) -> u16
    requires { Turning (matrix_of shape list.now) z r starts.now shifts.now × (i < z) }
    ensures { result ≡ sum_below shape.rho (strays list.now shape.rho z r i) }
{
    let rho = shape.rho as usize;
    let from = (r * (z as usize) + (i as usize)) * rho;
    let mut count: u16 = 0;
    for k in 0..rho {
        count += (list[from + k] != starts[k] + turn(shifts[k], i, z)) as u16;
    }
    count
}

// Whether every row of block row r is its first row, turned.
fn rows_follow(
    shape: Shape,
    list: &[u16],
    z: u16,
    r: usize,
    starts: &[u16; 32],
    shifts: &[u16; 32],
) -> bool
    requires { Turning (matrix_of shape list.now) z r starts.now shifts.now }
    ensures { Says (Follows (matrix_of shape list.now) z r z) result }
{
    (0..z).all(|i| row_strays(shape, list, z, r, i, starts, shifts) == 0)
}

// Whether block row r is a row of zero and shifted identity blocks. Where its rows follow, no block has two entries of a row: the rows ascend.
fn block_row(shape: Shape, list: &[u16], z: u16, r: usize) -> bool
    requires { Ready (matrix_of shape list.now) z × (r < shape.m / z) }
    ensures { Says (Stands (matrix_of shape list.now) z r) result }
{
    let mut starts = [0u16; 32];
    let mut shifts = [0u16; 32];
    split_row(shape, list, z, r, &mut starts, &mut shifts);
    rows_follow(shape, list, z, r, &starts, &shifts)
}

// Whether a sheet with that z describes an accepted matrix. Only this repository's crates call it, after the check.
pub fn described(shape: Shape, list: &[u16], z: u16) -> bool
    requires { Accepted (matrix_of shape list.now) }
    ensures { result ≡ describes (matrix_of shape list.now) z }
{
    if !whole_blocks(shape.n, shape.m, z) {
        return false;
    }
    let rows = (shape.m / z) as usize;
    (0..rows).all(|r| block_row(shape, list, z, r))
}
