// A matrix as sets, both ways: its columns as sets of rows, with their weights, and behind them its rows as sets of columns.
// Rests on `matrix_columns` and `matrix_rows`. Document 01: "Iterative voting", step 4.
#![tactic(auto)]

ghost use Rattle.std.specs.Prelude.{◌≡◌, ◌≤◌, length};
ghost use Rattle.counting.specs.Paper.Lists.{over};
ghost use Rattle.matrix.specs.Paper.PlainCheck.{Accepted};
ghost use Rattle.matrix.specs.Paper.Shapes.{matrix_of};
ghost use Rattle.matrix_sets.specs.Sets.{sets_size, sets_of};

use matrix_check::Shape;

// Writes the sets at the front of `sets`; the cells past them stay. Only this repository's crates call it, with an accepted matrix and room for them.
pub fn build(shape: Shape, list: &[u16], sets: &mut [u64])
    requires { Accepted (matrix_of shape list.now) × (sets_size (matrix_of shape list.now) ≤ length sets.old) }
    ensures { sets.new ≡ over (sets_of (matrix_of shape list.now)) sets.old }
{
    let n = shape.n as usize;
    let from = 17 * n;
    matrix_columns::build(shape, list, &mut sets[..from]);
    matrix_rows::build(shape, list, &mut sets[from..]);
}
