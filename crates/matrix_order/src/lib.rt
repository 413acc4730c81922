// Refusal 3 as one question: whether every row ascends below n, asked without a branch at any entry. Which entry is bad, `matrix_weights` finds.
// Rests on `matrix`. Document 01: "Refused for the input" 3.
#![tactic(auto)]

ghost use Rattle.std.specs.Prelude.{◌≡◌, not, ◌≤◌, length};
ghost use Rattle.counting.specs.Paper.Search.{any_below};
ghost use Rattle.counting.specs.Paper.Sum.{sum_below};
ghost use Rattle.matrix.specs.Paper.Check.{bad_entry};
ghost use Rattle.matrix.specs.Ordered.{Sized};
ghost use Rattle.matrix.specs.Paper.Shapes.{matrix_of};
ghost use Rattle.matrix_order.specs.Order.{Laid, descent, row_descent, not_below};

use matrix::Shape;

// How many entries are not above the one before them. The first has none before it and counts.
fn descents(list: &[u16]) -> u16
    requires { (1 ≤ length list.now) × (length list.now ≤ 32736) }
    ensures { result ≡ sum_below (length list.now) (descent list.now) }
{
    let mut count: u16 = 1;
    for p in 1..list.len() {
        count += (list[p] <= list[p - 1]) as u16;
    }
    count
}

// The same among the entries that begin a row.
fn row_descents(list: &[u16], m: usize, rho: usize) -> u16
    requires { Laid list.now m rho }
    ensures { result ≡ sum_below m (row_descent list.now rho) }
{
    let mut count: u16 = 1;
    for i in 1..m {
        count += (list[i * rho] <= list[i * rho - 1]) as u16;
    }
    count
}

// How many entries are not below n.
fn too_large(list: &[u16], n: u16) -> u16
    requires { length list.now ≤ 32736 }
    ensures { result ≡ sum_below (length list.now) (not_below list.now n) }
{
    let mut count: u16 = 0;
    for column in list {
        count += (n <= *column) as u16;
    }
    count
}

// Whether no entry is bad. It says no place: only a refused matrix pays for the search. Only this repository's crates call it, after asking refusals 1 and 2.
pub fn in_order(shape: Shape, list: &[u16]) -> bool
    requires { Sized (matrix_of shape list.now) }
    ensures { result ≡ not (any_below (bad_entry (matrix_of shape list.now)) (length list.now)) }
{
    let m = shape.m as usize;
    let rho = shape.rho as usize;
    (descents(list) == row_descents(list, m, rho)) & (too_large(list, shape.n) == 0)
}
