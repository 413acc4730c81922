// Refusal 5: the search over all pairs of rows for the first that shares two columns with a later one, in a matrix that has one.
// Rests on `matrix`. Document 01: "Refused for the input" 5.
#![tactic(auto)]

ghost use Rattle.std.specs.Prelude.{◌≡◌, ◌<◌, MatchOption};
ghost use Rattle.counting.specs.Paper.Search.{first};
ghost use Rattle.matrix.specs.Paper.Code.{entry, common};
ghost use Rattle.matrix.specs.Paper.Check.{overlapping};
ghost use Rattle.matrix.specs.Ordered.{Ordered};
ghost use Rattle.matrix.specs.Paper.Shapes.{matrix_of};
ghost use Rattle.matrix.specs.Tallies.{Tally};

use matrix::{Shape, column};

// The marks of row i: how often it has each column.
fn marks_of(shape: Shape, list: &[u16], i: usize) -> [u16; 1023]
    requires { Ordered (matrix_of shape list.now) × (i < shape.m) }
    ensures { Tally (entry (matrix_of shape list.now) i) shape.rho result }
{
    let rho = shape.rho as usize;
    let mut marks = [0u16; 1023];
    for k in 0..rho {
        let c = column(shape, list, i, k);
        marks[c] += 1;
    }
    marks
}

// How many columns row i, whose marks are given, shares with a later row.
fn common_with(shape: Shape, list: &[u16], i: usize, later: usize, marks: &[u16; 1023]) -> usize
    requires { Ordered (matrix_of shape list.now) × (later < shape.m) × Tally (entry (matrix_of shape list.now) i) shape.rho marks.now }
    ensures { result ≡ common (matrix_of shape list.now) i later }
{
    let rho = shape.rho as usize;
    let mut shared: usize = 0;
    for k in 0..rho {
        let c = column(shape, list, later, k);
        shared += marks[c] as usize;
    }
    shared
}

// Whether row i shares two columns or more with a later row.
fn row_overlaps(shape: Shape, list: &[u16], i: usize) -> bool
    requires { Ordered (matrix_of shape list.now) × (i < shape.m) }
    ensures { result ≡ overlapping (matrix_of shape list.now) i }
{
    let m = shape.m as usize;
    let marks = marks_of(shape, list, i);
    for later in i + 1..m {
        if common_with(shape, list, i, later, &marks) >= 2 {
            return true;
        }
    }
    false
}

// The first row that shares two columns or more with a later row: all pairs of rows are compared. Only a matrix that has
// such rows is searched. Only this repository's crates call it, after asking refusals 1 to 3.
#[tactic(auto, using(counting::proofs::Loops::first_passed))]
pub fn exact_overlap(shape: Shape, list: &[u16]) -> Option<usize>
    requires { Ordered (matrix_of shape list.now) × (first (overlapping (matrix_of shape list.now)) shape.m < shape.m) }
    ensures { MatchOption result (first (overlapping (matrix_of shape list.now)) shape.m ≡ shape.m) (λ i. (i ≡ first (overlapping (matrix_of shape list.now)) shape.m) × (i < shape.m)) }
{
    let m = shape.m as usize;
    for i in 0..m {
        if row_overlaps(shape, list, i) {
            return Some(i);
        }
    }
    None
}
