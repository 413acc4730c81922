// The parity-check matrix: its sizes, the definitions over it, and what the matrix check is to say (specs/), with their laws (proofs/).
// Rests on `counting` and `answers`; its one function reads an entry. Document 01: "The code and the block", "Refused for the input" 1 to 5. Document 02: card 2.
#![tactic(auto)]

ghost use Rattle.std.specs.Prelude.{◌<◌};
ghost use Rattle.matrix.specs.Ordered.{Ordered, Column};
ghost use Rattle.matrix.specs.Paper.Shapes.{matrix_of};

// The sizes of a matrix: columns, rows, ones in each row, fewest ones in a column.
#[derive(Clone, Copy, Debug, PartialEq, Eq)]
pub struct Shape {
    pub n: u16,
    pub m: u16,
    pub rho: u16,
    pub gamma: u16,
}

// The k-th column number of row i. Only this repository's crates call it, after asking refusals 1 to 3.
#[tactic(auto, using(crate::proofs::Ordered::in_list, crate::proofs::Ordered::few), unfolding(crate::specs::Paper::Code::entry))]
pub fn column(shape: Shape, list: &[u16], i: usize, k: usize) -> usize
    requires { Ordered (matrix_of shape list.now) × (i < shape.m) × (k < shape.rho) }
    ensures { Column (matrix_of shape list.now) i k result }
{
    let rho = shape.rho as usize;
    list[i * rho + k] as usize
}
