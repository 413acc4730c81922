// The columns' weights: of an accepted matrix from its list, or from the starting places of its index.
// Rests on `matrix`. Document 02: card 2.
#![tactic(auto)]

ghost use Rattle.std.specs.Prelude.{◌≡◌, ℕ, ◌+◌, ◌≤◌, ◌<◌, length};
ghost use Rattle.counting.specs.Paper.Lists.{listed, over};
ghost use Rattle.counting.specs.Places.{at};
ghost use Rattle.matrix.specs.Paper.Code.{weight};
ghost use Rattle.matrix.specs.Paper.PlainCheck.{Accepted};
ghost use Rattle.matrix.specs.Paper.Shapes.{matrix_of};
ghost use Rattle.matrix_degrees.specs.Degrees.{gap, Counted};

use matrix::Shape;

// Counts each column that the list names as often as it stands there. A column's count begins at 0.
#[tactic(auto, using(crate::proofs::Degrees::counted_none, crate::proofs::Degrees::counted_room))]
fn count_all(list: &[u16], cells: &mut [u16])
    requires { (length list.now ≤ 32736) × (length cells.old ≡ 1023) × ((p : ℕ) → p < length list.now → (at list.now p < 1023) × (at cells.old (at list.now p) ≡ 0)) }
    ensures { Counted list.now (length list.now) cells.old cells.new }
{
    for column in list {
        cells[*column as usize] += 1;
    }
}

// The weight of each column, in the first n cells. The cells past them stay. Where the sizes leave no room for unlike columns all weigh
// gamma, and nothing is counted. Only this repository's crates call it, after the check.
pub fn weigh(shape: Shape, list: &[u16], weights: &mut [u16; 1023])
    requires { Accepted (matrix_of shape list.now) }
    ensures { weights.new ≡ over (listed shape.n (weight (matrix_of shape list.now))) weights.old }
{
    let n = shape.n as usize;
    let gamma = shape.gamma as usize;
    if list.len() == n * gamma {
        weights[..n].fill(shape.gamma);
        return;
    }
    weights[..n].fill(0);
    count_all(list, weights);
}

// The weight of each column, read off the starting places of an index. The cells past the columns stay.
// Only this repository's crates call it, with starting places that do not fall.
#[tactic(auto, using(counting::proofs::Loops::over_start, counting::proofs::Loops::over_step, counting::proofs::Loops::over_length), unfolding(crate::specs::Degrees::gap))]
pub fn weigh_starts(index: &[u16], n: usize, weights: &mut [u16; 1023])
    requires { (n ≤ 1023) × (n < length index.now) × ((j : ℕ) → j < n → at index.now j ≤ at index.now (j + 1)) }
    ensures { weights.new ≡ over (listed n (gap index.now)) weights.old }
{
    // by index: of cells that a `zip` lends nothing is known after the loop
    for j in 0..n {
        weights[j] = index[j + 1] - index[j];
    }
}
