// The matrix check: accepts the parity-check matrix or refuses it, and passes on its sizes.
// Rests on `matrix`, `matrix_weights`, `matrix_meeting`, `matrix_overlap` and `answers`. Document 01: "The code and the block", "Refused for the input" 1 to 5. Document 02: card 2.
#![tactic(auto)]

ghost use Rattle.std.specs.Prelude.{◌≡◌, ◌<◌, [], MatchOption};
ghost use Rattle.counting.specs.Paper.Search.{first};
ghost use Rattle.answers.specs.Paper.Enums.{verdict_of};
ghost use Rattle.matrix.specs.Paper.Check.{sizes_fit, overlapping, check_of};
ghost use Rattle.matrix.specs.Ordered.{Sized, Ordered, WeightsFit};
ghost use Rattle.matrix.specs.Paper.Shapes.{matrix_of};
ghost use Rattle.matrix_check.specs.Parts.{Fits};

use answers::Refusal;
pub use matrix::Shape;
use matrix_meeting::pair_twice;
use matrix_overlap::exact_overlap;
use matrix_weights::{first_off_weight, walk, weights_fit};

// Whether the sizes are in range and go together. No test waits for another: the products fit a usize whatever the sizes are.
pub fn sizes_fit(shape: Shape) -> bool
    ensures { result ≡ sizes_fit (matrix_of shape []) }
{
    let ones_by_row = shape.m as usize * shape.rho as usize;
    let ones_by_column = shape.n as usize * shape.gamma as usize;
    (2..=1023).contains(&shape.n)
        & (1..=1023).contains(&shape.m)
        & (2..=32).contains(&shape.rho)
        & (1..=32).contains(&shape.gamma)
        & (ones_by_column <= ones_by_row)
}

// Whether the sizes are in range and go together and the list has its length: refusals 1 and 2 as one quick question.
// Which of the two is given, only a refused matrix asks.
pub fn fits(shape: Shape, list: &[u16]) -> bool
    ensures { Fits (matrix_of shape list.now) result }
{
    if !sizes_fit(shape) {
        return false;
    }
    let m = shape.m as usize;
    let rho = shape.rho as usize;
    list.len() == m * rho
}

// The first row that shares two columns or more with a later row. Whether there is one, `pair_twice` says soon:
// the exact search requires one, so an accepted matrix never reaches it.
fn first_overlap(shape: Shape, list: &[u16]) -> Option<usize>
    requires { Ordered (matrix_of shape list.now) }
    ensures { MatchOption result (first (overlapping (matrix_of shape list.now)) shape.m ≡ shape.m) (λ i. (i ≡ first (overlapping (matrix_of shape list.now)) shape.m) × (i < shape.m)) }
{
    if pair_twice(shape, list) {
        return exact_overlap(shape, list);
    }
    None
}

// Refusal 5, where refusals 1 to 4 pass the matrix. Only this repository's crates call it, after asking these.
pub fn ask_overlap(shape: Shape, list: &[u16]) -> Result<(), Refusal>
    requires { Ordered (matrix_of shape list.now) × WeightsFit (matrix_of shape list.now) }
    ensures { verdict_of result ≡ check_of (matrix_of shape list.now) }
{
    if let Some(i) = first_overlap(shape, list) {
        return Err(Refusal::Overlap(i as u16));
    }
    Ok(())
}

// The matrix check once the sizes and the length are right: refusals 3 to 5. Whether refusal 4 is given, one quick question says;
// its place is the first column outside gamma to 32, and n where the search finds none: then none weighs gamma.
fn check_list(shape: Shape, list: &[u16]) -> Result<(), Refusal>
    requires { Sized (matrix_of shape list.now) }
    ensures { verdict_of result ≡ check_of (matrix_of shape list.now) }
{
    let mut weights = [0u16; 1023];
    if let Some(p) = walk(shape, list, &mut weights) {
        return Err(Refusal::Entry(p as u16));
    }
    if weights_fit(shape, &weights) {
        return ask_overlap(shape, list);
    }
    let j = first_off_weight(shape, &weights).unwrap_or(shape.n as usize);
    Err(Refusal::Weight(j as u16))
}

// The matrix check. No input needs to be looked at before.
pub fn check(shape: Shape, list: &[u16]) -> Result<(), Refusal>
    ensures { verdict_of result ≡ check_of (matrix_of shape list.now) }
{
    if !sizes_fit(shape) {
        return Err(Refusal::Sizes);
    }
    let m = shape.m as usize;
    let rho = shape.rho as usize;
    if list.len() != m * rho {
        return Err(Refusal::Length);
    }
    check_list(shape, list)
}
