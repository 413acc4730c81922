// The index as a call, and what every call asks that takes matrix and index.
// Rests on `matrix_index_replay`, `matrix_index`, `matrix_order`, `matrix_check`, `matrix_degrees` and `matrix_weights`.
// Document 02: cards 1 and 2; refusals 1 to 5 and 10.
#![tactic(auto)]

ghost use Rattle.std.specs.Prelude.{◌≡◌, ℕ, ◌+◌, ◌≤◌, ◌<◌, length};
ghost use Rattle.counting.specs.Places.{at};
ghost use Rattle.answers.specs.Paper.Answers.{accepted};
ghost use Rattle.answers.specs.Paper.Enums.{verdict_of};
ghost use Rattle.matrix.specs.Paper.PlainCheck.{Accepted};
ghost use Rattle.matrix.specs.Paper.Shapes.{matrix_of};
ghost use Rattle.matrix_weights.specs.Weights.{weights_fit};
ghost use Rattle.matrix_index.specs.Paper.Index.{own_verdict};
ghost use Rattle.matrix_index_check.specs.Agree.{gaps_in, Agree};
ghost use Rattle.matrix_index_check.specs.Paper.Call.{indexed_verdict, IndexAnswered};

use answers::Refusal;
use matrix_check::Shape;

// Refusal 10 for a lent index.
fn ask_own(shape: Shape, list: &[u16], index: &[u16]) -> Result<(), Refusal>
    requires { Accepted (matrix_of shape list.now) }
    ensures { verdict_of result ≡ own_verdict (matrix_of shape list.now) index.now }
{
    let own = matrix_index_replay::replay(shape, list, index);
    answers::refused_when(!own, Refusal::Index)
}

// What is asked of matrix and index, one after the other: the first wrong one is named.
fn ask_apart(shape: Shape, list: &[u16], index: &[u16]) -> Result<(), Refusal>
    ensures { verdict_of result ≡ indexed_verdict (matrix_of shape list.now) index.now accepted }
{
    matrix_check::check(shape, list)?;
    ask_own(shape, list, index)
}

// Whether refusal 4 passes the columns' weights as the starting places of an index have them. So the list needs no pass for them.
fn weights_pass(shape: Shape, index: &[u16]) -> bool
    requires { (shape.n ≤ 1023) × (shape.n < length index.now) × ((j : ℕ) → j < shape.n → at index.now j ≤ at index.now (j + 1)) }
    ensures { result ≡ weights_fit shape.gamma (gaps_in shape.n index.now) shape.n }
{
    let n = shape.n as usize;
    let mut weights = [0u16; 1023];
    matrix_degrees::weigh_starts(index, n, &mut weights);
    matrix_weights::weights_fit(shape, &weights)
}

// Whether refusals 1 to 4 pass the matrix and the index is its own. The weights are asked of an index that has been replayed.
fn agree(shape: Shape, list: &[u16], index: &[u16]) -> bool
    ensures { Agree (matrix_of shape list.now) index.now result }
{
    if !matrix_check::fits(shape, list) {
        return false;
    }
    if !matrix_order::in_order(shape, list) {
        return false;
    }
    if !matrix_index_replay::replay(shape, list, index) {
        return false;
    }
    weights_pass(shape, index)
}

// What is asked of matrix and index: 1 to 5, then 10. Where both agree refusal 5 alone is left; else what is wrong is looked for.
pub fn check_indexed(shape: Shape, list: &[u16], index: &[u16]) -> Result<(), Refusal>
    ensures { verdict_of result ≡ indexed_verdict (matrix_of shape list.now) index.now accepted }
{
    if agree(shape, list, index) {
        return matrix_check::ask_overlap(shape, list);
    }
    ask_apart(shape, list, index)
}

// Refusal 10 for a buffer too short, then the index.
fn on_accepted(shape: Shape, list: &[u16], index: &mut [u16]) -> Result<(), Refusal>
    requires { Accepted (matrix_of shape list.now) }
    ensures { IndexAnswered (matrix_of shape list.now) index.old index.new (verdict_of result) }
{
    let size = (shape.n as usize) + 1 + (shape.m as usize) * (shape.rho as usize);
    if index.len() < size {
        return Err(Refusal::Index);
    }
    matrix_index::build(shape, list, index);
    Ok(())
}

// The index of a matrix, at the front of a buffer. A refused call writes nothing.
pub fn index(shape: Shape, list: &[u16], index: &mut [u16]) -> Result<(), Refusal>
    ensures { IndexAnswered (matrix_of shape list.now) index.old index.new (verdict_of result) }
{
    matrix_check::check(shape, list)?;
    on_accepted(shape, list, index)
}
