// Refusals 3 and 4: one pass over the list for the first bad entry, which counts the columns' weights, and the first weight that is off.
// Rests on `matrix`. Document 01: "Refused for the input" 3 and 4. Document 02: card 2.
#![tactic(auto)]

ghost use Rattle.std.specs.Prelude.{MatchOption, not, ◌||◌, ◌≡◌, ◌+◌, ◌<◌, ◌≤◌, leb, length, get_or, set};
ghost use Rattle.counting.specs.Paper.Search.{any_below, first};
ghost use Rattle.matrix.specs.Paper.Check.{within};
ghost use Rattle.matrix.specs.Ordered.{Sized};
ghost use Rattle.matrix.specs.Paper.Shapes.{matrix_of};
ghost use Rattle.matrix.specs.Tallies.{Tally};
ghost use Rattle.matrix_weights.specs.Weights.{list_at, Walked, RowAhead, RowWalked, out_weight, least_weight, off_weights, weights_fit};

use matrix::Shape;

// Whether an entry that does not begin its row is not below n or not above the one before it. One branch for both tests.
fn bad_after(n: u16, before: u16, c: u16) -> bool
    ensures { result ≡ (leb n c || leb c before) }
{
    (n <= c) | (c <= before)
}

// Counts column c once more.
fn count(tally: &mut [u16; 1023], c: usize)
    requires { (c < 1023) × (get_or tally.old c 0 < 65535) }
    ensures { tally.new ≡ set tally.old c (get_or tally.old c 0 + 1) }
{
    tally[c] += 1;
}

// The place in its row of the first bad entry of the row that begins at `start`. Counts the columns of the entries before it.
fn walk_row(
    n: u16,
    list: &[u16],
    start: usize,
    rho: usize,
    weights: &mut [u16; 1023],
) -> Option<usize>
    requires { RowAhead n list.now start rho weights.old }
    ensures { MatchOption result (RowWalked n list.now start rho weights.new rho) (λ k. RowWalked n list.now start rho weights.new k × (k < rho)) }
{
    let first = list[start];
    if n <= first {
        return Some(0);
    }
    count(weights, first as usize);
    let mut before = first;
    for k in 1..rho {
        let c = list[start + k];
        if bad_after(n, before, c) {
            return Some(k);
        }
        count(weights, c as usize);
        before = c;
    }
    None
}

// The first bad entry. The same pass, row by row, counts the columns of the entries before it: the weights, where none is bad.
// Only this repository's crates call it, after asking refusals 1 and 2.
pub fn walk(shape: Shape, list: &[u16], weights: &mut [u16; 1023]) -> Option<usize>
    requires { Sized (matrix_of shape list.now) × Tally (list_at (matrix_of shape list.now)) 0 weights.old }
    ensures { MatchOption result (Walked (matrix_of shape list.now) weights.new (length list.now)) (λ p. Walked (matrix_of shape list.now) weights.new p × (p < length list.now)) }
{
    let m = shape.m as usize;
    let rho = shape.rho as usize;
    for i in 0..m {
        if let Some(k) = walk_row(shape.n, list, i * rho, rho, weights) {
            return Some(i * rho + k);
        }
    }
    None
}

// Whether a weight lies outside gamma to 32. Both ends are asked at every column: a range's `contains` would leave off after the first.
fn outside(gamma: u16, w: u16) -> bool
    ensures { result ≡ not (within gamma w 32) }
{
    (w < gamma) | (32 < w)
}

// The first column whose weight lies outside gamma to 32. Only this repository's crates call it, after asking refusal 1.
#[tactic(auto, using(counting::proofs::Loops::first_passed), unfolding(crate::specs::Weights::out_weight))]
pub fn first_off_weight(shape: Shape, weights: &[u16; 1023]) -> Option<usize>
    requires { shape.n ≤ 1023 }
    ensures { MatchOption result (first (out_weight shape.gamma weights.now) shape.n ≡ shape.n) (λ j. (j ≡ first (out_weight shape.gamma weights.now) shape.n) × (j < shape.n)) }
{
    let n = shape.n as usize;
    let gamma = shape.gamma;
    for j in 0..n {
        if outside(gamma, weights[j]) {
            return Some(j);
        }
    }
    None
}

// Whether some column weighs gamma.
#[tactic(auto, using(counting::proofs::Loops::any_passed), unfolding(crate::specs::Weights::least_weight))]
fn has_least(shape: Shape, weights: &[u16; 1023]) -> bool
    requires { shape.n ≤ 1023 }
    ensures { result ≡ any_below (least_weight shape.gamma weights.now) shape.n }
{
    let n = shape.n as usize;
    let least = shape.gamma;
    for c in 0..n {
        if weights[c] == least {
            return true;
        }
    }
    false
}

// How many columns' weights lie outside gamma to 32, counted without a branch at any of them.
fn off_weights(shape: Shape, weights: &[u16; 1023]) -> u16
    requires { shape.n ≤ 1023 }
    ensures { result ≡ off_weights shape.gamma weights.now shape.n }
{
    let n = shape.n as usize;
    let low = shape.gamma;
    let mut off: u16 = 0;
    for q in 0..n {
        off += outside(low, weights[q]) as u16;
    }
    off
}

// Whether refusal 4 passes these weights. It says no place: only a refused matrix pays for the search. Only this repository's crates call it, after asking refusal 1.
pub fn weights_fit(shape: Shape, weights: &[u16; 1023]) -> bool
    requires { shape.n ≤ 1023 }
    ensures { result ≡ weights_fit shape.gamma weights.now shape.n }
{
    if off_weights(shape, weights) != 0 {
        return false;
    }
    has_least(shape, weights)
}
