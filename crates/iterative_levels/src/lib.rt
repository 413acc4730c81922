// Stored levels of bits: one pass of a round over them, and how they are kept between passes.
// A level R from -L to L is kept as R + L: cutting at -L is then the subtraction that stops at 0.
// Rests on `counting`, and on `quantiser_levels` for the cells of levels. Document 01: "Iterative voting", steps 4 to 6. Document 02: cards 2 and 7.
#![tactic(auto)]

ghost use Rattle.std.specs.Prelude.{◌≡◌, cond, min, ◌+◌, ◌-◌, ◌*◌, ◌<◌, ◌≤◌, eqb, nat_abs, length};
ghost use Rattle.std.proofs.Math.IntN.{sub_ℕ};
ghost use Rattle.counting.specs.Paper.Lists.{listed, over};
ghost use Rattle.counting.specs.Places.{at};
ghost use Rattle.quantiser_levels.specs.Paper.Samples.{most_level};
ghost use Rattle.iterative_levels.specs.Levels.{most_kept, biased, unbiased, next_level, above_middle, Bounds, Moved, Narrow, Bounded, Biased, Restorable};

use quantiser_levels::Cell;

// A level as it is kept: from 0 to 2L.
pub type Kept = u16;

// The first number at a bit 0, the second at a bit 1.
fn by_bit(z: u8, zero: u16, one: u16) -> u16
    ensures { result ≡ cond (eqb z 0) zero one }
{
    if z == 0 { zero } else { one }
}

// x + plus - minus, cut to 0 and the ceiling.
fn shifted(x: Kept, plus: u16, minus: u16, ceiling: Kept) -> Kept
    requires { x + plus < 65536 }
    ensures { result ≡ min ceiling (x + plus - minus) }
{
    (x + plus).saturating_sub(minus).min(ceiling)
}

// The next level of a bit z, v of whose own `weight` checks fail: E is 2v - weight where z is 0, weight - 2v where it is 1.
// What is added and what is taken away are chosen first, so that the compiled loop has one sum and one difference for both bits.
fn next_level(x: Kept, z: u8, v: u8, weight: u8, ceiling: Kept) -> Kept
    requires { (x ≤ ceiling) × (ceiling ≤ most_kept) }
    ensures { result ≡ next_level weight ceiling x z v }
{
    let twice = 2 * (v as u16);
    let all = weight as u16;
    shifted(x, by_bit(z, twice, all), by_bit(z, all, twice), ceiling)
}

// The bit of a level: 1 exactly where R is above 0.
#[tactic(auto, unfolding(crate::specs::Levels::above_middle))]
fn is_above(x: Kept, middle: Kept) -> u8
    ensures { result ≡ above_middle middle x }
{
    (middle < x) as u8
}

// Brings the first n levels and bits to the next round. Each reads its own votes, which are those of the old bits, and its own weight.
// Only this repository's crates call it, with sizes and column weights of an accepted matrix, and levels up to the ceiling.
// Nothing that it reads in the arrays has more than sixteen bits, so that the compiled loop takes eight places at a time.
pub fn update(
    votes: &[u8; 1023],
    weights: &[u8; 1023],
    n: usize,
    middle: Kept,
    ceiling: Kept,
    bits: &mut [u8; 1023],
    levels: &mut [Kept; 1023],
)
    requires { Bounds n ceiling levels.old × (length bits.old ≡ 1023) × (length levels.old ≡ 1023) }
    ensures { Moved votes.now (at weights.now) n middle ceiling bits.old levels.old bits.new levels.new }
{
    for j in 0..n {
        let x = next_level(levels[j], bits[j], votes[j], weights[j], ceiling);
        levels[j] = x;
        bits[j] = is_above(x, middle);
    }
}

// Keeps the first n weights as numbers of eight bits; the cells past them stay. Only this repository's crates call it, with weights of up to 255.
// `matrix_columns::weigh` is its like over words of 64 bits behind the columns' sets; one line of a loop is shorter than a trait for both.
#[tactic(auto, using(counting::proofs::Loops::over_start, counting::proofs::Loops::over_step))]
pub fn narrow(weights: &[u16; 1023], n: usize, kept: &mut [u8; 1023])
    requires { Narrow n weights.now × (length kept.old ≡ 1023) }
    ensures { kept.new ≡ over (listed n (at weights.now)) kept.old }
{
    for j in 0..n {
        kept[j] = weights[j] as u8;
    }
}

// R + L.
fn bias_one(r: Cell, middle: Kept) -> Kept
    requires { (middle ≤ most_level) × (nat_abs r ≤ middle) }
    ensures { result ≡ biased middle r }
{
    let s = r + (middle as Cell);
    s as Kept
}

// And back.
fn unbias_one(x: Kept, middle: Kept) -> Cell
    requires { (middle ≤ most_level) × (x ≤ 2 * middle) }
    ensures { result ≡ sub_ℕ x middle }
{
    (x as Cell) - (middle as Cell)
}

// Keeps the first n levels as R + L; the cells past them stay. Only this repository's crates call it, with levels from -L to L.
pub fn bias(levels: &[Cell], n: usize, middle: Kept, kept: &mut [Kept; 1023])
    requires { Bounded n middle levels.now × (length kept.old ≡ 1023) }
    ensures { Biased n middle levels.now kept.old kept.new }
{
    for j in 0..n {
        kept[j] = bias_one(levels[j], middle);
    }
}

// Writes the first n levels back. Only this repository's crates call it, with room for them.
#[tactic(auto, using(counting::proofs::Loops::over_start, counting::proofs::Loops::over_step, counting::proofs::Loops::over_length), unfolding(crate::specs::Levels::unbiased))]
pub fn unbias(kept: &[Kept; 1023], n: usize, middle: Kept, levels: &mut [Cell])
    requires { Restorable n middle kept.now levels.old }
    ensures { levels.new ≡ over (listed n (unbiased middle kept.now)) levels.old }
{
    for j in 0..n {
        levels[j] = unbias_one(kept[j], middle);
    }
}
