// The votes of the failing checks on each bit.
// Rests on `syndrome` and the definitions of `majority_logic`. Document 01: "One-step voting".
#![tactic(auto)]

ghost use Rattle.std.specs.Prelude.{◌≡◌, List, ℕ, ◌+◌, ◌≤◌};
ghost use Rattle.counting.specs.Places.{at, among};
ghost use Rattle.matrix.specs.Paper.Code.{Word};
ghost use Rattle.matrix.specs.Paper.PlainCheck.{Accepted};
ghost use Rattle.matrix.specs.Paper.Shapes.{matrix_of};
ghost use Rattle.syndrome.specs.Places.{Part};
ghost use Rattle.majority_votes.specs.Tallies.{of_rows, Addable, ListedRows, More, Takeable, Fewer, Tallied};
ghost use Rattle.majority_votes.specs.Turns.{TurnLaws, add_laws, take_laws};

use matrix_check::Shape;
use syndrome::failing_rows;

// Where voting stopped: how many rounds there were, and how many checks fail.
// It is `answers::Report` less the outcome and the changed bits, which are not known before the word is packed.
#[derive(Clone, Copy, Debug, PartialEq, Eq)]
pub struct Stop {
    pub rounds: u16,
    pub failing: u16,
}

// Which way votes turn: up where checks begin to fail, down where they no longer do.
pub trait Turn {
    // an array that has room for so many turns at each place
    ghost room: { (ℕ → ℕ) → List ℕ → Type 0 };

    // an array before and after them
    ghost turned: { (ℕ → ℕ) → List ℕ → List ℕ → Type 0 };

    // the same of a byte
    ghost fits: { ℕ → ℕ → Type 0 };

    ghost gives: { ℕ → ℕ → ℕ → Type 0 };

    ghost laws: { TurnLaws room turned fits gives };

    // A bit's votes, turned by so many.
    fn turn(votes: u8, by: u8) -> u8
        requires { fits votes by }
        ensures { gives votes by result };
}

// Votes are added.
pub struct Add;

// Votes are taken away.
pub struct Take;

impl Turn for Add {
    ghost room = { Addable };

    ghost turned = { More };

    ghost fits = { λ v b. v + b ≤ 255 };

    ghost gives = { λ v b r. r ≡ v + b };

    ghost laws = { add_laws };

    fn turn(votes: u8, by: u8) -> u8 {
        votes + by
    }
}

impl Turn for Take {
    ghost room = { Takeable };

    ghost turned = { Fewer };

    ghost fits = { λ v b. b ≤ v };

    ghost gives = { λ v b r. r + b ≡ v };

    ghost laws = { take_laws };

    fn turn(votes: u8, by: u8) -> u8 {
        votes - by
    }
}

// One turn at each of `count` column numbers of the list.
fn turn_some<T: Turn>(list: &[u16], from: usize, count: usize, votes: &mut [u8; 1023])
    requires { Part list.now from count × T.room (among list.now from count) votes.old }
    ensures { T.turned (among list.now from count) votes.old votes.new }
{
    for k in 0..count {
        let j = list[from + k] as usize;
        votes[j] = T::turn(votes[j], 1);
    }
}

// The same in eights, so that the compiled loop over eight is laid out by itself.
fn turn_row<T: Turn>(list: &[u16], from: usize, count: usize, votes: &mut [u8; 1023])
    requires { Part list.now from count × T.room (among list.now from count) votes.old }
    ensures { T.turned (among list.now from count) votes.old votes.new }
{
    let eights = count / 8;
    for e in 0..eights {
        turn_some::<T>(list, from + 8 * e, 8, votes);
    }
    turn_some::<T>(list, from + 8 * eights, count % 8, votes);
}

// One turn at each column of each listed row. The array of rows is lent whole, with their number beside it, as it is room for any number of them.
// Only this repository's crates call it, with rows of an accepted matrix.
pub fn turn_rows<T: Turn>(
    list: &[u16],
    rho: usize,
    rows: &[u16; 1023],
    count: usize,
    votes: &mut [u8; 1023],
)
    requires { ListedRows list.now rho rows.now count × T.room (of_rows list.now rho rows.now count) votes.old }
    ensures { T.turned (of_rows list.now rho rows.now count) votes.old votes.new }
{
    for i in &rows[..count] {
        turn_row::<T>(list, *i as usize * rho, rho, votes);
    }
}

// A vote more at each column of each listed row. Only this repository's crates call it, with rows of an accepted matrix.
pub fn add_rows(list: &[u16], rho: usize, rows: &[u16; 1023], count: usize, votes: &mut [u8; 1023])
    requires { ListedRows list.now rho rows.now count × Addable (of_rows list.now rho rows.now count) votes.old }
    ensures { More (of_rows list.now rho rows.now count) votes.old votes.new }
{
    turn_rows::<Add>(list, rho, rows, count, votes);
}

// A vote less at each column of each listed row. Only this repository's crates call it, with rows of an accepted matrix.
pub fn take_rows(list: &[u16], rho: usize, rows: &[u16; 1023], count: usize, votes: &mut [u8; 1023])
    requires { ListedRows list.now rho rows.now count × Takeable (of_rows list.now rho rows.now count) votes.old }
    ensures { Fewer (of_rows list.now rho rows.now count) votes.old votes.new }
{
    turn_rows::<Take>(list, rho, rows, count, votes);
}

// Each bit's failing checks, and how many checks fail. What the array held before does not matter.
// Only this repository's crates call it, after the check.
pub fn tally(shape: Shape, list: &[u16], bits: &[u8; 1023], votes: &mut [u8; 1023]) -> u16
    requires { Accepted (matrix_of shape list.now) × Word (matrix_of shape list.now) (at bits.now) }
    ensures { Tallied (matrix_of shape list.now) (at bits.now) votes.new result }
{
    let rho = shape.rho as usize;
    let mut rows = [0u16; 1023];
    let count = failing_rows(shape, list, bits, &mut rows);
    *votes = [0u8; 1023];
    add_rows(list, rho, &rows, count, votes);
    count as u16
}
