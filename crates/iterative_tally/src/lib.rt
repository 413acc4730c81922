// The votes of a word that follows another one: the parities of the checks are kept, and only those of flipped bits are turned over.
// Rests on `syndrome_update`, `syndrome` and `majority_votes`. Document 01: "Iterative voting", steps 2 and 4.
#![tactic(auto)]

ghost use Rattle.std.specs.Prelude.{◌≡◌};
ghost use Rattle.counting.specs.Places.{at};
ghost use Rattle.matrix.specs.Paper.Code.{Word};
ghost use Rattle.matrix.specs.Paper.PlainCheck.{Accepted};
ghost use Rattle.matrix.specs.Paper.Shapes.{matrix_of};
ghost use Rattle.matrix_index.specs.Paper.Index.{index_of};
ghost use Rattle.syndrome_update.specs.Parities.{Parities};
ghost use Rattle.iterative_tally.specs.Retally.{RenewedBy, Retallied};

use matrix_check::Shape;

// The parities of the word `before` become those of the word `bits`: the rows of the flipped bits' columns are turned over,
// or all rows are done anew where that is less work: with few rows a column, to reach the column costs more than its rows. The lightest column stands for all: it is a matter of speed alone.
// The flipped bits are listed at the front of `places`.
fn renew(
    shape: Shape,
    list: &[u16],
    index: &[u16],
    before: &[u8; 1023],
    bits: &[u8; 1023],
    places: &mut [u16; 1023],
    parity: &mut [u8; 1023],
)
    requires accepted { Accepted (matrix_of shape list.now) × (index.now ≡ index_of (matrix_of shape list.now)) }
    requires word { Word (matrix_of shape list.now) (at before.now) × Word (matrix_of shape list.now) (at bits.now) × Parities (matrix_of shape list.now) (at before.now) parity.old }
    ensures { RenewedBy (matrix_of shape list.now) (at before.now) (at bits.now) places.old places.new parity.old parity.new }
{
    let n = shape.n as usize;
    let m = shape.m as usize;
    let rho = shape.rho as usize;
    let flipped = syndrome_update::list_flips(n, before, bits, places);
    if (shape.gamma < 8) & (n < 4 * flipped) {
        syndrome::row_parities(list, m, rho, bits, parity);
        return;
    }
    syndrome_update::turn_listed(index, n, places, flipped, parity);
}

// The votes and the failing checks of the word `bits`, by the parities of the word `before`, which become its own.
// Only this repository's crates call it, with an accepted matrix and its index.
pub fn retally(
    shape: Shape,
    list: &[u16],
    index: &[u16],
    before: &[u8; 1023],
    bits: &[u8; 1023],
    parity: &mut [u8; 1023],
    votes: &mut [u8; 1023],
) -> u16
    requires accepted { Accepted (matrix_of shape list.now) × (index.now ≡ index_of (matrix_of shape list.now)) }
    requires word { Word (matrix_of shape list.now) (at before.now) × Word (matrix_of shape list.now) (at bits.now) × Parities (matrix_of shape list.now) (at before.now) parity.old }
    ensures { Retallied (matrix_of shape list.now) (at bits.now) parity.old parity.new votes.new result }
{
    let m = shape.m as usize;
    let rho = shape.rho as usize;
    let mut places = [0u16; 1023];
    renew(shape, list, index, before, bits, &mut places, parity);
    let count = syndrome::list_odd(m, parity, &mut places);
    *votes = [0u8; 1023];
    majority_votes::add_rows(list, rho, &places, count, votes);
    count as u16
}
