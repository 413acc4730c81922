// Rounds of iterative voting by the matrix as sets: the failing checks are a set, and their votes are kept from round to round.
// It is the way of whoever decodes many blocks by one matrix, as the program does: the sets are made once.
// Rests on `iterative_rounds`, `syndrome_sets`, `syndrome_update`, `iterative_votes`, `iterative_levels`, `matrix_sets`, `matrix_columns`, and on the definitions of `matrix_rows`.
// Document 01: "Iterative voting", steps 2 to 6; document 02: card 2.
#![tactic(auto)]

ghost use Rattle.std.proofs.Common.{refl, sym, ◌∙◌};
ghost use Rattle.std.specs.Prelude.{◌≡◌, length};
ghost use Rattle.matrix.specs.Paper.Shapes.{matrix_of};
ghost use Rattle.matrix.proofs.Rows.{fails-cong};
ghost use Rattle.matrix_rows.specs.Rows.{RowSets};
ghost use Rattle.matrix_sets.specs.Sets.{sets_of};
ghost use Rattle.syndrome_words.specs.Sets.{ColumnSets, SetParities, SetVotes};
ghost use Rattle.iterative_rounds.specs.Runs.{RunLent, RunLeft};

use iterative_levels::Kept;
use iterative_rounds::Tally;
use majority_votes::Stop;
use matrix_check::Shape;

// By the matrix as sets: the failing checks are a set, of which the votes are kept. What `places` holds does not matter.
#[derive(Drop)]
pub struct BySets<'a> {
    columns: &'a [u64],
    supports: &'a [u64],
    parity: [u64; 16],
    places: [u16; 1023],
}

impl<'a> Tally for BySets<'a> {
    ghost keeps = { λ w H z v. ColumnSets H w.columns.now × RowSets H w.supports.now × SetParities H z w.parity × SetVotes H w.parity v × (length w.places ≡ 1023) };

    ghost stays = { λ H v w. (w.columns.now ≡ v.columns.now) × (w.supports.now ≡ v.supports.now) };

    // The columns of the flipped bits turn the set over, and its votes follow.
    fn retally(
        &mut self,
        shape: Shape,
        list: &[u16],
        before: &[u8; 1023],
        bits: &[u8; 1023],
        votes: &mut [u8; 1023],
    ) -> u16 {
        let n = shape.n as usize;
        let m = shape.m as usize;
        let was = self.parity;
        let flipped = syndrome_update::list_flips(n, before, bits, &mut self.places);
        syndrome_sets::turn(self.columns, n, m, &self.places, flipped, &mut self.parity);
        iterative_votes::revote(
            shape,
            list,
            self.supports,
            &was,
            &self.parity,
            &mut self.places,
            votes,
        )
    }

    ghost stays_so = { λ w H. (refl, refl) };

    ghost stays_on = { λ u v w H s t. (t.0 ∙ s.0, t.1 ∙ s.1) };

    ghost of_copy = { λ w H a z v r e k. (k.0, k.1, record { long = k.2.long; each = λ i h. k.2.each i h ∙ sym (fails-cong H r.rows a z e i h); past = k.2.past }, k.3, k.4) };
}

// Rounds until no check fails or the limit is reached. Only this repository's crates call it, after asking the refusals, with the matrix as sets.
pub fn run(
    shape: Shape,
    list: &[u16],
    sets: &[u64],
    limit: u16,
    middle: Kept,
    bits: &mut [u8; 1023],
    levels: &mut [Kept; 1023],
) -> Stop
    requires { RunLent (matrix_of shape list.now) middle bits.old levels.old × (sets.now ≡ sets_of (matrix_of shape list.now)) }
    ensures { RunLeft (matrix_of shape list.now) middle limit bits.old levels.old bits.new levels.new result.rounds result.failing }
{
    let n = shape.n as usize;
    let from = 17 * n;
    let mut weights = [0u8; 1023];
    matrix_columns::weigh(&sets[..from], n, &mut weights);
    let mut way = BySets {
        columns: &sets[..from],
        supports: &sets[from..],
        parity: [0u64; 16],
        places: [0u16; 1023],
    };
    iterative_rounds::rounds_on(&mut way, shape, list, &weights, limit, middle, bits, levels)
}
