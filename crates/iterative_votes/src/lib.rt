// The votes of the failing checks, kept from one word to the next: checks that began to fail add theirs, and those that no longer do take theirs away;
// or all that fail vote anew, where these are no more.
// Rests on `syndrome_sets`, `syndrome_rows` and `majority_sets`. Document 01: "Iterative voting", step 4.
#![tactic(auto)]

ghost use Rattle.std.specs.Prelude.{◌≡◌, length};
ghost use Rattle.matrix.specs.Paper.PlainCheck.{Accepted};
ghost use Rattle.matrix.specs.Paper.Shapes.{matrix_of};
ghost use Rattle.matrix_rows.specs.Rows.{RowSets};
ghost use Rattle.syndrome_words.specs.Sets.{Within, set_failing, SetVotes};
ghost use Rattle.iterative_votes.specs.Kept.{VotesOf};

use matrix_check::Shape;

// The checks of the set `parity` vote anew. No bit past those of the matrix has votes before.
fn vote_anew(
    shape: Shape,
    list: &[u16],
    supports: &[u64],
    parity: &[u64; 16],
    rows: &mut [u16; 1023],
    votes: &mut [u8; 1023],
)
    requires { Accepted (matrix_of shape list.now) × RowSets (matrix_of shape list.now) supports.now × Within shape.m parity.now × (length rows.old ≡ 1023) × VotesOf shape.n votes.old }
    ensures { SetVotes (matrix_of shape list.now) parity.now votes.new × (length rows.new ≡ 1023) }
{
    let n = shape.n as usize;
    let m = shape.m as usize;
    let none = [0u64; 16];
    let count = syndrome_rows::list_only(m, parity, &none, rows);
    votes[..n].fill(0);
    majority_sets::add(shape, list, supports, rows, count, votes);
}

// The checks that only the set `parity` has add their votes, and those that only the set `was` has take theirs away.
fn move_votes(
    shape: Shape,
    list: &[u16],
    supports: &[u64],
    was: &[u64; 16],
    parity: &[u64; 16],
    rows: &mut [u16; 1023],
    votes: &mut [u8; 1023],
)
    requires { Accepted (matrix_of shape list.now) × RowSets (matrix_of shape list.now) supports.now × Within shape.m was.now × Within shape.m parity.now × SetVotes (matrix_of shape list.now) was.now votes.old × (length rows.old ≡ 1023) }
    ensures { SetVotes (matrix_of shape list.now) parity.now votes.new × (length rows.new ≡ 1023) }
{
    let m = shape.m as usize;
    let more = syndrome_rows::list_only(m, parity, was, rows);
    majority_sets::add(shape, list, supports, rows, more, votes);
    let fewer = syndrome_rows::list_only(m, was, parity, rows);
    majority_sets::take(shape, list, supports, rows, fewer, votes);
}

// The votes of the set `was` become those of the set `parity`, whose checks are counted. What `rows` holds afterwards does not matter.
// Which way is taken is a matter of speed alone. Only this repository's crates call it, with an accepted matrix.
pub fn revote(
    shape: Shape,
    list: &[u16],
    supports: &[u64],
    was: &[u64; 16],
    parity: &[u64; 16],
    rows: &mut [u16; 1023],
    votes: &mut [u8; 1023],
) -> u16
    requires { Accepted (matrix_of shape list.now) × RowSets (matrix_of shape list.now) supports.now × Within shape.m was.now × Within shape.m parity.now × SetVotes (matrix_of shape list.now) was.now votes.old × (length rows.old ≡ 1023) }
    ensures { SetVotes (matrix_of shape list.now) parity.now votes.new × (result ≡ set_failing (matrix_of shape list.now) parity.now) × (length rows.new ≡ 1023) }
{
    let m = shape.m as usize;
    let words = (m + 63) / 64;
    let none = [0u64; 16];
    let failing = syndrome_sets::apart(words, parity, &none);
    if syndrome_sets::apart(words, was, parity) < failing {
        move_votes(shape, list, supports, was, parity, rows, votes);
    } else {
        vote_anew(shape, list, supports, parity, rows, votes);
    }
    failing
}
