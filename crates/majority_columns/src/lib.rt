// The votes on each bit by the rows of its column, which an index has: the failing checks among them.
// Rests on `syndrome_update` and the definitions of `majority_logic`. Document 01: "One-step voting". Document 02: card 1.
#![tactic(auto)]

ghost use Rattle.std.specs.Prelude.{◌≤◌, ◌<◌, ◌≡◌, length};
ghost use Rattle.counting.specs.Paper.Lists.{listed, over};
ghost use Rattle.counting.specs.Places.{at};
ghost use Rattle.syndrome.specs.Places.{Part, ones_at};
ghost use Rattle.syndrome_update.specs.Parities.{Bits, Columns};
ghost use Rattle.majority_columns.specs.ColumnVotes.{column_votes, FewRows};

// How many of `count` row numbers of the index have parity 1.
fn odd_rows(index: &[u16], from: usize, count: usize, parity: &[u8; 1023]) -> u8
    requires { Part index.now from count × (count ≤ 255) × Bits parity.now }
    ensures { result ≡ ones_at index.now from count (at parity.now) }
{
    let mut v: u8 = 0;
    for k in 0..count {
        let i = index[from + k] as usize;
        v += parity[i];
    }
    v
}

// The same, with the loop laid out for columns of three rows.
fn odd_among(index: &[u16], from: usize, count: usize, parity: &[u8; 1023]) -> u8
    requires { Part index.now from count × (count ≤ 255) × Bits parity.now }
    ensures { result ≡ ones_at index.now from count (at parity.now) }
{
    if count == 3 {
        return odd_rows(index, from, 3, parity);
    }
    odd_rows(index, from, count, parity)
}

// The votes on bit j: its failing checks.
fn votes_on(index: &[u16], n: usize, j: usize, parity: &[u8; 1023]) -> u8
    requires { Columns index.now n × FewRows index.now n × (j < n) × Bits parity.now }
    ensures { result ≡ column_votes index.now n (at parity.now) j }
{
    let from = index[j] as usize;
    let to = index[j + 1] as usize;
    odd_among(index, n + 1 + from, to - from, parity)
}

// The votes on the first n bits. The cells past them stay.
// Only this repository's crates call it, with the index of an accepted matrix and the parities of a word.
#[tactic(auto, using(counting::proofs::Loops::over_start, counting::proofs::Loops::over_step))]
pub fn tally_columns(index: &[u16], n: usize, parity: &[u8; 1023], votes: &mut [u8])
    requires { Columns index.now n × FewRows index.now n × Bits parity.now × (length votes.old ≡ 1023) }
    ensures { votes.new ≡ over (listed n (column_votes index.now n (at parity.now))) votes.old }
{
    for j in 0..n {
        votes[j] = votes_on(index, n, j, parity);
    }
}
