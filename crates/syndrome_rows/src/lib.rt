// The checks that one set has and another has not, listed.
// Rests on the definitions of `syndrome_words` and `syndrome`. Document 01: "Iterative voting", step 4.
#![tactic(auto)]

ghost use Rattle.std.specs.Prelude.{◌≤◌, ◌≡◌, length};
ghost use Rattle.syndrome.specs.Places.{Places};
ghost use Rattle.syndrome_rows.specs.Words.{OnesListed, OnesFit};
ghost use Rattle.syndrome_words.specs.Sets.{Within, only_in};

// Lists the places of the ones of a word, from the lowest, each with `first` added, behind the first t of `rows`; says how many are listed then.
fn list_word(x: u64, first: u16, rows: &mut [u16], t: usize) -> usize
    requires { OnesFit x first t rows.old }
    ensures { OnesListed x first t rows.old rows.new result }
{
    let mut y = x;
    let mut t = t;
    // Goes on while a one is left, and takes the lowest away: no index is counted.
    while y != 0 {
        rows[t] = first + y.trailing_zeros() as u16;
        t += 1;
        y &= y - 1;
    }
    t
}

// Lists at the front of `rows` the checks below m that the set a has and the set b has not, and says how many they are.
// What the cells past them hold does not matter. Only this repository's crates call it, with sets of the checks of an accepted matrix.
pub fn list_only(m: usize, a: &[u64; 16], b: &[u64; 16], rows: &mut [u16]) -> usize
    requires { (m ≤ 1023) × Within m a.now × (length rows.old ≡ 1023) }
    ensures { Places (only_in a.now b.now) m rows.new result }
{
    let mut t = 0;
    for w in 0..m.div_ceil(64) {
        let x = a[w];
        t = list_word(x & (x ^ b[w]), 64 * (w as u16), rows, t);
    }
    t
}
