// The count of changed bits where samples were lent: which places count, and how many of them a word has turned over.
// A mark is the bit at opening, or 2 where the level at opening is 0: what a decoder keeps while its levels and bits move on.
// Rests on `quantiser_levels` for the cells of levels, on `packed_distance`, `packed_word` and `counting`. Document 02: cards 4 and 6.
#![tactic(auto)]

ghost use Rattle.std.specs.Prelude.{◌≡◌, ℕ, ◌*◌, ◌-◌, ◌<◌, ◌≤◌, length};
ghost use Rattle.counting.specs.Paper.Sum.{same};
ghost use Rattle.counting.specs.Paper.Lists.{listed, over};
ghost use Rattle.counting.specs.Places.{at};
ghost use Rattle.packed_word.specs.Paper.Packed.{bit_at};
ghost use Rattle.iterative_changed.specs.Paper.Changed.{decided_in, changed, level_at};
ghost use Rattle.iterative_changed.specs.Marks.{mark_of, marked_by, turned_at, turned_below};

use quantiser_levels::Cell;

// The mark of a place: its bit, or 2 where its level is 0.
fn mark_one(r: Cell, z: u8) -> u8
    ensures { result ≡ mark_of r z }
{
    if r == 0 { 2 } else { z }
}

// Marks the first n places; the cells past them stay. Only this repository's crates call it, with a level for each place.
#[tactic(auto, using(counting::proofs::Loops::over_start, counting::proofs::Loops::over_step))]
pub fn mark(opened: &[Cell], bits: &[u8; 1023], n: usize, marks: &mut [u8; 1023])
    requires { (n ≤ 1023) × (n ≤ length opened.now) × (length marks.old ≡ 1023) }
    ensures { marks.new ≡ over (listed n (marked_by opened.now (at bits.now))) marks.old }
{
    for j in 0..n {
        marks[j] = mark_one(opened[j], bits[j]);
    }
}

// Whether a mark is the other bit than z, as a bit.
#[tactic(auto, unfolding(counting::specs::Paper::Sum::same))]
fn turned_one(mark: u8, z: u8) -> u8
    requires { z < 2 }
    ensures { result ≡ same mark (1 - z) }
{
    (mark == 1 - z) as u8
}

// The places that were turned over, as bits: 1 where the mark is the other bit. The cells past the first n stay.
#[tactic(auto, using(counting::proofs::Loops::over_start, counting::proofs::Loops::over_step))]
fn put_turned(marks: &[u8; 1023], bits: &[u8; 1023], n: usize, places: &mut [u8; 1023])
    requires { (n ≤ 1023) × (length places.old ≡ 1023) × ((j : ℕ) → j < n → at bits.now j < 2) }
    ensures { places.new ≡ over (listed n (turned_at (at marks.now) (at bits.now))) places.old }
{
    for j in 0..n {
        places[j] = turned_one(marks[j], bits[j]);
    }
}

// How many of the first n marks are the other bit: the places that were turned over are packed, and their ones counted sixty-four at a time.
// Only this repository's crates call it, with bits.
pub fn turned(marks: &[u8; 1023], bits: &[u8; 1023], n: usize) -> u16
    requires { (n ≤ 1023) × ((j : ℕ) → j < n → at bits.now j < 2) }
    ensures { result ≡ turned_below n (at marks.now) (at bits.now) }
{
    let bytes = (n + 7) / 8;
    let none = [0u8; 128];
    let mut places = [0u8; 1023];
    let mut packed = [0u8; 128];
    put_turned(marks, bits, n, &mut places);
    packed_word::pack_into(&places, n, &mut packed);
    packed_distance::differing(&packed[..bytes], &none[..bytes])
}

// At how many places that had a level at opening the word differs from the received one. Both are packed.
// Only this repository's crates call it, with the bytes of n bits and n levels.
pub fn changed_since(received: &[u8], opened: &[Cell], word: &[u8], n: usize) -> u16
    requires { (n ≤ 1023) × (n ≤ 8 * length received.now) × (n ≤ length opened.now) × (n ≤ 8 * length word.now) }
    ensures { result ≡ changed n (decided_in (level_at opened.now)) (bit_at word.now) (bit_at received.now) }
{
    let mut hard = [0u8; 1023];
    let mut bits = [0u8; 1023];
    let mut marks = [0u8; 1023];
    packed_word::unpack(received, n, &mut hard);
    packed_word::unpack(word, n, &mut bits);
    mark(opened, &hard, n, &mut marks);
    turned(&marks, &bits, n)
}
