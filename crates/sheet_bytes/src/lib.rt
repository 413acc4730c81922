// Refusal 11: whether bytes are a circulant sheet, and what a sheet's heading and map say.
// Rests on `sheet`, `packed_word`, `byte_numbers` and `counting`. Document 02: card 5.
#![tactic(auto)]

ghost use Rattle.std.specs.Prelude.{◌≡◌, not, ◌||◌, ◌+◌, ◌*◌, ◌≤◌, ◌<◌, eqb, length};
ghost use Rattle.packed_word.specs.Paper.Packed.{bytes_for};
ghost use Rattle.byte_numbers.specs.Paper.Numbers.{number16};
ghost use Rattle.sheet.specs.Paper.Sheet.{map_bit, sheet_length, spare_map, shift_too_far, unlike_rows, no_sheet};
ghost use Rattle.sheet_bytes.specs.Parts.{Headed, Mapped, set_from, wrong_by_first};

// The numbers that a sheet starts with: block rows, block columns and block size, each of 16 bits.
// It is handed on beside the bytes, and not in one struct with them: the functions that docs/ names take both, and keep their signatures.
#[derive(Clone, Copy, Debug, PartialEq, Eq)]
pub struct Heading {
    pub rows: usize,
    pub columns: usize,
    pub size: usize,
}

// The 16-bit number at byte p, as a usize.
fn number_at(bytes: &[u8], p: usize) -> usize
    requires { p + 1 < length bytes.now }
    ensures { (result ≡ number16 bytes.now p) × (result < 65536) }
{
    byte_numbers::number16(bytes, p) as usize
}

// What the first six bytes say. Only this repository's crates call it, where there are six.
pub fn heading_of(bytes: &[u8]) -> Heading
    requires { 6 ≤ length bytes.now }
    ensures { Headed bytes.now result }
{
    let rows = number_at(bytes, 0);
    let columns = number_at(bytes, 2);
    let size = number_at(bytes, 4);
    Heading {
        rows,
        columns,
        size,
    }
}

// Place p of the map. Only this repository's crates call it, with a place that the bytes have.
pub fn map_bit(bytes: &[u8], p: usize) -> usize
    requires { (48 + p < 8 * length bytes.now) × (p < 8589934592) }
    ensures { result ≡ map_bit bytes.now p }
{
    packed_word::get_bit(bytes, 48 + p) as usize
}

// How many of `count` places of the map are set, from a place on. Only this repository's crates call it, with places that the bytes have.
pub fn set_from(bytes: &[u8], from: usize, count: usize) -> usize
    requires { (48 + (from + count) ≤ 8 * length bytes.now) × (from + count ≤ 8589934592) }
    ensures { result ≡ set_from bytes.now from count }
{
    // A `for`, as a sum over the mapped places is slower here.
    let mut found = 0;
    for c in 0..count {
        found += map_bit(bytes, from + c);
    }
    found
}

// How many bytes the map takes. Only this repository's crates call it, with numbers of 16 bits.
pub fn map_bytes(h: Heading) -> usize
    requires { (h.rows < 65536) × (h.columns < 65536) }
    ensures { result ≡ bytes_for (h.rows * h.columns) }
{
    (h.rows * h.columns + 7) / 8
}

// Whether a number of the heading is 0.
fn zero_size(h: Heading) -> bool
    ensures { result ≡ eqb h.rows 0 || (eqb h.columns 0 || eqb h.size 0) }
{
    (h.rows == 0) | ((h.columns == 0) | (h.size == 0))
}

// Whether there are fewer or more bytes than heading, map and shifts take, the first block row counted for all. So it is asked before all
// places of the map are read: where block rows are unlike the bytes are no sheet, whatever their number.
fn wrong_length(bytes: &[u8], h: Heading) -> bool
    requires { Headed bytes.now h × Mapped bytes.now }
    ensures { result ≡ wrong_by_first bytes.now }
{
    let shifts = 6 + map_bytes(h);
    let rho = set_from(bytes, 0, h.columns);
    bytes.len() != shifts + 2 * (h.rows * rho)
}

// Whether block rows have unlike numbers of set places. Each is held against the first.
fn unlike_rows(bytes: &[u8], h: Heading) -> bool
    requires { Headed bytes.now h × Mapped bytes.now }
    ensures { result ≡ unlike_rows bytes.now }
{
    let first = set_from(bytes, 0, h.columns);
    (1..h.rows).any(|r| set_from(bytes, r * h.columns, h.columns) != first)
}

// Whether a place of the map's last byte that stands for no block is set. There are at most seven such places.
// `packed_word::spare_set` asks it of a whole word of at most 1,023 bits; a map is a part of the bytes, of up to 65,535 × 65,535 places.
fn spare_set(bytes: &[u8], h: Heading) -> bool
    requires { Headed bytes.now h × Mapped bytes.now }
    ensures { result ≡ spare_map bytes.now }
{
    let places = h.rows * h.columns;
    (places..8 * map_bytes(h)).any(|p| map_bit(bytes, p) == 1)
}

// Whether a shift is not below the block size. What stands behind the map are the shifts, two bytes each.
fn shift_too_far(bytes: &[u8], h: Heading) -> bool
    requires { Headed bytes.now h × (length bytes.now ≡ sheet_length bytes.now) }
    ensures { result ≡ shift_too_far bytes.now }
{
    let shifts = 6 + map_bytes(h);
    let count = (bytes.len() - shifts) / 2;
    (0..count).any(|q| h.size <= number_at(bytes, shifts + 2 * q))
}

// Whether bytes with this heading are a sheet. The map is there before its first block row is read, the length fits before all others are,
// and the shifts are there before they are read.
fn sheet_under(bytes: &[u8], h: Heading) -> bool
    requires { Headed bytes.now h }
    ensures { result ≡ not (no_sheet bytes.now) }
{
    if zero_size(h) {
        return false;
    }
    if bytes.len() < 6 + map_bytes(h) {
        return false;
    }
    if wrong_length(bytes, h) {
        return false;
    }
    if unlike_rows(bytes, h) {
        return false;
    }
    !spare_set(bytes, h) & !shift_too_far(bytes, h)
}

// Whether bytes are a sheet. No input needs to be looked at before.
pub fn is_sheet(bytes: &[u8]) -> bool
    ensures { result ≡ not (no_sheet bytes.now) }
{
    if bytes.len() < 6 {
        return false;
    }
    sheet_under(bytes, heading_of(bytes))
}
