// The list of a sheet: its rows written one after the other, and the fewest set places of a block column.
// Rests on `sheet_bytes`, `sheet` and `byte_numbers`. Document 02: card 5.
#![tactic(auto)]

ghost use Rattle.std.specs.Prelude.{◌+◌, ◌*◌, ◌%◌, ◌≤◌, ◌<◌, ◌≡◌, length};
ghost use Rattle.counting.specs.Paper.Lists.{listed, over};
ghost use Rattle.counting.specs.Paper.Sum.{least};
ghost use Rattle.sheet.specs.Paper.Sheet.{block_rows, block_columns, set_down};
ghost use Rattle.sheet.specs.Paper.PlainSheet.{IsSheet};
ghost use Rattle.sheet.specs.Paper.SheetMatrix.{matrix_of_sheet};
ghost use Rattle.sheet.specs.Parts.{entry_of};
ghost use Rattle.sheet_bytes.specs.Parts.{Headed};
ghost use Rattle.sheet_rows.specs.Parts.{shift_from, turned_at, put_from, put_rows, SheetLent, Starts, Blocks};

use sheet::turn;
use sheet_bytes::{Heading, map_bit, map_bytes};

// Writes a row at place p: row i of the shifted blocks that start at these columns. This is the loop that takes the time, so it has no division.
fn put_row(
    starts: &[u16; 33],
    shifts: &[u16; 33],
    rho: usize,
    z: u16,
    i: u16,
    p: usize,
    list: &mut [u16],
)
    requires { Blocks starts.now shifts.now rho z × (i < z) × (p + rho ≤ length list.old) }
    ensures { list.new ≡ put_from p rho (turned_at starts.now shifts.now z i) list.old }
{
    for k in 0..rho {
        list[p + k] = starts[k] + turn(shifts[k], i, z);
    }
}

// Writes the rows of a block row, one after the other from place p on.
fn put_block(starts: &[u16; 33], shifts: &[u16; 33], rho: usize, z: u16, p: usize, list: &mut [u16])
    requires { Blocks starts.now shifts.now rho z × (p + z * rho ≤ length list.old) }
    ensures { list.new ≡ put_rows p rho (turned_at starts.now shifts.now z) z list.old }
{
    for i in 0..z {
        put_row(starts, shifts, rho, z, i, p + i as usize * rho, list);
    }
}

// The columns at which the set blocks of block row r start. Each block writes its own at the next place, and only a set one keeps it:
// k counts the set blocks, not the turns.
fn read_starts(bytes: &[u8], h: Heading, rho: usize, r: usize, starts: &mut [u16])
    requires { SheetLent bytes.now h rho × (r < h.rows) × (length starts.old ≡ 33) }
    ensures { Starts bytes.now r (block_columns bytes.now) starts.new }
{
    let mut k = 0;
    for c in 0..h.columns {
        starts[k] = (c * h.size) as u16;
        k += map_bit(bytes, r * h.columns + c);
    }
}

// The shifts of block row r: rho of them stand behind those of each block row before it.
fn read_shifts(bytes: &[u8], h: Heading, rho: usize, r: usize, shifts: &mut [u16])
    requires { SheetLent bytes.now h rho × (r < h.rows) × (length shifts.old ≡ 33) }
    ensures { shifts.new ≡ over (listed rho (shift_from bytes.now (r * rho))) shifts.old }
{
    let first = 6 + map_bytes(h) + 2 * (r * rho);
    byte_numbers::entries(&bytes[first..first + 2 * rho], shifts);
}

// Writes the rows of block row r where they stand in the list.
fn put_block_row(bytes: &[u8], h: Heading, rho: usize, r: usize, list: &mut [u16])
    requires { SheetLent bytes.now h rho × (r < h.rows) × (h.rows * (h.size * rho) ≤ length list.old) }
    ensures { list.new ≡ put_rows (r * (h.size * rho)) rho (entry_of bytes.now r) h.size list.old }
{
    let mut starts = [0u16; 33];
    let mut shifts = [0u16; 33];
    read_starts(bytes, h, rho, r, &mut starts);
    read_shifts(bytes, h, rho, r, &mut shifts);
    put_block(
        &starts,
        &shifts,
        rho,
        h.size as u16,
        r * (h.size * rho),
        list,
    );
}

// Writes the list of a sheet at the front of the memory. The rest stays.
// Only this repository's crates call it, on a sheet of at most 1,023 rows and columns with at most 32 set places in a block row.
pub fn put_list(bytes: &[u8], h: Heading, rho: usize, list: &mut [u16])
    requires { SheetLent bytes.now h rho × (h.rows * h.size * rho ≤ length list.old) }
    ensures { list.new ≡ over (matrix_of_sheet bytes.now).list list.old }
{
    for r in 0..h.rows {
        put_block_row(bytes, h, rho, r, list);
    }
}

// The set places of block column c.
fn set_down(bytes: &[u8], h: Heading, c: usize) -> usize
    requires { IsSheet bytes.now × Headed bytes.now h × (c < h.columns) }
    ensures { (result ≡ set_down bytes.now c) × (result ≤ h.rows) }
{
    (0..h.rows).map(|r| map_bit(bytes, r * h.columns + c)).sum()
}

// The fewest set places of a block column. Only this repository's crates call it, on a sheet.
pub fn fewest(bytes: &[u8], h: Heading) -> usize
    requires { IsSheet bytes.now × Headed bytes.now h }
    ensures { result ≡ least (block_rows bytes.now) (block_columns bytes.now) (set_down bytes.now) }
{
    let mut low = h.rows;
    for c in 0..h.columns {
        low = low.min(set_down(bytes, h, c));
    }
    low
}
