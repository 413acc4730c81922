// Writing the sheet of a matrix: its heading, its map of set blocks, its shifts.
// Rests on `sheet`, `matrix_check`, `matrix`, `packed_word` and `byte_numbers`. Document 02: card 5.
#![tactic(auto)]

ghost use Rattle.std.specs.Prelude.{ℕ, ◌+◌, ◌*◌, ◌/◌, ◌≤◌, ◌<◌, ◌≡◌, true, List, length};
ghost use Rattle.std.proofs.lemmas.List.Edits.{sets};
ghost use Rattle.counting.specs.Paper.Joined.{joined};
ghost use Rattle.counting.specs.Paper.Lists.{over};
ghost use Rattle.packed_word.specs.Paper.Packed.{bytes_for, pack};
ghost use Rattle.matrix.specs.Paper.PlainCheck.{Accepted};
ghost use Rattle.matrix.specs.Paper.Shapes.{matrix_of};
ghost use Rattle.sheet.specs.Paper.MatrixSheet.{in_block, sheet_of, describes};
ghost use Rattle.sheet.specs.Parts.{Grid};
ghost use Rattle.sheet_store.specs.Storing.{head_bytes, row_shifts, Marked};

use matrix_check::Shape;

// J, K and Z, the first six bytes.
fn put_heading(rows: u16, columns: u16, size: u16, sheet: &mut [u8])
    requires { 6 ≤ length sheet.old }
    ensures { sheet.new ≡ sets sheet.old 0 (head_bytes rows columns size) }
{
    byte_numbers::put16(rows, 0, sheet);
    byte_numbers::put16(columns, 2, sheet);
    byte_numbers::put16(size, 4, sheet);
}

// Sets the places of the blocks of block row r: its first row has its ones there.
fn mark_row(shape: Shape, list: &[u16], z: usize, r: usize, map: &mut [u8])
    requires { Accepted (matrix_of shape list.now) × Grid (matrix_of shape list.now) z × (r < shape.m / z) × Marked (matrix_of shape list.now) z r 0 map.old }
    ensures { Marked (matrix_of shape list.now) z (r + 1) 0 map.new }
{
    let rho = shape.rho as usize;
    let columns = shape.n as usize / z;
    for k in 0..rho {
        let e = matrix::column(shape, list, r * z, k);
        packed_word::set_bit(map, r * columns + e / z);
    }
}

// The map, in just its bytes. What stood there does not matter.
fn put_map(shape: Shape, list: &[u16], z: usize, map: &mut [u8])
    requires { Accepted (matrix_of shape list.now) × Grid (matrix_of shape list.now) z × (length map.old ≡ bytes_for (shape.m / z * (shape.n / z))) }
    ensures { map.new ≡ pack (shape.m / z * (shape.n / z)) (in_block (matrix_of shape list.now) z) }
{
    let rows = shape.m as usize / z;
    map.fill(0);
    for r in 0..rows {
        mark_row(shape, list, z, r, map);
    }
}

// The shifts of block row r, from byte p on.
fn put_row_shifts(shape: Shape, list: &[u16], z: usize, r: usize, p: usize, sheet: &mut [u8])
    requires { Accepted (matrix_of shape list.now) × Grid (matrix_of shape list.now) z × (r < shape.m / z) × (p + 2 * shape.rho ≤ length sheet.old) }
    ensures { sheet.new ≡ sets sheet.old p (row_shifts (matrix_of shape list.now) z r) }
{
    let rho = shape.rho as usize;
    for k in 0..rho {
        let e = matrix::column(shape, list, r * z, k);
        byte_numbers::put16((e % z) as u16, p + 2 * k, sheet);
    }
}

// All shifts, from a byte on.
fn put_shifts(shape: Shape, list: &[u16], z: usize, from: usize, sheet: &mut [u8])
    requires { Accepted (matrix_of shape list.now) × Grid (matrix_of shape list.now) z × (from + 2 * (shape.m / z * shape.rho) ≤ length sheet.old) }
    ensures { sheet.new ≡ sets sheet.old from (joined (shape.m / z) (row_shifts (matrix_of shape list.now) z)) }
{
    let rho = shape.rho as usize;
    let rows = shape.m as usize / z;
    for r in 0..rows {
        put_row_shifts(shape, list, z, r, from + 2 * (r * rho), sheet);
    }
}

// How many bytes the sheet has: the sizes tell it. Only this repository's crates call it, after the check.
pub fn sheet_length(shape: Shape, z: u16) -> usize
    requires { (shape.n ≤ 1023) × (shape.m ≤ 1023) × (shape.rho ≤ 32) × (0 < z) }
    ensures { ((list : List ℕ) → result ≡ length (sheet_of (matrix_of shape list) z)) × (result ≤ 196295) }
{
    let rows = (shape.m / z) as usize;
    let columns = (shape.n / z) as usize;
    let rho = shape.rho as usize;
    6 + (rows * columns + 7) / 8 + 2 * (rows * rho)
}

// Writes the sheet at the front of the buffer. The rest stays.
// Only this repository's crates call it, after the check, where a sheet with that Z describes the matrix and has room.
pub fn store(shape: Shape, list: &[u16], z: u16, sheet: &mut [u8])
    requires { Accepted (matrix_of shape list.now) × (describes (matrix_of shape list.now) z ≡ true) × (length (sheet_of (matrix_of shape list.now) z) ≤ length sheet.old) }
    ensures { sheet.new ≡ over (sheet_of (matrix_of shape list.now) z) sheet.old }
{
    let rows = shape.m / z;
    let columns = shape.n / z;
    let from = 6;
    let end = from + (rows as usize * columns as usize + 7) / 8;
    put_heading(rows, columns, z, sheet);
    put_map(shape, list, z as usize, &mut sheet[from..end]);
    put_shifts(shape, list, z as usize, end, sheet);
}
