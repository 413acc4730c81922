// A sheet turned into a list: sizes and list are made, checked as any others, and only then written.
// Rests on `sheet_rows`, `sheet_bytes`, `matrix_check` and `answers`. Document 02: card 5; refusals 11, 1 to 5 and 7.
#![tactic(auto)]

ghost use Rattle.std.specs.Prelude.{◌≤◌, ◌≡◌, [], length};
ghost use Rattle.counting.specs.Paper.Lists.{over};
ghost use Rattle.answers.specs.Paper.Enums.{verdict_of};
ghost use Rattle.matrix.specs.Paper.PlainCheck.{Accepted};
ghost use Rattle.matrix.specs.Paper.Shapes.{matrix_of};
ghost use Rattle.sheet.specs.Paper.PlainSheet.{IsSheet};
ghost use Rattle.sheet.specs.Paper.SheetMatrix.{matrix_of_sheet};
ghost use Rattle.sheet.specs.Paper.Calls.{sizes_of};
ghost use Rattle.sheet_to_list.specs.Paper.Call.{SheetAnswered};
ghost use Rattle.sheet_to_list.specs.Parts.{MatrixAnswered, Small, Made};

use answers::Refusal;
use matrix_check::Shape;
use sheet_bytes::Heading;

// Writes the four sizes at the front of the memory. The rest stays.
fn put_sizes(shape: Shape, sizes: &mut [u16])
    requires { 4 ≤ length sizes.old }
    ensures { sizes.new ≡ over (sizes_of (matrix_of shape [])) sizes.old }
{
    sizes[..4].copy_from_slice(&[shape.n, shape.m, shape.rho, shape.gamma]);
}

// Refusal 7 for one of the two buffers, then sizes and list are written.
fn on_accepted(
    shape: Shape,
    made: &[u16],
    sizes: &mut [u16],
    list: &mut [u16],
) -> Result<(), Refusal>
    requires { Accepted (matrix_of shape made.now) }
    ensures { MatrixAnswered (matrix_of shape made.now) sizes.old sizes.new list.old list.new (verdict_of result) }
{
    let count = made.len();
    if sizes.len() < 4 {
        return Err(Refusal::Buffer);
    }
    if list.len() < count {
        return Err(Refusal::Buffer);
    }
    put_sizes(shape, sizes);
    list[..count].copy_from_slice(made);
    Ok(())
}

// The matrix check, then the rest.
fn on_list(shape: Shape, made: &[u16], sizes: &mut [u16], list: &mut [u16]) -> Result<(), Refusal>
    ensures { MatrixAnswered (matrix_of shape made.now) sizes.old sizes.new list.old list.new (verdict_of result) }
{
    matrix_check::check(shape, made)?;
    on_accepted(shape, made, sizes, list)
}

// The list is made beside the caller's memory, which keeps its own until the check is passed.
fn on_sizes(
    sheet: &[u8],
    h: Heading,
    shape: Shape,
    sizes: &mut [u16],
    list: &mut [u16],
) -> Result<(), Refusal>
    requires { Made sheet.now h shape }
    ensures { MatrixAnswered (matrix_of_sheet sheet.now) sizes.old sizes.new list.old list.new (verdict_of result) }
{
    let rho = shape.rho as usize;
    let count = (shape.m as usize) * rho;
    let mut made = [0u16; 32736];
    sheet_rows::put_list(sheet, h, rho, &mut made);
    on_list(shape, &made[..count], sizes, list)
}

// The sizes of a sheet.
fn shape_of(sheet: &[u8], h: Heading) -> Shape
    requires { Small sheet.now h }
    ensures { matrix_of result (matrix_of_sheet sheet.now).list ≡ matrix_of_sheet sheet.now }
{
    let n = h.columns * h.size;
    let m = h.rows * h.size;
    let rho = sheet_bytes::set_from(sheet, 0, h.columns);
    let gamma = sheet_rows::fewest(sheet, h);
    Shape {
        n: n as u16,
        m: m as u16,
        rho: rho as u16,
        gamma: gamma as u16,
    }
}

// Refusal 1 before the list is made: only then is there room for it.
fn on_small(sheet: &[u8], h: Heading, sizes: &mut [u16], list: &mut [u16]) -> Result<(), Refusal>
    requires { Small sheet.now h }
    ensures { MatrixAnswered (matrix_of_sheet sheet.now) sizes.old sizes.new list.old list.new (verdict_of result) }
{
    let shape = shape_of(sheet, h);
    if !matrix_check::sizes_fit(shape) {
        return Err(Refusal::Sizes);
    }
    on_sizes(sheet, h, shape, sizes, list)
}

// Refusal 1 for n or m out of range, before both become numbers of 16 bits.
fn on_sheet(sheet: &[u8], sizes: &mut [u16], list: &mut [u16]) -> Result<(), Refusal>
    requires { IsSheet sheet.now }
    ensures { MatrixAnswered (matrix_of_sheet sheet.now) sizes.old sizes.new list.old list.new (verdict_of result) }
{
    let h = sheet_bytes::heading_of(sheet);
    if h.columns * h.size > 1023 {
        return Err(Refusal::Sizes);
    }
    if h.rows * h.size > 1023 {
        return Err(Refusal::Sizes);
    }
    on_small(sheet, h, sizes, list)
}

// A sheet turned into sizes and list, at the front of two buffers. A refused call writes nothing.
pub fn sheet_to_list(sheet: &[u8], sizes: &mut [u16], list: &mut [u16]) -> Result<(), Refusal>
    ensures { SheetAnswered sheet.now sizes.old sizes.new list.old list.new (verdict_of result) }
{
    if !sheet_bytes::is_sheet(sheet) {
        return Err(Refusal::Sheet);
    }
    on_sheet(sheet, sizes, list)
}
