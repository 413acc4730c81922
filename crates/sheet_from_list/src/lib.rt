// List to sheet as a call: what is asked before, and the sheet in a lent buffer.
// Rests on `sheet_store`, `sheet_blocks` and `matrix_check`. Document 02: card 5; refusals 1 to 5, 12 and 7.
#![tactic(auto)]

ghost use Rattle.std.specs.Prelude.{true, ◌≡◌};
ghost use Rattle.answers.specs.Paper.Enums.{stored_of};
ghost use Rattle.matrix.specs.Paper.PlainCheck.{Accepted};
ghost use Rattle.matrix.specs.Paper.Shapes.{matrix_of};
ghost use Rattle.sheet.specs.Paper.MatrixSheet.{describes};
ghost use Rattle.sheet_from_list.specs.Paper.Call.{SheetAnswered};

use answers::Refusal;
use matrix_check::Shape;

// Refusal 7 for a buffer too short, then the sheet.
fn on_described(shape: Shape, list: &[u16], z: u16, sheet: &mut [u8]) -> Result<u32, Refusal>
    requires { Accepted (matrix_of shape list.now) × (describes (matrix_of shape list.now) z ≡ true) }
    ensures { SheetAnswered (matrix_of shape list.now) z sheet.old sheet.new (stored_of result) }
{
    let length = sheet_store::sheet_length(shape, z);
    if sheet.len() < length {
        return Err(Refusal::Buffer);
    }
    sheet_store::store(shape, list, z, sheet);
    let bytes = length as u32;
    Ok(bytes)
}

// Refusal 12 for a matrix that no sheet with that Z describes, then what follows.
fn on_accepted(shape: Shape, list: &[u16], z: u16, sheet: &mut [u8]) -> Result<u32, Refusal>
    requires { Accepted (matrix_of shape list.now) }
    ensures { SheetAnswered (matrix_of shape list.now) z sheet.old sheet.new (stored_of result) }
{
    if !sheet_blocks::described(shape, list, z) {
        return Err(Refusal::NoSheet);
    }
    on_described(shape, list, z, sheet)
}

// The sheet of a list with a given Z, at the front of a buffer, and how many bytes it has. A refused call writes nothing.
pub fn sheet_from_list(shape: Shape, list: &[u16], z: u16, sheet: &mut [u8]) -> Result<u32, Refusal>
    ensures { SheetAnswered (matrix_of shape list.now) z sheet.old sheet.new (stored_of result) }
{
    matrix_check::check(shape, list)?;
    on_accepted(shape, list, z, sheet)
}
