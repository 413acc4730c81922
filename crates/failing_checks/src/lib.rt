// How many checks of a received word fail: the whole call.
// Rests on `syndrome`, `matrix_check` and `packed_word`. Document 01: "The code and the block"; refusals 1 to 5, 7 and 9.
#![tactic(auto)]

ghost use Rattle.std.specs.Prelude.{◌≡◌, length};
ghost use Rattle.answers.specs.Paper.Enums.{counted_of};
ghost use Rattle.packed_word.specs.Paper.Packed.{bit_at, bytes_for};
ghost use Rattle.matrix.specs.Paper.Code.{failing};
ghost use Rattle.matrix.specs.Paper.PlainCheck.{Accepted};
ghost use Rattle.matrix.specs.Paper.Shapes.{matrix_of};
ghost use Rattle.syndrome.specs.Paper.Failing.{failing_of};

use answers::Refusal;
use matrix_check::{Shape, check};
use packed_word::unpack;
use syndrome::{ask_word, failing_count};

// The failing checks of a received word that has its bytes.
fn count(shape: Shape, list: &[u16], received: &[u8]) -> u16
    requires { Accepted (matrix_of shape list.now) × (length received.now ≡ bytes_for shape.n) }
    ensures { result ≡ failing (matrix_of shape list.now) (bit_at received.now) }
{
    let n = shape.n as usize;
    let mut bits = [0u8; 1023];
    unpack(received, n, &mut bits);
    failing_count(shape, list, &bits)
}

// What is asked of the received word once the matrix is accepted, then its failing checks. Nothing is written.
fn failing_accepted(shape: Shape, list: &[u16], received: &[u8]) -> Result<u16, Refusal>
    requires { Accepted (matrix_of shape list.now) }
    ensures { counted_of result ≡ failing_of (matrix_of shape list.now) received.now }
{
    let n = shape.n as usize;
    let need = (n + 7) / 8;
    ask_word(n, received, need, n)?;
    Ok(count(shape, list, received))
}

// How many checks of a received word fail. No input needs to be looked at before.
pub fn failing(shape: Shape, list: &[u16], received: &[u8]) -> Result<u16, Refusal>
    ensures { counted_of result ≡ failing_of (matrix_of shape list.now) received.now }
{
    check(shape, list)?;
    failing_accepted(shape, list, received)
}
