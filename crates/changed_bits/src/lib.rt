// At how many places two runs of bytes differ: the count of changed bits as a call.
// Rests on `packed_distance` and `answers`. The count is document 02's, card 4; the call and what it refuses are this project's own.
#![tactic(auto)]

ghost use Rattle.std.specs.Prelude.{◌≡◌};
ghost use Rattle.answers.specs.Paper.Enums.{said_of};
ghost use Rattle.changed_bits.specs.Paper.Call.{changed_of};

use answers::{Refusal, Report, ended};
use packed_distance::differing;

// The bytes of the longest word, of 1,023 bits.
const MOST_BYTES: usize = 128;

// At how many places two runs of bytes differ, as the changed bits of a report. No input needs to be looked at before.
pub fn changed(a: &[u8], b: &[u8]) -> Result<Report, Refusal>
    ensures { said_of result ≡ changed_of a.now b.now }
{
    if a.len() != b.len() {
        return Err(Refusal::Buffer);
    }
    if a.len() > MOST_BYTES {
        return Err(Refusal::Buffer);
    }
    Ok(ended(0, 0, differing(a, b)))
}
