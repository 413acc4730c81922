// Circulant sheets: what a sheet is, the matrix of a sheet and the sheet of a matrix (specs/), with their laws (proofs/).
// Rests on `matrix`, `packed_word`, `byte_numbers` and `answers`; its one function turns a shift. Document 02: card 5.
#![tactic(auto)]

ghost use Rattle.std.specs.Prelude.{◌+◌, ◌%◌, ◌<◌, ◌≡◌};

// How far behind the block's start the one stands i rows further down: behind the block's end it goes on at the start. It stands in the loops
// that take the time, so it has no division. Only this repository's crates call it, with a shift and a row of the block.
pub fn turn(shift: u16, i: u16, z: u16) -> u16
    requires { (shift < z) × (i < z) }
    ensures { result ≡ (i + shift) % z }
{
    let left = z - i;
    if shift < left {
        return shift + i;
    }
    shift - left
}
