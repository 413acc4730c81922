// How many blocks of the input are read at once. The stages of the run (`program_ends`) read turn by turn.
// Document 01: "Worked by hand", the paragraph on the program.
#![tactic(auto)]

ghost use Rattle.std.specs.Prelude.{◌≤◌};
ghost use Rattle.program_turns.specs.Turns.{AtOnce};

// What fits the input buffer, at most 200, whose lines fit the output buffer, and no more than are left of 65,535.
// Only this repository's crates call it, with a block length in range.
pub fn at_once(n: usize, number: u16) -> usize
    requires { (2 ≤ n) × (n ≤ 1023) }
    ensures { AtOnce n number result }
{
    let left = 65535 - number as usize;
    (16368 / n).min(200).min(left)
}
