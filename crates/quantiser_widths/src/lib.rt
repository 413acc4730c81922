// Stored levels of eight bits brought over to sixteen, and taken back.
// Rests on `answers`, `counting` and, for the cells of levels, `quantiser_levels`. Document 02: card 7; refusals 7 and 13.
#![tactic(auto)]

ghost use Rattle.std.specs.Prelude.{◌≡◌, ◌≤◌, ◌<◌, ltb, nat_abs, length, MatchOption};
ghost use Rattle.counting.specs.Paper.Lists.{over};
ghost use Rattle.answers.specs.Paper.Enums.{verdict_of};
ghost use Rattle.quantiser_widths.specs.Paper.Widths.{most_old, first_too_far, Widened, Narrowed};

use answers::Refusal;
use quantiser_levels::Cell;

// A level as it was stored before: of eight bits.
pub type Old = i8;

// The most levels that are taken back in one call: a refusal's place has 16 bits.
const MOST_LEVELS: usize = 65536;

// Brings each old level over. The caller has asked that there is room for them.
fn widen_into(old: &[Old], levels: &mut [Cell])
    requires { length old.now ≤ length levels.old }
    ensures { levels.new ≡ over old.now levels.old }
{
    for (j, r) in old.iter().enumerate() {
        levels[j] = Cell::from(*r);
    }
}

// Writes the old levels as the same numbers, or says that there is no room for them and writes nothing.
pub fn widen(old: &[Old], levels: &mut [Cell]) -> Result<(), Refusal>
    ensures { Widened old.now (verdict_of result) levels.old levels.new }
{
    if levels.len() < old.len() {
        return Err(Refusal::Buffer);
    }
    widen_into(old, levels);
    Ok(())
}

// Whether a level does not lie within -127 to 127.
fn is_too_far(r: Cell) -> bool
    ensures { result ≡ ltb most_old (nat_abs r) }
{
    r < -127 || 127 < r
}

// The place of the first level that does not lie within -127 to 127, if there is one.
fn first_too_far(levels: &[Cell]) -> Option<usize>
    ensures { MatchOption result (first_too_far levels.now ≡ length levels.now) (λ i. (i ≡ first_too_far levels.now) × (i < length levels.now)) }
{
    levels.iter().position(|r| is_too_far(*r))
}

// Takes each level back. The caller has asked that there is room for them, and that each lies within -127 to 127.
// It is not one with `widen_into`: there every number fits, here a cast has a range to keep to.
fn narrow_into(levels: &[Cell], old: &mut [Old])
    requires { (length levels.now ≤ length old.old) × (first_too_far levels.now ≡ length levels.now) }
    ensures { old.new ≡ over levels.now old.old }
{
    for (j, r) in levels.iter().enumerate() {
        old[j] = *r as Old;
    }
}

// Writes the levels as old ones, the same numbers, or says why not and writes nothing.
pub fn narrow(levels: &[Cell], old: &mut [Old]) -> Result<(), Refusal>
    ensures { Narrowed levels.now (verdict_of result) old.old old.new }
{
    let n = levels.len();
    if MOST_LEVELS < n {
        return Err(Refusal::Buffer);
    }
    if old.len() < n {
        return Err(Refusal::Buffer);
    }
    // Compared, and not matched on: else the compiler's loop counts in the number that the C call answers, two instructions more for each level.
    let place = first_too_far(levels).unwrap_or(n);
    if place < n {
        return Err(Refusal::Level(place as u16));
    }
    narrow_into(levels, old);
    Ok(())
}
