// What a run keeps for its blocks: the table of least magnitudes of its setting, and behind it its matrix as sets.
// Rests on `quantiser_table` and `matrix_sets`. Document 01: "Worked by hand", the paragraph on the program.
#![tactic(auto)]

ghost use Rattle.std.specs.Prelude.{◌≡◌, true, ◌≤◌, length};
ghost use Rattle.counting.specs.Paper.Lists.{over};
ghost use Rattle.matrix.specs.Paper.PlainCheck.{Accepted};
ghost use Rattle.matrix.specs.Paper.Shapes.{matrix_of};
ghost use Rattle.quantiser_levels.specs.Paper.Samples.{setting_fits};
ghost use Rattle.quantiser_settings.specs.Paper.Settings.{setting_of};
ghost use Rattle.program_tables.specs.Tables.{tables_size, tables_of};

use matrix_check::Shape;
use quantiser_settings::Setting;

// Where the sets begin: behind the least magnitudes of 0 to 2,049.
pub const SETS: usize = 2050;

// Writes the tables at the front of `tables`; the cells past them stay. Only this repository's crates call it, with what is accepted and room for them.
pub fn build(shape: Shape, list: &[u16], setting: Setting, tables: &mut [u64])
    requires { Accepted (matrix_of shape list.now) × (setting_fits (setting_of setting) ≡ true) × (tables_size (matrix_of shape list.now) ≤ length tables.old) }
    ensures { tables.new ≡ over (tables_of (matrix_of shape list.now) (setting_of setting)) tables.old }
{
    let from = SETS;
    quantiser_table::build(setting, &mut tables[..from]);
    matrix_sets::build(shape, list, &mut tables[from..]);
}
