// The lines of blocks of samples, as functions on slices: line after line, and `short` at an end inside a block.
// Rests on `program_block` and `program_text`; the tables are lent. Document 01: "Worked by hand", the paragraph on the program.
#![tactic(auto)]

ghost use Rattle.std.specs.Prelude.{◌≡◌, ◌+◌, ◌*◌};
ghost use Rattle.matrix.specs.Paper.Shapes.{matrix_of};
ghost use Rattle.quantiser_settings.specs.Paper.Settings.{setting_of};
ghost use Rattle.program_numerals.specs.Texts.{PutWithin};
ghost use Rattle.program_tables.specs.Tables.{tables_of};
ghost use Rattle.program_lines.specs.Loans.{Countable};
ghost use Rattle.program_lines.specs.Paper.Blocks.{blocks_in, block_lines, chunk_text};

use matrix_check::Shape;
use program_block::block;
use quantiser::Setting;

// The lines of the whole blocks that the bytes begin with, numbered from `number`.
fn lines(
    shape: Shape,
    list: &[u16],
    tables: &[u64],
    setting: Setting,
    number: u16,
    bytes: &[u8],
    out: &mut [u8],
    at: usize,
) -> usize
    requires { Countable (matrix_of shape list.now) (setting_of setting) number bytes.now at out.old × (tables.now ≡ tables_of (matrix_of shape list.now) (setting_of setting)) }
    ensures { PutWithin (289 * blocks_in (matrix_of shape list.now) bytes.now) (block_lines (matrix_of shape list.now) (setting_of setting) number (blocks_in (matrix_of shape list.now) bytes.now) bytes.now) at out.old out.new result }
{
    let size = 4 * (shape.n as usize);
    let mut next = number;
    let mut end = at;
    for samples in bytes.chunks_exact(size) {
        end = block(shape, list, tables, setting, next, samples, out, end);
        next += 1;
    }
    end
}

// The lines of the blocks, and `short` where the bytes end inside a block.
// Only this repository's crates call it, after asking refusals 1 to 6, with the tables of the run.
pub fn chunk(
    shape: Shape,
    list: &[u16],
    tables: &[u64],
    setting: Setting,
    number: u16,
    bytes: &[u8],
    out: &mut [u8],
    at: usize,
) -> usize
    requires { Countable (matrix_of shape list.now) (setting_of setting) number bytes.now at out.old × (tables.now ≡ tables_of (matrix_of shape list.now) (setting_of setting)) }
    ensures { PutWithin (289 * blocks_in (matrix_of shape list.now) bytes.now + 6) (chunk_text (matrix_of shape list.now) (setting_of setting) number bytes.now) at out.old out.new result }
{
    let size = 4 * (shape.n as usize);
    let end = lines(shape, list, tables, setting, number, bytes, out, at);
    if bytes.len() % size == 0 {
        return end;
    }
    program_text::put_short(out, end)
}
