// One block of samples, as functions on slices: its answer and word, and its line.
// Rests on `program_tables`, `program_samples`, `iterative_sets`, `iterative_changed`, `packed_word` and `program_text`, and on the laws of `iterative_core`. Document 01: "Worked by hand", the paragraph on the program.
#![tactic(auto)]

ghost use Rattle.std.specs.Prelude.{◌≡◌};
ghost use Rattle.answers.specs.Paper.Enums.{said_of};
ghost use Rattle.matrix.specs.Paper.Shapes.{matrix_of};
ghost use Rattle.quantiser_settings.specs.Paper.Settings.{setting_of};
ghost use Rattle.program_numerals.specs.Texts.{PutWithin};
ghost use Rattle.program_tables.specs.Tables.{tables_of};
ghost use Rattle.program_block.specs.Loans.{Whole, BlockAnswered, Printable};
ghost use Rattle.program_block.specs.Paper.Block.{block_line};

use answers::{Refusal, Report};
use iterative_levels::Kept;
use matrix_check::Shape;
use quantiser::Setting;
use quantiser_levels::largest_of;

// The answer of a block, and its word at the front of `word`. No levels are written: a line does not show them.
// Only this repository's crates call it, after asking refusals 1 to 6.
pub fn decode(
    shape: Shape,
    list: &[u16],
    tables: &[u64],
    setting: Setting,
    bytes: &[u8],
    word: &mut [u8],
) -> Result<Report, Refusal>
    requires { Whole (matrix_of shape list.now) (setting_of setting) bytes.now word.old × (tables.now ≡ tables_of (matrix_of shape list.now) (setting_of setting)) }
    ensures { BlockAnswered (matrix_of shape list.now) (setting_of setting) bytes.now (said_of result) word.old word.new }
{
    let n = shape.n as usize;
    let middle = largest_of(setting.bits);
    let from = program_tables::SETS;
    let mut bits = [0u8; 1023];
    let mut kept: [Kept; 1023] = [0; 1023];
    let mut marks = [0u8; 1023];
    if let Some(place) = program_samples::take_samples(
        setting,
        &tables[..from],
        bytes,
        n,
        middle,
        &mut bits,
        &mut kept,
        &mut marks,
    ) {
        return Err(Refusal::Sample(place as u16));
    }
    let limit = setting.limit;
    let stop = iterative_sets::run(
        shape,
        list,
        &tables[from..],
        limit,
        middle,
        &mut bits,
        &mut kept,
    );
    packed_word::pack_into(&bits, n, word);
    let changed = iterative_changed::turned(&marks, &bits, n);
    Ok(answers::ended(stop.rounds, stop.failing, changed))
}

// The line of one block. Only this repository's crates call it, after asking refusals 1 to 6.
pub fn block(
    shape: Shape,
    list: &[u16],
    tables: &[u64],
    setting: Setting,
    number: u16,
    bytes: &[u8],
    out: &mut [u8],
    at: usize,
) -> usize
    requires { Printable (matrix_of shape list.now) (setting_of setting) bytes.now at out.old × (tables.now ≡ tables_of (matrix_of shape list.now) (setting_of setting)) }
    ensures { PutWithin 289 (block_line (matrix_of shape list.now) (setting_of setting) number bytes.now) at out.old out.new result }
{
    let n = shape.n as usize;
    let mut word = [0u8; 128];
    let answer = decode(shape, list, tables, setting, bytes, &mut word);
    let size = (n + 7) / 8;
    program_text::put_block(out, at, number, answer, &word[..size])
}
