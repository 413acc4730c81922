// Functions for tests and benchmarks, which `ffi_c` exports: each answer is one number of 64 bits.
// Rests on every decoder, on `changed_bits`, on `quantiser_widths`, on the calls for sheets and on `ffi_codes`. Design, section 4: the test face.
#![tactic(auto)]

ghost use Rattle.std.specs.Prelude.{◌≡◌, length};
ghost use Rattle.answers.specs.Paper.Answers.{acceptance, after, written};
ghost use Rattle.matrix.specs.Paper.Code.{matrix};
ghost use Rattle.matrix.specs.Paper.Check.{check_of};
ghost use Rattle.matrix_index.specs.Paper.Index.{index_of, index_verdict};
ghost use Rattle.syndrome.specs.Paper.Failing.{failing_of};
ghost use Rattle.changed_bits.specs.Paper.Call.{changed_of};
ghost use Rattle.sheet.specs.Paper.SheetMatrix.{matrix_of_sheet};
ghost use Rattle.sheet.specs.Paper.MatrixSheet.{sheet_of};
ghost use Rattle.sheet.specs.Paper.Calls.{sizes_of, to_list_verdict, to_list_of, to_sheet_verdict, to_sheet_of};
ghost use Rattle.majority_logic.specs.Paper.OneStep.{one_step_verdict, one_step_of, one_step_word};
ghost use Rattle.one_step_indexed.specs.Paper.Call.{one_step_indexed_verdict, one_step_indexed_of};
ghost use Rattle.quantiser_widths.specs.Paper.Widths.{widen_verdict, narrow_verdict};
ghost use Rattle.session_asking.specs.Paper.Asked.{lent};
ghost use Rattle.session.specs.Paper.Steps.{open_of, step_of};
ghost use Rattle.ffi_codes.specs.Codes.{code_of};
ghost use Rattle.ffi_codes.specs.Records.{record_in};
ghost use Rattle.quantiser_settings.specs.Numbers.{setting_by};
ghost use Rattle.ffi.specs.Calls.{QuantisedAs, DecodedAs, DecodedByIndex, on_record, CalledAs};

use ffi_codes::{
    RECORD_CELLS, answer_code, checked_code, counted_code, session_in, setting_of, stored_code,
    turn_code,
};
use matrix_check::Shape;
use quantiser_levels::Cell;
use quantiser_widths::Old;

// Refusal 7: what a call answers that is lent another number of cells than a record's.
const NO_RECORD: u64 = 458752;

// The matrix check.
pub fn mlgd_check(n: u16, m: u16, rho: u16, gamma: u16, list: &[u16]) -> u64
    ensures { result ≡ code_of (after (check_of (matrix n m rho gamma list.now)) acceptance) }
{
    let shape = Shape { n, m, rho, gamma };
    checked_code(matrix_check::check(shape, list))
}

// The count of failing checks in a received word.
pub fn mlgd_failing(n: u16, m: u16, rho: u16, gamma: u16, list: &[u16], received: &[u8]) -> u64
    ensures { result ≡ code_of (failing_of (matrix n m rho gamma list.now) received.now) }
{
    let shape = Shape { n, m, rho, gamma };
    counted_code(failing_checks::failing(shape, list, received))
}

// The count of places at which two runs of bytes differ.
pub fn mlgd_changed(a: &[u8], b: &[u8]) -> u64
    ensures { result ≡ code_of (changed_of a.now b.now) }
{
    answer_code(changed_bits::changed(a, b))
}

// One-step voting.
pub fn mlgd_one_step(
    n: u16,
    m: u16,
    rho: u16,
    gamma: u16,
    list: &[u16],
    received: &[u8],
    word: &mut [u8],
) -> u64
    ensures answer { result ≡ code_of (one_step_of (matrix n m rho gamma list.now) received.now (length word.old)) }
    ensures word { word.new ≡ written (one_step_verdict (matrix n m rho gamma list.now) received.now (length word.old)) (one_step_word (matrix n m rho gamma list.now) received.now) word.old }
{
    let shape = Shape { n, m, rho, gamma };
    let a = one_step::one_step(shape, list, received, word);
    answer_code(a)
}

// The quantiser.
pub fn mlgd_quantise(
    bits: u16,
    limit: u16,
    kind: u16,
    step: f32,
    samples: &[f32],
    levels: &mut [Cell],
    word: &mut [u8],
) -> u64
    ensures { QuantisedAs (setting_by bits limit kind step) samples.now result levels.old levels.new word.old word.new }
{
    let a = quantiser::quantise(setting_of(bits, limit, kind, step), samples, levels, word);
    checked_code(a)
}

// Old stored levels, of eight bits, brought over.
pub fn mlgd_widen(old: &[Old], levels: &mut [Cell]) -> u64
    ensures answer { result ≡ code_of (after (widen_verdict old.now (length levels.old)) acceptance) }
    ensures levels { levels.new ≡ written (widen_verdict old.now (length levels.old)) old.now levels.old }
{
    let a = quantiser_widths::widen(old, levels);
    checked_code(a)
}

// And taken back. Two functions, since both are exported by name, with types of their own.
pub fn mlgd_narrow(levels: &[Cell], old: &mut [Old]) -> u64
    ensures answer { result ≡ code_of (after (narrow_verdict levels.now (length old.old)) acceptance) }
    ensures old { old.new ≡ written (narrow_verdict levels.now (length old.old)) levels.now old.old }
{
    let a = quantiser_widths::narrow(levels, old);
    checked_code(a)
}

// Iterative voting.
pub fn mlgd_iterative(
    n: u16,
    m: u16,
    rho: u16,
    gamma: u16,
    list: &[u16],
    bits: u16,
    limit: u16,
    kind: u16,
    step: f32,
    samples: &[f32],
    word: &mut [u8],
    levels: &mut [Cell],
) -> u64
    ensures { DecodedAs (matrix n m rho gamma list.now) (setting_by bits limit kind step) samples.now result word.old word.new levels.old levels.new }
{
    let shape = Shape { n, m, rho, gamma };
    let a = iterative::iterative(
        shape,
        list,
        setting_of(bits, limit, kind, step),
        samples,
        word,
        levels,
    );
    answer_code(a)
}

// The index of a matrix.
pub fn mlgd_index(n: u16, m: u16, rho: u16, gamma: u16, list: &[u16], index: &mut [u16]) -> u64
    ensures answer { result ≡ code_of (after (index_verdict (matrix n m rho gamma list.now) (length index.old)) acceptance) }
    ensures index { index.new ≡ written (index_verdict (matrix n m rho gamma list.now) (length index.old)) (index_of (matrix n m rho gamma list.now)) index.old }
{
    let shape = Shape { n, m, rho, gamma };
    let a = matrix_index_check::index(shape, list, index);
    checked_code(a)
}

// A sheet turned into sizes and list.
pub fn mlgd_sheet_to_list(sheet: &[u8], sizes: &mut [u16], list: &mut [u16]) -> u64
    ensures answer { result ≡ code_of (to_list_of sheet.now (length sizes.old) (length list.old)) }
    ensures sizes { sizes.new ≡ written (to_list_verdict sheet.now (length sizes.old) (length list.old)) (sizes_of (matrix_of_sheet sheet.now)) sizes.old }
    ensures list { list.new ≡ written (to_list_verdict sheet.now (length sizes.old) (length list.old)) (matrix_of_sheet sheet.now).list list.old }
{
    let a = sheet_to_list::sheet_to_list(sheet, sizes, list);
    checked_code(a)
}

// A list turned into its sheet with block size z.
pub fn mlgd_list_to_sheet(
    n: u16,
    m: u16,
    rho: u16,
    gamma: u16,
    list: &[u16],
    z: u16,
    sheet: &mut [u8],
) -> u64
    ensures answer { result ≡ code_of (to_sheet_of (matrix n m rho gamma list.now) z (length sheet.old)) }
    ensures sheet { sheet.new ≡ written (to_sheet_verdict (matrix n m rho gamma list.now) z (length sheet.old)) (sheet_of (matrix n m rho gamma list.now) z) sheet.old }
{
    let shape = Shape { n, m, rho, gamma };
    let a = sheet_from_list::sheet_from_list(shape, list, z, sheet);
    stored_code(a)
}

// One-step voting by matrix and index.
pub fn mlgd_one_step_indexed(
    n: u16,
    m: u16,
    rho: u16,
    gamma: u16,
    list: &[u16],
    index: &[u16],
    received: &[u8],
    word: &mut [u8],
) -> u64
    ensures answer { result ≡ code_of (one_step_indexed_of (matrix n m rho gamma list.now) index.now received.now (length word.old)) }
    ensures word { word.new ≡ written (one_step_indexed_verdict (matrix n m rho gamma list.now) index.now received.now (length word.old)) (one_step_word (matrix n m rho gamma list.now) received.now) word.old }
{
    let shape = Shape { n, m, rho, gamma };
    let a = one_step_indexed::one_step_indexed(shape, list, index, received, word);
    answer_code(a)
}

// Iterative voting by matrix and index.
pub fn mlgd_iterative_indexed(
    n: u16,
    m: u16,
    rho: u16,
    gamma: u16,
    list: &[u16],
    index: &[u16],
    bits: u16,
    limit: u16,
    kind: u16,
    step: f32,
    samples: &[f32],
    word: &mut [u8],
    levels: &mut [Cell],
) -> u64
    ensures { DecodedByIndex (matrix n m rho gamma list.now) index.now (setting_by bits limit kind step) samples.now result word.old word.new levels.old levels.new }
{
    let shape = Shape { n, m, rho, gamma };
    let s = setting_of(bits, limit, kind, step);
    let a = iterative_indexed::iterative_indexed(shape, list, index, s, samples, word, levels);
    answer_code(a)
}

// Opening a session.
pub fn mlgd_open(
    cells: &mut [u16],
    n: u16,
    m: u16,
    rho: u16,
    gamma: u16,
    list: &[u16],
    bits: u16,
    limit: u16,
    kind: u16,
    step: f32,
    samples: &[f32],
    word: &mut [u8],
    levels: &mut [Cell],
) -> u64
    ensures { CalledAs (on_record cells.old (open_of (matrix n m rho gamma list.now) (setting_by bits limit kind step) samples.now (lent (record_in cells.old) word.old levels.old)) (lent (record_in cells.old) word.old levels.old)) result cells.old cells.new word.new levels.new }
{
    if cells.len() != RECORD_CELLS {
        return NO_RECORD;
    }
    let shape = Shape { n, m, rho, gamma };
    let setting = setting_of(bits, limit, kind, step);
    let s = session_in(cells);
    let turn = session_open::open_copy(s, shape, list, setting, samples, word, levels);
    turn_code(turn, cells)
}

// One step of a session. `opened` are the levels that the opening wrote.
pub fn mlgd_step(
    cells: &mut [u16],
    n: u16,
    m: u16,
    rho: u16,
    gamma: u16,
    list: &[u16],
    received: &[u8],
    opened: &[Cell],
    word: &mut [u8],
    levels: &mut [Cell],
) -> u64
    ensures { CalledAs (on_record cells.old (step_of (matrix n m rho gamma list.now) received.now opened.now (lent (record_in cells.old) word.old levels.old)) (lent (record_in cells.old) word.old levels.old)) result cells.old cells.new word.new levels.new }
{
    if cells.len() != RECORD_CELLS {
        return NO_RECORD;
    }
    let shape = Shape { n, m, rho, gamma };
    let s = session_in(cells);
    let turn = session_step::step_copy(s, shape, list, received, opened, word, levels);
    turn_code(turn, cells)
}
