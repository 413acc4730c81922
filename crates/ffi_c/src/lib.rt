// The exported functions of `ffi`, for C: each calls the function of its name, under the same clauses.
#![tactic(auto)]

ghost use Rattle.std.specs.Prelude.{◌≡◌, length};
ghost use Rattle.answers.specs.Paper.Answers.{acceptance, after, written};
ghost use Rattle.matrix.specs.Paper.Code.{matrix};
ghost use Rattle.matrix.specs.Paper.Check.{check_of};
ghost use Rattle.matrix_index.specs.Paper.Index.{index_of, index_verdict};
ghost use Rattle.syndrome.specs.Paper.Failing.{failing_of};
ghost use Rattle.changed_bits.specs.Paper.Call.{changed_of};
ghost use Rattle.sheet.specs.Paper.SheetMatrix.{matrix_of_sheet};
ghost use Rattle.sheet.specs.Paper.MatrixSheet.{sheet_of};
ghost use Rattle.sheet.specs.Paper.Calls.{sizes_of, to_list_verdict, to_list_of, to_sheet_verdict, to_sheet_of};
ghost use Rattle.majority_logic.specs.Paper.OneStep.{one_step_verdict, one_step_of, one_step_word};
ghost use Rattle.one_step_indexed.specs.Paper.Call.{one_step_indexed_verdict, one_step_indexed_of};
ghost use Rattle.quantiser_widths.specs.Paper.Widths.{widen_verdict, narrow_verdict};
ghost use Rattle.session_asking.specs.Paper.Asked.{lent};
ghost use Rattle.session.specs.Paper.Steps.{open_of, step_of};
ghost use Rattle.ffi_codes.specs.Codes.{code_of};
ghost use Rattle.ffi_codes.specs.Records.{record_in};
ghost use Rattle.quantiser_settings.specs.Numbers.{setting_by};
ghost use Rattle.ffi.specs.Calls.{QuantisedAs, DecodedAs, DecodedByIndex, on_record, CalledAs};

use quantiser_levels::Cell;
use quantiser_widths::Old;

// The matrix check.
#[unsafe(no_mangle)]
pub extern "C" fn mlgd_check(n: u16, m: u16, rho: u16, gamma: u16, list: &[u16]) -> u64
    ensures { result ≡ code_of (after (check_of (matrix n m rho gamma list.now)) acceptance) }
{
    ffi::mlgd_check(n, m, rho, gamma, list)
}

// The count of failing checks in a received word.
#[unsafe(no_mangle)]
pub extern "C" fn mlgd_failing(
    n: u16,
    m: u16,
    rho: u16,
    gamma: u16,
    list: &[u16],
    received: &[u8],
) -> u64
    ensures { result ≡ code_of (failing_of (matrix n m rho gamma list.now) received.now) }
{
    ffi::mlgd_failing(n, m, rho, gamma, list, received)
}

// The count of places at which two runs of bytes differ.
#[unsafe(no_mangle)]
pub extern "C" fn mlgd_changed(a: &[u8], b: &[u8]) -> u64
    ensures { result ≡ code_of (changed_of a.now b.now) }
{
    ffi::mlgd_changed(a, b)
}

// One-step voting.
#[unsafe(no_mangle)]
pub extern "C" fn mlgd_one_step(
    n: u16,
    m: u16,
    rho: u16,
    gamma: u16,
    list: &[u16],
    received: &[u8],
    word: &mut [u8],
) -> u64
    ensures answer { result ≡ code_of (one_step_of (matrix n m rho gamma list.now) received.now (length word.old)) }
    ensures word { word.new ≡ written (one_step_verdict (matrix n m rho gamma list.now) received.now (length word.old)) (one_step_word (matrix n m rho gamma list.now) received.now) word.old }
{
    ffi::mlgd_one_step(n, m, rho, gamma, list, received, word)
}

// The quantiser.
#[unsafe(no_mangle)]
pub extern "C" fn mlgd_quantise(
    bits: u16,
    limit: u16,
    kind: u16,
    step: f32,
    samples: &[f32],
    levels: &mut [Cell],
    word: &mut [u8],
) -> u64
    ensures { QuantisedAs (setting_by bits limit kind step) samples.now result levels.old levels.new word.old word.new }
{
    ffi::mlgd_quantise(bits, limit, kind, step, samples, levels, word)
}

// Old stored levels, of eight bits, brought over.
#[unsafe(no_mangle)]
pub extern "C" fn mlgd_widen(old: &[Old], levels: &mut [Cell]) -> u64
    ensures answer { result ≡ code_of (after (widen_verdict old.now (length levels.old)) acceptance) }
    ensures levels { levels.new ≡ written (widen_verdict old.now (length levels.old)) old.now levels.old }
{
    ffi::mlgd_widen(old, levels)
}

// And taken back.
#[unsafe(no_mangle)]
pub extern "C" fn mlgd_narrow(levels: &[Cell], old: &mut [Old]) -> u64
    ensures answer { result ≡ code_of (after (narrow_verdict levels.now (length old.old)) acceptance) }
    ensures old { old.new ≡ written (narrow_verdict levels.now (length old.old)) levels.now old.old }
{
    ffi::mlgd_narrow(levels, old)
}

// Iterative voting.
#[unsafe(no_mangle)]
pub extern "C" fn mlgd_iterative(
    n: u16,
    m: u16,
    rho: u16,
    gamma: u16,
    list: &[u16],
    bits: u16,
    limit: u16,
    kind: u16,
    step: f32,
    samples: &[f32],
    word: &mut [u8],
    levels: &mut [Cell],
) -> u64
    ensures { DecodedAs (matrix n m rho gamma list.now) (setting_by bits limit kind step) samples.now result word.old word.new levels.old levels.new }
{
    ffi::mlgd_iterative(
        n, m, rho, gamma, list, bits, limit, kind, step, samples, word, levels,
    )
}

// The index of a matrix.
#[unsafe(no_mangle)]
pub extern "C" fn mlgd_index(
    n: u16,
    m: u16,
    rho: u16,
    gamma: u16,
    list: &[u16],
    index: &mut [u16],
) -> u64
    ensures answer { result ≡ code_of (after (index_verdict (matrix n m rho gamma list.now) (length index.old)) acceptance) }
    ensures index { index.new ≡ written (index_verdict (matrix n m rho gamma list.now) (length index.old)) (index_of (matrix n m rho gamma list.now)) index.old }
{
    ffi::mlgd_index(n, m, rho, gamma, list, index)
}

// A sheet turned into sizes and list.
#[unsafe(no_mangle)]
pub extern "C" fn mlgd_sheet_to_list(sheet: &[u8], sizes: &mut [u16], list: &mut [u16]) -> u64
    ensures answer { result ≡ code_of (to_list_of sheet.now (length sizes.old) (length list.old)) }
    ensures sizes { sizes.new ≡ written (to_list_verdict sheet.now (length sizes.old) (length list.old)) (sizes_of (matrix_of_sheet sheet.now)) sizes.old }
    ensures list { list.new ≡ written (to_list_verdict sheet.now (length sizes.old) (length list.old)) (matrix_of_sheet sheet.now).list list.old }
{
    ffi::mlgd_sheet_to_list(sheet, sizes, list)
}

// A list turned into its sheet with block size z.
#[unsafe(no_mangle)]
pub extern "C" fn mlgd_list_to_sheet(
    n: u16,
    m: u16,
    rho: u16,
    gamma: u16,
    list: &[u16],
    z: u16,
    sheet: &mut [u8],
) -> u64
    ensures answer { result ≡ code_of (to_sheet_of (matrix n m rho gamma list.now) z (length sheet.old)) }
    ensures sheet { sheet.new ≡ written (to_sheet_verdict (matrix n m rho gamma list.now) z (length sheet.old)) (sheet_of (matrix n m rho gamma list.now) z) sheet.old }
{
    ffi::mlgd_list_to_sheet(n, m, rho, gamma, list, z, sheet)
}

// One-step voting by matrix and index.
#[unsafe(no_mangle)]
pub extern "C" fn mlgd_one_step_indexed(
    n: u16,
    m: u16,
    rho: u16,
    gamma: u16,
    list: &[u16],
    index: &[u16],
    received: &[u8],
    word: &mut [u8],
) -> u64
    ensures answer { result ≡ code_of (one_step_indexed_of (matrix n m rho gamma list.now) index.now received.now (length word.old)) }
    ensures word { word.new ≡ written (one_step_indexed_verdict (matrix n m rho gamma list.now) index.now received.now (length word.old)) (one_step_word (matrix n m rho gamma list.now) received.now) word.old }
{
    ffi::mlgd_one_step_indexed(n, m, rho, gamma, list, index, received, word)
}

// Iterative voting by matrix and index.
#[unsafe(no_mangle)]
pub extern "C" fn mlgd_iterative_indexed(
    n: u16,
    m: u16,
    rho: u16,
    gamma: u16,
    list: &[u16],
    index: &[u16],
    bits: u16,
    limit: u16,
    kind: u16,
    step: f32,
    samples: &[f32],
    word: &mut [u8],
    levels: &mut [Cell],
) -> u64
    ensures { DecodedByIndex (matrix n m rho gamma list.now) index.now (setting_by bits limit kind step) samples.now result word.old word.new levels.old levels.new }
{
    ffi::mlgd_iterative_indexed(
        n, m, rho, gamma, list, index, bits, limit, kind, step, samples, word, levels,
    )
}

// Opening a session.
#[unsafe(no_mangle)]
pub extern "C" fn mlgd_open(
    cells: &mut [u16],
    n: u16,
    m: u16,
    rho: u16,
    gamma: u16,
    list: &[u16],
    bits: u16,
    limit: u16,
    kind: u16,
    step: f32,
    samples: &[f32],
    word: &mut [u8],
    levels: &mut [Cell],
) -> u64
    ensures { CalledAs (on_record cells.old (open_of (matrix n m rho gamma list.now) (setting_by bits limit kind step) samples.now (lent (record_in cells.old) word.old levels.old)) (lent (record_in cells.old) word.old levels.old)) result cells.old cells.new word.new levels.new }
{
    ffi::mlgd_open(
        cells, n, m, rho, gamma, list, bits, limit, kind, step, samples, word, levels,
    )
}

// One step of a session. `opened` are the levels that the opening wrote.
#[unsafe(no_mangle)]
pub extern "C" fn mlgd_step(
    cells: &mut [u16],
    n: u16,
    m: u16,
    rho: u16,
    gamma: u16,
    list: &[u16],
    received: &[u8],
    opened: &[Cell],
    word: &mut [u8],
    levels: &mut [Cell],
) -> u64
    ensures { CalledAs (on_record cells.old (step_of (matrix n m rho gamma list.now) received.now opened.now (lent (record_in cells.old) word.old levels.old)) (lent (record_in cells.old) word.old levels.old)) result cells.old cells.new word.new levels.new }
{
    ffi::mlgd_step(
        cells, n, m, rho, gamma, list, received, opened, word, levels,
    )
}
