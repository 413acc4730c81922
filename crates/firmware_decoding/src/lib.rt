// The core of the firmware's face: list and samples read from bytes, every refusal in its order, the decoding, and what leaves as bytes.
// Rests on `firmware_asking`, `firmware_codes`, `byte_numbers`, `iterative_core`, `matrix_index`, `matrix_check` and `answers`. Document 02: cards 3 and 7.
#![tactic(auto)]

ghost use Rattle.std.specs.Prelude.{◌*◌, ◌≤◌, length};
ghost use Rattle.answers.specs.Paper.Answers.{accepted, refuse_at};
ghost use Rattle.answers.specs.Paper.Enums.{report_of, said_of};
ghost use Rattle.byte_numbers.specs.Paper.Numbers.{entries_in, samples_in};
ghost use Rattle.matrix.specs.Paper.PlainCheck.{Accepted};
ghost use Rattle.matrix.specs.Paper.Shapes.{matrix_of};
ghost use Rattle.quantiser_levels.specs.Paper.Samples.{first_not_finite};
ghost use Rattle.quantiser_settings.specs.Paper.Settings.{setting_of};
ghost use Rattle.iterative_core.specs.Calls.{CallLent, Decoded};
ghost use Rattle.firmware_asking.specs.Paper.Asked.{bytes_verdict, face_verdict};
ghost use Rattle.firmware_asking.specs.Asking.{FaceLent};
ghost use Rattle.firmware_decoding.specs.Parts.{OutLent, DecodedOut, Answered, ListAnswered};

use answers::{Refusal, Report};
use firmware_asking::{ask_lent, ask_list};
use matrix_check::Shape;
use quantiser::Setting;
use quantiser_levels::Cell;

// Lists of up to so many entries are read into a small array: to clear the large one adds about a sixth to the time of a call on a small code.
const FEW: usize = 2048;

// The most entries that an accepted matrix can have.
const MANY: usize = 32736;

// The core on samples that are known to be accepted, with an index made for this call.
fn with_index(
    shape: Shape,
    list: &[u16],
    setting: Setting,
    samples: &[f32],
    word: &mut [u8],
    levels: &mut [Cell],
) -> Report
    requires { CallLent (matrix_of shape list.now) (setting_of setting) samples.now word.old levels.old }
    ensures { Decoded (matrix_of shape list.now) (setting_of setting) samples.now (report_of result) word.old word.new levels.old levels.new }
{
    let size = (shape.n as usize) + 1 + (shape.m as usize) * (shape.rho as usize);
    let mut index = [0u16; 33760];
    matrix_index::build(shape, list, &mut index);
    iterative_core::iterative_accepted(shape, list, &index[..size], setting, samples, word, levels)
}

// The decoding, its levels and its report as bytes.
fn decode_out(
    shape: Shape,
    list: &[u16],
    setting: Setting,
    samples: &[f32],
    word: &mut [u8],
    levels: &mut [u8],
    report: &mut [u8],
) -> Report
    requires { OutLent (matrix_of shape list.now) (setting_of setting) samples.now (length word.old) (length levels.old) (length report.old) }
    ensures { DecodedOut (matrix_of shape list.now) (setting_of setting) samples.now (report_of result) word.old word.new levels.old levels.new report.old report.new }
{
    let n = shape.n as usize;
    let mut cells: [Cell; 1023] = [0; 1023];
    let told = with_index(shape, list, setting, samples, word, &mut cells);
    firmware_codes::levels_out(&cells[..n], levels);
    firmware_codes::report_out(told, report);
    told
}

// Refusal 8, or the decoding, once nothing else is left to ask.
fn on_bytes(
    shape: Shape,
    list: &[u16],
    setting: Setting,
    samples: &[u8],
    word: &mut [u8],
    levels: &mut [u8],
    report: &mut [u8],
) -> Result<Report, Refusal>
    requires { FaceLent (matrix_of shape list.now) (setting_of setting) samples.now (length word.old) (length levels.old) (length report.old) }
    ensures { Answered (refuse_at 8 (first_not_finite (samples_in samples.now)) (length (samples_in samples.now)) accepted) (matrix_of shape list.now) (setting_of setting) samples.now (said_of result) word.old word.new levels.old levels.new report.old report.new }
{
    let n = shape.n as usize;
    let mut xs = [0f32; 1023];
    if let Some(place) = byte_numbers::samples(samples, &mut xs) {
        return Err(Refusal::Sample(place as u16));
    }
    Ok(decode_out(shape, list, setting, &xs[..n], word, levels, report))
}

// Refusals 6 to 8, or the decoding, once the matrix is accepted.
fn on_accepted(
    shape: Shape,
    list: &[u16],
    setting: Setting,
    samples: &[u8],
    word: &mut [u8],
    levels: &mut [u8],
    report: &mut [u8],
) -> Result<Report, Refusal>
    requires { Accepted (matrix_of shape list.now) }
    ensures { Answered (bytes_verdict shape.n (setting_of setting) samples.now (length word.old) (length levels.old) (length report.old)) (matrix_of shape list.now) (setting_of setting) samples.now (said_of result) word.old word.new levels.old levels.new report.old report.new }
{
    let n = shape.n as usize;
    ask_lent(
        n,
        setting,
        samples.len(),
        word.len(),
        levels.len(),
        report.len(),
    )?;
    on_bytes(shape, list, setting, samples, word, levels, report)
}

// The matrix check, then the rest.
fn on_list(
    shape: Shape,
    list: &[u16],
    setting: Setting,
    samples: &[u8],
    word: &mut [u8],
    levels: &mut [u8],
    report: &mut [u8],
) -> Result<Report, Refusal>
    ensures { ListAnswered (matrix_of shape list.now) (setting_of setting) samples.now (said_of result) word.old word.new levels.old levels.new report.old report.new }
{
    matrix_check::check(shape, list)?;
    on_accepted(shape, list, setting, samples, word, levels, report)
}

// The list read into an array of so many entries, then the rest.
fn with_room<const ROOM: usize>(
    shape: Shape,
    list: &[u8],
    setting: Setting,
    samples: &[u8],
    word: &mut [u8],
    levels: &mut [u8],
    report: &mut [u8],
) -> Result<Report, Refusal>
    requires { (length list.now ≤ 2 * ROOM) × (ROOM ≤ 32736) }
    ensures { ListAnswered (matrix_of shape (entries_in list.now)) (setting_of setting) samples.now (said_of result) word.old word.new levels.old levels.new report.old report.new }
{
    let size = list.len() / 2;
    let mut entries = [0u16; ROOM];
    byte_numbers::entries(list, &mut entries);
    on_list(
        shape,
        &entries[..size],
        setting,
        samples,
        word,
        levels,
        report,
    )
}

// The list read into an array that has room for it, then the rest.
fn on_read(
    shape: Shape,
    list: &[u8],
    setting: Setting,
    samples: &[u8],
    word: &mut [u8],
    levels: &mut [u8],
    report: &mut [u8],
) -> Result<Report, Refusal>
    requires { length list.now ≤ 65472 }
    ensures { ListAnswered (matrix_of shape (entries_in list.now)) (setting_of setting) samples.now (said_of result) word.old word.new levels.old levels.new report.old report.new }
{
    if list.len() <= 2 * FEW {
        return with_room::<FEW>(shape, list, setting, samples, word, levels, report);
    }
    with_room::<MANY>(shape, list, setting, samples, word, levels, report)
}

// Every refusal in its order, or the decoding.
pub fn decode(
    shape: Shape,
    list: &[u8],
    setting: Setting,
    samples: &[u8],
    word: &mut [u8],
    levels: &mut [u8],
    report: &mut [u8],
) -> Result<Report, Refusal>
    ensures { Answered (face_verdict (matrix_of shape (entries_in list.now)) list.now (setting_of setting) samples.now (length word.old) (length levels.old) (length report.old)) (matrix_of shape (entries_in list.now)) (setting_of setting) samples.now (said_of result) word.old word.new levels.old levels.new report.old report.new }
{
    ask_list(shape, list.len())?;
    on_read(shape, list, setting, samples, word, levels, report)
}
