// The face for the tufting firmware: iterative voting as one function over numbers and byte slices, which `firmware_c` exports for C.
// Rests on `firmware_decoding`, `firmware_asking`, `firmware_codes` and `matrix_check`. Document 02: cards 3 and 7.
#![tactic(auto)]

ghost use Rattle.firmware_asking.specs.Paper.Asked.{face_matrix, face_setting};
ghost use Rattle.firmware.specs.Paper.Face.{FacedAs};
ghost use Rattle.firmware.specs.Paper.Claims.{FaceIterative, FaceRule, FaceAmple};

use firmware_asking::setting_by;
use firmware_decoding::decode;
use matrix_check::Shape;

// Iterative voting for the tufting firmware. The word, the levels and the report are written in either outcome; a refused call writes nothing.
pub fn mlgd_decode(
    n: u16,
    m: u16,
    rho: u16,
    gamma: u16,
    list: &[u8],
    bits: u16,
    limit: u16,
    kind: u16,
    step: u32,
    samples: &[u8],
    word: &mut [u8],
    levels: &mut [u8],
    report: &mut [u8],
) -> u32
    ensures answer { FacedAs (face_matrix n m rho gamma list.now) list.now (face_setting bits limit kind step) samples.now result word.old word.new levels.old levels.new report.old report.new }
    ensures iterative { FaceIterative (face_matrix n m rho gamma list.now) list.now (face_setting bits limit kind step) samples.now result word.old word.new levels.old levels.new report.old report.new }
    ensures flipping_rule { FaceRule (face_matrix n m rho gamma list.now) list.now (face_setting bits limit kind step) samples.now result word.old word.new levels.old report.old report.new }
    ensures ample_limit { FaceAmple (face_matrix n m rho gamma list.now) list.now (face_setting bits limit kind step) samples.now result word.old word.new levels.old report.old report.new }
{
    let shape = Shape { n, m, rho, gamma };
    let setting = setting_by(bits, limit, kind, step);
    let answer = decode(shape, list, setting, samples, word, levels, report);
    firmware_codes::result(answer)
}
