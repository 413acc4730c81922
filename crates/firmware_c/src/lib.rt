// The exported functions of `firmware`, for C: each calls the function of its name, under the same clauses.
#![tactic(auto)]

ghost use Rattle.firmware_asking.specs.Paper.Asked.{face_matrix, face_setting};
ghost use Rattle.firmware.specs.Paper.Face.{FacedAs};
ghost use Rattle.firmware.specs.Paper.Claims.{FaceIterative, FaceRule, FaceAmple};

// Iterative voting for the tufting firmware. The word, the levels and the report are written in either outcome; a refused call writes nothing.
#[unsafe(no_mangle)]
pub extern "C" fn mlgd_decode(
    n: u16,
    m: u16,
    rho: u16,
    gamma: u16,
    list: &[u8],
    bits: u16,
    limit: u16,
    kind: u16,
    step: u32,
    samples: &[u8],
    word: &mut [u8],
    levels: &mut [u8],
    report: &mut [u8],
) -> u32
    ensures answer { FacedAs (face_matrix n m rho gamma list.now) list.now (face_setting bits limit kind step) samples.now result word.old word.new levels.old levels.new report.old report.new }
    ensures iterative { FaceIterative (face_matrix n m rho gamma list.now) list.now (face_setting bits limit kind step) samples.now result word.old word.new levels.old levels.new report.old report.new }
    ensures flipping_rule { FaceRule (face_matrix n m rho gamma list.now) list.now (face_setting bits limit kind step) samples.now result word.old word.new levels.old report.old report.new }
    ensures ample_limit { FaceAmple (face_matrix n m rho gamma list.now) list.now (face_setting bits limit kind step) samples.now result word.old word.new levels.old report.old report.new }
{
    firmware::mlgd_decode(
        n, m, rho, gamma, list, bits, limit, kind, step, samples, word, levels, report,
    )
}
