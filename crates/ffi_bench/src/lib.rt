// The core of one-step voting and the replay of a lent index, which `ffi_bench_c` exports for the benchmark alone, which asks `mlgd_check` first.
// An archive of its own: of the exported functions these have a `requires`, and no user links it.
// Rests on `one_step`, on `matrix_index_replay`, on `ffi_codes`, and for one law on `ffi`. Design, section 4: the test face.
#![tactic(auto)]

ghost use Rattle.std.specs.Prelude.{◌≡◌, ◌≤◌, eqb};
ghost use Rattle.counting.specs.Paper.Lists.{over};
ghost use Rattle.packed_word.specs.Paper.Packed.{bit_at};
ghost use Rattle.matrix.specs.Paper.Code.{matrix};
ghost use Rattle.matrix.specs.Ordered.{Ordered};
ghost use Rattle.matrix_index_replay.specs.Replay.{Replayed};
ghost use Rattle.majority_logic.specs.Paper.OneStep.{one_step_report, one_step_word};
ghost use Rattle.one_step_core.specs.Stepped.{VoteLent};
ghost use Rattle.ffi_codes.specs.Codes.{code_of};

use ffi_codes::answer_code;
use matrix_check::Shape;

// One-step voting on an accepted matrix, a word and a buffer that suit it. Only the benchmark calls it.
pub fn mlgd_one_step_accepted(
    n: u16,
    m: u16,
    rho: u16,
    gamma: u16,
    list: &[u16],
    received: &[u8],
    word: &mut [u8],
) -> u64
    requires { VoteLent (matrix n m rho gamma list.now) received.now word.old }
    ensures answer { result ≡ code_of (one_step_report (matrix n m rho gamma list.now) (bit_at received.now)) }
    ensures word { word.new ≡ over (one_step_word (matrix n m rho gamma list.now) received.now) word.old }
{
    let shape = Shape { n, m, rho, gamma };
    let p = one_step::one_step_accepted(shape, list, received, word);
    answer_code(Ok(p))
}

// The replay of a lent index against a matrix whose rows are in order: 1 where it is the matrix's own, else 0. Only the benchmark calls it.
pub fn mlgd_replay(n: u16, m: u16, rho: u16, gamma: u16, list: &[u16], index: &[u16]) -> u64
    requires { Ordered (matrix n m rho gamma list.now) }
    ensures { Replayed (matrix n m rho gamma list.now) index.now (eqb result 1) × (result ≤ 1) }
{
    let shape = Shape { n, m, rho, gamma };
    if matrix_index_replay::replay(shape, list, index) {
        return 1;
    }
    0
}
