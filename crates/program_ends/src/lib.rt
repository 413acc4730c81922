// The stages of the run, as functions on slices: what the bytes that came say, what is awaited then, and how the run ends.
// Rests on `program_turns`, `program_lines`, `program_input`, `program_tables`, `byte_numbers` and `program_text`. Nothing here reads or writes.
// Document 01: "Worked by hand", the paragraph on the program.
#![tactic(auto)]

ghost use Rattle.std.specs.Prelude.{ℕ, ◌*◌, ◌≤◌, ◌≡◌, true, List, [], length, take};
ghost use Rattle.matrix.specs.Paper.Shapes.{matrix_of};
ghost use Rattle.quantiser_settings.specs.Paper.Settings.{setting_of};
ghost use Rattle.matrix.specs.Paper.Check.{sizes_fit};
ghost use Rattle.program_ends.specs.Stages.{the_list, the_setting, blocks_from, first_reply, ends, sizes_reply, list_reply, setting_reply, blocks_reply};
ghost use Rattle.program_turns.specs.Turns.{bytes_at_once};
ghost use Rattle.program_ends.specs.Replies.{awaited_of, Asked, Replied, RepliedOver, list_after, tables_after, Advanced};

use answers::Refusal;
use matrix_check::Shape;
use quantiser::Setting;

// What the run awaits: with the sizes that it has, the setting, and the number of the next block.
#[derive(Clone, Copy, Debug, PartialEq)]
pub enum Stage {
    AtSizes,
    AtList(Shape),
    AtSetting(Shape),
    AtBlocks(Shape, Setting, u16),
    AtEnd,
}

// What follows: the stage, how many bytes it wants, and where the text in the output buffer ends. The run is over where no byte is wanted:
// a number, as `wanted` is in the definitions, since blocks past the 65,535th want none either.
#[derive(Clone, Copy, Debug, PartialEq)]
pub struct Next {
    pub stage: Stage,
    pub want: usize,
    pub end: usize,
}

// How many entries the list has.
fn entries(shape: Shape) -> usize
    requires { shape.m * shape.rho ≤ 32736 }
    ensures { result ≡ shape.m * shape.rho }
{
    (shape.m as usize) * (shape.rho as usize)
}

// The run begins: the heading, and the sizes are awaited. Only this repository's crates call it, with a large buffer.
pub fn first(out: &mut [u8]) -> Next
    requires { length out.old ≡ 65536 }
    ensures { (l : List ℕ) → RepliedOver first_reply (awaited_of result.stage l) result.want result.end out.old out.new }
{
    let end = program_text::put_heading(out, 0);
    Next {
        stage: Stage::AtSizes,
        want: 8,
        end,
    }
}

// The run ends with the text that stands before `end`.
fn run_over(out: &[u8], end: usize) -> Next
    requires { end ≤ length out.now }
    ensures { ((l : List ℕ) → Replied (ends (take end out.now)) (awaited_of result.stage l) result.want result.end out.now) × (result.end ≡ end) }
{
    Next {
        stage: Stage::AtEnd,
        want: 0,
        end,
    }
}

// Blocks are awaited, from `number` on, once the text that stands before `end` is printed.
fn at_blocks(shape: Shape, setting: Setting, number: u16, end: usize) -> Next
    requires { (2 ≤ shape.n) × (shape.n ≤ 1023) }
    ensures { ((l : List ℕ) → awaited_of result.stage l ≡ blocks_from (matrix_of shape (take (shape.m * shape.rho) l)) (setting_of setting) number) × (result.want ≡ bytes_at_once shape.n number) × (result.end ≡ end) }
{
    let n = shape.n as usize;
    let want = program_turns::at_once(n, number) * (4 * n);
    Next {
        stage: Stage::AtBlocks(shape, setting, number),
        want,
        end,
    }
}

// The sizes came, or the input ended.
fn after_sizes(bytes: &[u8], out: &mut [u8]) -> Next
    requires { length out.old ≡ 65536 }
    ensures { (l : List ℕ) → RepliedOver (sizes_reply bytes.now) (awaited_of result.stage l) result.want result.end out.old out.new }
{
    if bytes.len() < 8 {
        let end = program_text::put_short(out, 0);
        return run_over(out, end);
    }
    let shape = program_input::sizes(bytes);
    if program_input::sizes_refused(shape) {
        let end = program_text::put_refused(out, 0, Refusal::Sizes);
        return run_over(out, end);
    }
    let want = 2 * entries(shape);
    Next {
        stage: Stage::AtList(shape),
        want,
        end: 0,
    }
}

// The list came, or the input ended.
fn after_list(shape: Shape, list: &mut [u16], bytes: &[u8], out: &mut [u8]) -> Next
    requires { (sizes_fit (matrix_of shape []) ≡ true) × (length bytes.now ≤ 2 * (shape.m * shape.rho)) × (length list.old ≡ 32736) × (length out.old ≡ 65536) }
    ensures { RepliedOver (list_reply (matrix_of shape []) bytes.now) (awaited_of result.stage list.new) result.want result.end out.old out.new × (list.new ≡ list_after (the_list (matrix_of shape [])) bytes.now list.old) }
{
    let want = 2 * entries(shape);
    if bytes.len() < want {
        let end = program_text::put_short(out, 0);
        return run_over(out, end);
    }
    byte_numbers::entries(bytes, list);
    Next {
        stage: Stage::AtSetting(shape),
        want: 7,
        end: 0,
    }
}

// The setting came, or the input ended. The tables are built here, once for all blocks.
fn after_setting(
    shape: Shape,
    list: &[u16],
    tables: &mut [u64],
    bytes: &[u8],
    out: &mut [u8],
) -> Next
    requires { Asked (the_setting (matrix_of shape (take (shape.m * shape.rho) list.now))) list.now tables.old bytes.now out.old }
    ensures { RepliedOver (setting_reply (matrix_of shape (take (shape.m * shape.rho) list.now)) bytes.now) (awaited_of result.stage list.now) result.want result.end out.old out.new × (tables.new ≡ tables_after (the_setting (matrix_of shape (take (shape.m * shape.rho) list.now))) bytes.now tables.old) }
{
    if bytes.len() < 7 {
        let end = program_text::put_short(out, 0);
        return run_over(out, end);
    }
    let count = entries(shape);
    let opened = program_input::begin(shape, &list[..count], bytes);
    match opened {
        Ok(setting) => {
            program_tables::build(shape, &list[..count], setting, tables);
            at_blocks(shape, setting, 0, 0)
        }
        Err(f) => {
            let end = program_text::put_refused(out, 0, f);
            run_over(out, end)
        }
    }
}

// Blocks came, or the input ended.
fn after_blocks(
    shape: Shape,
    list: &[u16],
    tables: &[u64],
    setting: Setting,
    number: u16,
    bytes: &[u8],
    out: &mut [u8],
) -> Next
    requires { Asked (blocks_from (matrix_of shape (take (shape.m * shape.rho) list.now)) (setting_of setting) number) list.now tables.now bytes.now out.old }
    ensures { RepliedOver (blocks_reply (matrix_of shape (take (shape.m * shape.rho) list.now)) (setting_of setting) number bytes.now) (awaited_of result.stage list.now) result.want result.end out.old out.new }
{
    let n = shape.n as usize;
    let m = shape.m as usize;
    let some = program_turns::at_once(n, number);
    let want = some * (4 * n);
    let count = entries(shape);
    let size = program_tables::SETS + (17 * n + 16 * m);
    let end = program_lines::chunk(
        shape,
        &list[..count],
        &tables[..size],
        setting,
        number,
        bytes,
        out,
        0,
    );
    if bytes.len() < want {
        return run_over(out, end);
    }
    at_blocks(shape, setting, number + some as u16, end)
}

// The bytes came that a stage awaits, or fewer where the input ended.
fn advance(stage: Stage, list: &mut [u16], tables: &mut [u64], bytes: &[u8], out: &mut [u8]) -> Next
    requires { Asked (awaited_of stage list.old) list.old tables.old bytes.now out.old }
    ensures { Advanced (awaited_of stage list.old) bytes.now list.old list.new tables.old tables.new (awaited_of result.stage list.new) result.want result.end out.old out.new }
{
    match stage {
        Stage::AtSizes => after_sizes(bytes, out),
        Stage::AtList(shape) => after_list(shape, list, bytes, out),
        Stage::AtSetting(shape) => after_setting(shape, list, tables, bytes, out),
        Stage::AtBlocks(shape, setting, number) => {
            after_blocks(shape, list, tables, setting, number, bytes, out)
        }
        Stage::AtEnd => run_over(out, 0),
    }
}

// The same for bytes at the front of a buffer, of which `got` came. Only this repository's crates call it.
pub fn reply_to(
    stage: Stage,
    list: &mut [u16],
    tables: &mut [u64],
    input: &[u8],
    got: usize,
    out: &mut [u8],
) -> Next
    requires { (got ≤ length input.now) × Asked (awaited_of stage list.old) list.old tables.old (take got input.now) out.old }
    ensures { Advanced (awaited_of stage list.old) (take got input.now) list.old list.new tables.old tables.new (awaited_of result.stage list.new) result.want result.end out.old out.new }
{
    advance(stage, list, tables, &input[..got], out)
}
