// Bytes, decimal numbers and hexadecimal words as text in a lent buffer.
// Each function puts its text at a place of the buffer and answers the place after it.
// Rests on `counting`. Document 01: "Worked by hand", the paragraph on the program.
#![tactic(auto)]

ghost use Rattle.std.specs.Prelude.{◌+◌, ◌*◌, ◌%◌, ◌≤◌, ◌<◌, ◌≡◌, [], ◌∷◌, ◌++◌, length};
ghost use Rattle.program_numerals.specs.Paper.Numerals.{ascii, digit, decimal, hex};
ghost use Rattle.program_numerals.specs.Texts.{Room, Put, PutWithin};

// The digit of a number below 16.
fn digit(d: u8) -> u8
    requires { d < 16 }
    ensures { result ≡ digit d }
{
    if d < 10 { 48 + d } else { 87 + d }
}

// One byte.
fn put_byte(out: &mut [u8], at: usize, b: u8) -> usize
    requires { Room (b ∷ []) at out.old }
    ensures { Put (b ∷ []) at out.old out.new result }
{
    out[at] = b;
    at + 1
}

// A text as it is. Only this repository's crates call it, where there is room.
#[tactic(auto, using(crate::proofs::Puts::put_part))]
pub fn put_text(out: &mut [u8], at: usize, text: &[u8]) -> usize
    requires { Room text.now at out.old }
    ensures { Put text.now at out.old out.new result }
{
    let end = at + text.len();
    out[at..end].copy_from_slice(text);
    end
}

// The last decimal digit of x.
fn put_last(out: &mut [u8], at: usize, x: u16) -> usize
    requires { at < length out.old }
    ensures { Put (digit (x % 10) ∷ []) at out.old out.new result }
{
    put_byte(out, at, digit((x % 10) as u8))
}

// The digits of x: those of x / 10, and then the last one.
fn put_decimal(out: &mut [u8], at: usize, x: u16) -> usize
    requires { Room (decimal x) at out.old }
    ensures { Put (decimal x) at out.old out.new result }
{
    if x < 10 {
        return put_last(out, at, x);
    }
    let end = put_decimal(out, at, x / 10);
    put_last(out, end, x)
}

// Two digits of a byte.
fn put_pair(out: &mut [u8], at: usize, b: u8) -> usize
    requires { at + 1 < length out.old }
    ensures { Put (hex (b ∷ [])) at out.old out.new result }
{
    let end = put_byte(out, at, digit(b / 16));
    put_byte(out, end, digit(b % 16))
}

// Two digits for each byte.
fn put_hex(out: &mut [u8], at: usize, word: &[u8]) -> usize
    requires { Room (hex word.now) at out.old }
    ensures { Put (hex word.now) at out.old out.new result }
{
    let mut end = at;
    for b in word {
        end = put_pair(out, end, *b);
    }
    end
}

// The digits of a word, and the line's end. Only this repository's crates call it, where there is room.
pub fn put_word(out: &mut [u8], at: usize, word: &[u8]) -> usize
    requires { at + 2 * length word.now < length out.old }
    ensures { PutWithin (2 * length word.now + 1) (hex word.now ++ ascii "\n") at out.old out.new result }
{
    let next = put_hex(out, at, word);
    put_byte(out, next, b'\n')
}

// A number, and the byte that ends its field. Only this repository's crates call it, where there is room.
pub fn put_number(out: &mut [u8], at: usize, x: u16, end: u8) -> usize
    requires { at + 6 ≤ length out.old }
    ensures { PutWithin 6 (decimal x ++ (end ∷ [])) at out.old out.new result }
{
    let next = put_decimal(out, at, x);
    put_byte(out, next, end)
}
