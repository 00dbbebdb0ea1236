// The text that the programs print, made in a lent buffer.
ghost use Rattle.std.specs.Prelude.{◌≡◌, [], ◌∷◌, ◌+◌, ◌*◌, ◌<◌, ◌≤◌, length, take};
ghost use Rattle.spec.specs.Tape.{tape};
ghost use Rattle.spec.specs.Answers.{tape_answer};
ghost use Rattle.spec.specs.Printed.{decimal, printed_codes, printed_answer, printed};
ghost use Rattle.console.specs.Putting.{Appended, IsPrefixLen, code_at};

use spec::{Edition, Refusal};
use transcriber::tape::transcribe;

// A tape has at most two codes for each byte of the longest message.
const CODES: usize = 8192;

// A code is a byte: at most three digits, and a space between neighbours.
pub const ANSWER: usize = 4 * CODES;

// Behind the answer there is room for a newline.
pub const TEXT: usize = ANSWER + 1;

// Puts a byte at place at, and answers the place after it.
fn put(text: &mut [u8], at: usize, byte: u8) -> usize
    requires { at < length text.old }
    ensures { Appended (byte ∷ []) text.old text.new at result }
{
    text[at] = byte;
    at + 1
}

// Puts a number in decimal: the digits before the last one are those of a tenth of it.
fn put_decimal(text: &mut [u8], at: usize, n: usize) -> usize
    requires { at + length (decimal n) ≤ length text.old }
    ensures { Appended (decimal n) text.old text.new at result }
{
    let digit = b'0' + (n % 10) as u8;
    if n < 10 {
        return put(text, at, digit);
    }
    let end = put_decimal(text, at, n / 10);
    put(text, end, digit)
}

// Puts a text as it stands.
pub fn put_bytes(text: &mut [u8], at: usize, bytes: &[u8]) -> usize
    requires { at + length bytes.now ≤ length text.old }
    ensures { Appended bytes.now text.old text.new at result }
{
    let mut end = at;
    for &byte in bytes {
        end = put(text, end, byte);
    }
    end
}

// Puts one code, and a space where another follows.
fn put_code(codes: &[u8], i: usize, text: &mut [u8], at: usize) -> usize
    requires { (i < length codes.now) × (at + length (code_at codes.now i) ≤ length text.old) }
    ensures { Appended (code_at codes.now i) text.old text.new at result }
{
    let end = put_decimal(text, at, codes[i] as usize);
    if i + 1 < codes.len() {
        return put(text, end, b' ');
    }
    end
}

// Puts the codes from the text's start on.
fn put_codes(codes: &[u8], text: &mut [u8]) -> usize
    requires { 4 * length codes.now ≤ length text.old }
    ensures appended { Appended (printed_codes codes.now)
        text.old text.new 0 result }
    ensures upper_bound { result ≤ 4 * length codes.now }
{
    let mut at = 0;
    for i in 0..codes.len() {
        at = put_code(codes, i, text, at);
    }
    at
}

// Puts a refusal at the text's start. Not as its Display, which would stand beside the type, in the
// crate that has no function.
pub fn put_refusal(r: Refusal, text: &mut [u8]) -> usize
    requires { length (printed_answer (Err r) []) ≤ length text.old }
    ensures { Appended (printed_answer (Err r) [])
        text.old text.new 0 result }
{
    let number = r.number as usize;
    let place = r.place;
    let mut end = put_bytes(text, 0, b"refused ");
    end = put_decimal(text, end, number);
    end = put_bytes(text, end, b" at ");
    put_decimal(text, end, place)
}

// Puts what the transcriber answers, which is lent room for every tape. The programs keep edition 1
// (paper 02, request 8).
pub fn put_answer(m: &[u8], text: &mut [u8]) -> usize
    requires { ANSWER ≤ length text.old }
    ensures appended { Appended (printed_answer (tape_answer Edition.One m.now 8192)
        (tape Edition.One m.now))
        text.old text.new 0 result }
    ensures upper_bound { result ≤ ANSWER }
{
    let mut codes = [0u8; CODES];
    match transcribe(Edition::One, m, &mut codes) {
        Ok(w) => put_codes(&codes[..w.length], text),
        Err(r) => put_refusal(r, text),
    }
}

// Puts the whole text for a message, and answers how long it is.
pub fn print_message(m: &[u8], text: &mut [u8; TEXT]) -> usize
    ensures prefix_len { IsPrefixLen result text.new }
    ensures text_after { take result text.new ≡ printed m.now }
{
    let end = put_answer(m, text);
    put_bytes(text, end, b"\n")
}
