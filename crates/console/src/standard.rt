// Standard input, read whole, and what a program prints for it.
ghost use Rattle.std.specs.Prelude.{◌≡◌, ◌≢◌, ◌↔◌, ◌≤◌, [], IfOk, IfSome, IsErrOf, IsTrue, OnOk};
ghost use Rattle.std.specs.Prelude.{length, take};
ghost use Rattle.std.specs.Io.KnownBytes.{Appends};
ghost use Rattle.console.specs.Reading.{Takes, EndsOrFills, Makes};

use crate::Failure;
use crate::text::TEXT;
use std::io::{Read, Write};

// Reads until the input ends or the buffer is full, and answers how many bytes there are. A read
// that fails is told from the end, so that no part of a text passes for the whole.
pub fn read_input<R: Read>(input: &mut R, buffer: &mut [u8]) -> Result<usize, Failure>
    ensures within { IfOk result (λ n. n ≤ length buffer.new) }
    ensures bytes { IfOk result
        (λ n. Takes n (R.remaining input.old) (R.remaining input.new) buffer.new) }
    ensures whole { IfOk result (λ n. EndsOrFills n (R.remaining input.new) buffer.new) }
{
    let mut n = 0;
    // A `while`, since each read takes as many bytes as it likes, and no count of reads is known.
    while n < buffer.len() {
        let more = input.read(&mut buffer[n..]).map_err(|_| Failure::Unread)?;
        if more == 0 {
            return Ok(n);
        }
        n += more;
    }
    Ok(n)
}

// Reads the input as far as the buffer goes, and writes the text for it in one piece, where there
// is any. Answers whether there is. Nothing is written for an input that could not be read.
// `make_text` makes the text in an array that it is lent, and answers how long the text is; where
// it says more than the array has, that is all of it.
// The answer is a bool, since `some` says by it whether there was a text, and programs complain so.
pub fn print_input<R: Read, W: Write, F: FnOnce(&[u8], &mut [u8; TEXT]) -> usize>(
    input: &mut R,
    output: &mut W,
    buffer: &mut [u8],
    make_text: F,
) -> Result<bool, Failure>
    requires { F.IsAlwaysCallable make_text }
    ensures text { OnOk result (IfSome (R.remaining input.old)
        (λ t. Makes F.FnOnce make_text (take (length buffer.old) t)
        (λ text. Appends (W.contents output.old) (W.contents output.new) text))) }
    ensures some { IfOk result (λ some. IfSome (R.remaining input.old)
        (λ t. Makes F.FnOnce make_text (take (length buffer.old) t)
        (λ text. IsTrue some ↔ (text ≢ [])))) }
    ensures unread { IsErrOf result Failure.Unread
        → W.contents output.new ≡ W.contents output.old }
{
    let n = read_input(input, buffer)?;
    let mut text = [0u8; TEXT];
    let end = make_text(&buffer[..n], &mut text).min(TEXT);
    if end == 0 {
        return Ok(false);
    }
    output
        .write_all(&text[..end])
        .map_err(|_| Failure::Unwritten)?;
    Ok(true)
}
