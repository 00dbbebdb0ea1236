// What is printed for a level in decimal: the level's refusal, or what the transcriber answers for
// its words.
ghost use Rattle.std.specs.Prelude.{◌≡◌, ◌↔◌, ◌≤◌, true, length, take, drop, IsSome, IfSome};
ghost use Rattle.spec.specs.Tape.{tape};
ghost use Rattle.spec.specs.SpokenLevels.{spoken};
ghost use Rattle.spec.specs.Printed.{printed_answer, sign_length, are_digits, is_decimal};
ghost use Rattle.spec.specs.Printed.{digits_from, level_in, spoken_answer, printed_level};
ghost use Rattle.console.specs.Putting.{Appended, IsPrefixLen};
ghost use Rattle.gauge.specs.Reading.{Clipped, Like};

use console::text::{ANSWER, TEXT, put_answer, put_bytes, put_refusal};
use levels::{LONGEST, speak_level};
use spec::Edition;

// The longest text that is read as a number.
pub const TYPED_MAX: usize = 4096;

// A number as large is outside the range, whatever digits follow.
const OUTSIDE: usize = 10000;

// What stands behind the sign, which is a minus sign or none.
fn behind_sign(t: &[u8]) -> &[u8]
    ensures { result.now ≡ drop (sign_length t.now) t.now }
{
    t.strip_prefix(b"-").unwrap_or(t)
}

// Is there nothing but digits?
fn are_digits(t: &[u8]) -> bool
    ensures { result ≡ are_digits t.now }
{
    t.iter().all(|b| b.is_ascii_digit())
}

// The number that digits say; or, where that is outside the range, one that is, too.
#[tactic(auto, using(crate::proofs::Numbers::reading))]
fn read_digits(t: &[u8]) -> usize
    requires { are_digits t.now ≡ true }
    ensures { Clipped result (digits_from 0 t.now) }
{
    let mut n = 0;
    // No `fold`: the bound of the sum would have to come from a `requires` of its closure.
    for &b in t {
        if n < OUTSIDE {
            n = 10 * n + (b - b'0') as usize;
        }
    }
    n
}

// The level that the text says, as exactly as its digits are read; none where it is no number.
#[tactic(auto, using(crate::proofs::Numbers::numbers))]
fn read_level(t: &[u8]) -> Option<i32>
    ensures number { IsSome result ↔ (is_decimal t.now ≡ true) }
    ensures value { IfSome result (λ level. Like level (level_in t.now)) }
{
    let digits = behind_sign(t);
    if TYPED_MAX < t.len() || digits.is_empty() || !are_digits(digits) {
        return None;
    }
    let n = read_digits(digits) as i32;
    Some(if digits.len() < t.len() { -n } else { n })
}

// Speaks the level, lent room for the words of any, and puts what the transcriber answers.
fn put_level(level: i32, text: &mut [u8]) -> usize
    requires { ANSWER ≤ length text.old }
    ensures appended { Appended (printed_answer (spoken_answer level)
        (tape Edition.One (spoken level))) text.old text.new 0 result }
    ensures upper_bound { result ≤ ANSWER }
{
    let mut words = [0u8; LONGEST];
    match speak_level(level, &mut words) {
        Ok(w) => put_answer(&words[..w.length], text),
        Err(r) => put_refusal(r, text),
    }
}

// Puts the whole of what is printed, and answers how long it is: 0 where the text is no number.
pub fn print_level(t: &[u8], text: &mut [u8; TEXT]) -> usize
    ensures prefix_len { IsPrefixLen result text.new }
    ensures text_after { take result text.new ≡ printed_level t.now }
{
    let Some(level) = read_level(t) else {
        return 0;
    };
    let end = put_level(level, text);
    put_bytes(text, end, b"\n")
}
