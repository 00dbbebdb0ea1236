// The writer (paper 02, slip 2). A byte of an accepted message is a letter, of two octets, or
// stands for itself.
ghost use Rattle.std.specs.Prelude.{◌≡◌, true, ◌≤◌, length};
ghost use Rattle.spec.specs.Numbers.{message_max};
ghost use Rattle.spec.specs.Refusals.{NoneFits};
ghost use Rattle.spec.specs.Answers.{within, Promise};
ghost use Rattle.spec.specs.Utf8.{has_row, sequence, encoded, AllRows, WritePromise};
ghost use Rattle.laws.specs.Putting.{Put};

use crate::tables::octets;
use message::check::check;
use spec::{Refusal, Written, numbers};

// How many octets a byte of a message has.
fn width(b: u8) -> usize
    requires { has_row b ≡ true }
    ensures { result ≡ length (sequence b) }
{
    if b < 0x80 { 1 } else { 2 }
}

// How many octets a message has. It only counts, and write_octets writes: one walk for both is no
// plainer, for it would take what it does with a byte as a parameter with a contract.
fn measure(m: &[u8]) -> usize
    requires { AllRows m.now × (length m.now ≤ message_max) }
    ensures { result ≡ length (encoded m.now) }
{
    let mut n = 0;
    for &b in m {
        n += width(b);
    }
    n
}

// Writes the octets of a message, where there is room for them, and answers how many they are.
fn write_octets(m: &[u8], out: &mut [u8]) -> usize
    requires { AllRows m.now × (length (encoded m.now) ≤ length out.old) }
    ensures { Put (encoded m.now) out.old out.new result 0 }
{
    let mut at = 0;
    for &b in m {
        if b < 0x80 {
            out[at] = b;
            at += 1;
        } else {
            let [lead, next] = octets(b);
            out[at] = lead;
            out[at + 1] = next;
            at += 2;
        }
    }
    at
}

// Writes an accepted message. Only an output that is shorter than two octets for each byte can be
// too short.
fn write_accepted(m: &[u8], out: &mut [u8]) -> Result<Written, Refusal>
    requires { NoneFits m.now }
    ensures { Promise (within (length out.old) (length (encoded m.now)) 0)
        (encoded m.now) out.old out.new result }
{
    if out.len() < 2 * m.len() {
        let n = measure(m);
        if out.len() < n {
            return Err(Refusal {
                number: numbers::SHORT_OUTPUT,
                place: n,
            });
        }
    }
    let length = write_octets(m, out);
    Ok(Written { length, live: 0 })
}

// Writes a message in UTF-8 at the start of the lent output, or refuses and leaves every byte.
pub fn write_utf8(m: &[u8], out: &mut [u8]) -> Result<Written, Refusal>
    ensures { WritePromise m.now out.old out.new result }
{
    // Not by `?`: a refusal has an arm of its own, so that a wrong arm is refused for what it says.
    match check(m) {
        Ok(_) => write_accepted(m, out),
        Err(r) => Err(r),
    }
}
