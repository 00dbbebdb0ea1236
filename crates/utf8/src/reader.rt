// The reader (paper 02, slip 2). The text is gone over twice: nothing may be written before all of
// it is known to be readable and to have room.
ghost use Rattle.std.specs.Prelude.{◌≡◌, ◌+◌, ◌≤◌, length};
ghost use Rattle.spec.specs.Tables.{among};
ghost use Rattle.spec.specs.Utf8.{ascii_bytes, decoded, ReadPromise};
ghost use Rattle.laws.specs.Putting.{Put};
ghost use Rattle.utf8.specs.Walk.{Stands, Reaches};

use crate::Extent;
use crate::tables::{is_letter, letter};
use editor::is_break;
use spec::{Refusal, Written, numbers};

// Does the octet stand for itself: the stress mark, a break or a mark of punctuation?
fn is_single(b: u8) -> bool
    ensures { result ≡ among ascii_bytes b }
{
    (b == b'*') | is_break(b)
}

// How far it is readable where so many octets were read before, which became so many bytes, and at
// most one is left. The loop has them as two numbers, so no Extent is made for this.
fn measure_last(text: &[u8], octets: usize, bytes: usize) -> Extent
    requires { Stands text.now octets bytes × (length text.now ≤ octets + 1) }
    ensures { Reaches text.now result }
{
    if octets < text.len() && is_single(text[octets]) {
        return Extent {
            octets: octets + 1,
            bytes: bytes + 1,
        };
    }
    Extent { octets, bytes }
}

// How far the text is readable. The loop stops before the last octet, so that another always
// follows, and moves by one or two octets, so no iterator goes over them. It only counts, and copy
// writes: one walk for both is no plainer, for it would take what it does with a byte as a
// parameter with a contract.
fn measure(text: &[u8]) -> Extent
    ensures { Reaches text.now result }
{
    let last = text.len().saturating_sub(1);
    let mut i = 0;
    let mut n = 0;
    while i < last {
        let after = i + 1;
        let lead = text[i];
        let next = text[after];
        if is_single(lead) {
            i = after;
            n += 1;
        } else if is_letter(lead, next) {
            i += 2;
            n += 1;
        } else {
            return Extent {
                octets: i,
                bytes: n,
            };
        }
    }
    measure_last(text, i, n)
}

// Writes the bytes that are read of a text, so many, where there is room for them. Their number
// ends the loop, so the text's end is not asked for; it too moves by one or two octets.
fn copy(text: &[u8], bytes: usize, out: &mut [u8])
    requires { (bytes ≡ length (decoded text.now)) × (bytes ≤ length out.old) }
    ensures { Put (decoded text.now) out.old out.new bytes 0 }
{
    let mut i = 0;
    for n in 0..bytes {
        let b = text[i];
        if b < 0x80 {
            out[n] = b;
            i += 1;
        } else {
            out[n] = letter(b, text[i + 1]);
            i += 2;
        }
    }
}

// Reads a text into the lent output, or refuses and leaves every byte.
pub fn read_utf8(text: &[u8], out: &mut [u8]) -> Result<Written, Refusal>
    ensures { ReadPromise text.now out.old out.new result }
{
    let extent = measure(text);
    if extent.octets < text.len() {
        return Err(Refusal {
            number: numbers::UNREADABLE_TEXT,
            place: extent.octets,
        });
    }
    let length = extent.bytes;
    if out.len() < length {
        return Err(Refusal {
            number: numbers::SHORT_OUTPUT,
            place: length,
        });
    }
    copy(text, length, out);
    Ok(Written { length, live: 0 })
}
