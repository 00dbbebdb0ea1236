// What is printed for a text in UTF-8: the reader's refusal, or what the transcriber answers for
// the edited bytes.
ghost use Rattle.std.specs.Prelude.{◌≡◌, ◌≤◌, length, take};
ghost use Rattle.spec.specs.Tape.{tape};
ghost use Rattle.spec.specs.Editing.{edited};
ghost use Rattle.spec.specs.Utf8.{decoded};
ghost use Rattle.spec.specs.Printed.{printed_answer, text_answer, printed_text};
ghost use Rattle.console.specs.Putting.{Appended, IsPrefixLen};

use console::text::{ANSWER, TEXT, put_answer, put_bytes, put_refusal};
use editor::edit;
use spec::Edition;
use utf8::reader::read_utf8;

// The longest text that is read.
pub const TEXT_MAX: usize = 65536;

// Edits a text that was read, and answers how long it is then. The editor has room for it, so it
// refuses nothing.
fn edit_read(m: &[u8], plain: &mut [u8]) -> usize
    requires { length m.now ≤ length plain.old }
    ensures prefix_len { IsPrefixLen result plain.new }
    ensures plain_after { take result plain.new ≡ edited m.now }
{
    edit(m, plain).unwrap().length
}

// Reads the text and edits it, and puts what the transcriber answers, or the reader's refusal.
fn put_read(t: &[u8], print: &mut [u8]) -> usize
    requires { (length t.now ≤ TEXT_MAX) × (ANSWER ≤ length print.old) }
    ensures appended { Appended (printed_answer (text_answer t.now)
        (tape Edition.One (edited (decoded t.now))))
        print.old print.new 0 result }
    ensures upper_bound { result ≤ ANSWER }
{
    let mut read = [0u8; TEXT_MAX];
    match read_utf8(t, &mut read) {
        Ok(w) => {
            let mut plain = [0u8; TEXT_MAX];
            let n = edit_read(&read[..w.length], &mut plain);
            put_answer(&plain[..n], print)
        }
        Err(r) => put_refusal(r, print),
    }
}

// Puts the whole of what is printed, and answers how long it is: 0 where the text is too long.
#[tactic(auto, using(crate::proofs::Texts::text_long))]
pub fn print_text(t: &[u8], print: &mut [u8; TEXT]) -> usize
    ensures prefix_len { IsPrefixLen result print.new }
    ensures print_after { take result print.new ≡ printed_text t.now }
{
    if TEXT_MAX < t.len() {
        return 0;
    }
    let end = put_read(t, print);
    put_bytes(print, end, b"\n")
}
