// The program for texts in UTF-8: all of standard input is the text, and what is answered for it is
// printed.
#![tactic(auto)]

mod text;

ghost use Rattle.std.specs.Prelude.{◌≡◌, ◌≢◌, ◌↔◌, [], IfOk, IfSome, IsErrOf, IsTrue, OnOk};
ghost use Rattle.std.specs.Io.KnownBytes.{Appends};
ghost use Rattle.spec.specs.Printed.{printed_text};

use console::{Failure, standard};
use std::io::{Read, Write};
use text::{TEXT_MAX, print_text};

// Reads a text, and writes what is printed for it. One byte more than the longest text tells that a
// text is too long: then nothing is printed, and the answer is false. Nothing is written of a text
// that could not be read.
fn print_input<R: Read, W: Write>(input: &mut R, output: &mut W) -> Result<bool, Failure>
    ensures text { OnOk result (IfSome (R.remaining input.old)
        (λ t. Appends (W.contents output.old) (W.contents output.new) (printed_text t))) }
    ensures some { IfOk result (λ some. IfSome (R.remaining input.old)
        (λ t. IsTrue some ↔ (printed_text t ≢ []))) }
    ensures unread { IsErrOf result Failure.Unread
        → W.contents output.new ≡ W.contents output.old }
{
    standard::print_input(input, output, &mut [0u8; TEXT_MAX + 1], print_text)
}

fn main(rt: HostRuntime) {
    let _ = match print_input(&mut rt.stdin(), &mut rt.stdout()) {
        Ok(true) => Ok(()),
        Ok(false) => eprintln!(rt; "speak: standard input is too long"),
        Err(failure) => eprintln!(rt; "speak: {failure}"),
    };
}
