// The program for levels: all of standard input is a level in decimal, and what is answered for its
// words is printed.
#![tactic(auto)]

mod level;

ghost use Rattle.std.specs.Prelude.{◌≡◌, ◌≢◌, ◌↔◌, [], IfOk, IfSome, IsErrOf, IsTrue, OnOk};
ghost use Rattle.std.specs.Io.KnownBytes.{Appends};
ghost use Rattle.spec.specs.Printed.{printed_level};

use console::{Failure, standard};
use level::{TYPED_MAX, print_level};
use std::io::{Read, Write};

// Reads a level, and writes what is printed for it. One byte more than the longest number tells
// that a text is too long for one. For what is no number nothing is printed, and the answer is
// false. Nothing is written of a level that could not be read.
fn print_input<R: Read, W: Write>(input: &mut R, output: &mut W) -> Result<bool, Failure>
    ensures text { OnOk result (IfSome (R.remaining input.old)
        (λ t. Appends (W.contents output.old) (W.contents output.new) (printed_level t))) }
    ensures some { IfOk result (λ some. IfSome (R.remaining input.old)
        (λ t. IsTrue some ↔ (printed_level t ≢ []))) }
    ensures unread { IsErrOf result Failure.Unread
        → W.contents output.new ≡ W.contents output.old }
{
    // Handed on by a name, so that the must-fail edit of it is refused for what it says.
    let is_number = standard::print_input(input, output, &mut [0u8; TYPED_MAX + 1], print_level)?;
    Ok(is_number)
}

fn main(rt: HostRuntime) {
    let _ = match print_input(&mut rt.stdin(), &mut rt.stdout()) {
        Ok(true) => Ok(()),
        Ok(false) => eprintln!(rt; "gauge: standard input is no number"),
        Err(failure) => eprintln!(rt; "gauge: {failure}"),
    };
}
