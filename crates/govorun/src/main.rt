// The program: all of standard input is the message, and its text is printed.
#![tactic(auto)]

ghost use Rattle.std.specs.Prelude.{◌≡◌, IfSome, IsErrOf, OnOk};
ghost use Rattle.std.specs.Io.KnownBytes.{Appends};
ghost use Rattle.spec.specs.Printed.{printed};

use console::text::print_message;
use console::{Failure, standard};
use spec::numbers::MESSAGE_MAX;
use std::io::{Read, Write};

// Reads a message, and writes what is printed for it. One byte more than the longest message tells
// that a message is too long. Nothing is written of a message that could not be read.
fn print_input<R: Read, W: Write>(input: &mut R, output: &mut W) -> Result<(), Failure>
    ensures text { OnOk result (IfSome (R.remaining input.old)
        (λ m. Appends (W.contents output.old) (W.contents output.new) (printed m))) }
    ensures unread { IsErrOf result Failure.Unread
        → W.contents output.new ≡ W.contents output.old }
{
    standard::print_input(input, output, &mut [0u8; MESSAGE_MAX + 1], print_message)?;
    Ok(())
}

fn main(rt: HostRuntime) {
    if let Err(failure) = print_input(&mut rt.stdin(), &mut rt.stdout()) {
        let _ = eprintln!(rt; "govorun: {failure}");
    }
}
