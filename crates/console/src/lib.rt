#![tactic(auto)]

pub mod standard;
pub mod text;

use std::fmt;

// Why a run gave up: its input could not be read, or its output could not be written.
#[derive(Clone, Copy)]
pub enum Failure {
    Unread,
    Unwritten,
}

// What a program complains of, behind its name.
impl fmt::Display for Failure {
    ghost use Rattle.std.specs.Prelude.{Some};
    ghost use Rattle.console.specs.Complaints.{complaint};

    ghost output = { λ failure. Some (complaint failure) };

    fn fmt<W: fmt::Write>(&self, f: &mut fmt::Formatter<W>) -> fmt::Result {
        f.write_str(match self {
            Failure::Unread => "standard input could not be read",
            Failure::Unwritten => "standard output could not be written",
        })
    }
}
