// What an operation answers after the check.
ghost use Rattle.std.specs.Prelude.{◌≡◌};
ghost use Rattle.spec.specs.Answers.{after_check};
ghost use Rattle.spec.specs.Results.{wrote};

use spec::{Counts, Refusal, Written};

// The check's refusal as an operation's answer; for an accepted message nothing is written.
// Transcriber and joiner need it: paper 01 names the `let .. else`, whose `else` binds nothing.
#[tactic(auto, unfolding(spec::specs::Answers::after_check))]
pub fn refused(c: Result<Counts, Refusal>) -> Result<Written, Refusal>
    ensures { result ≡ after_check c (wrote 0 0) }
{
    match c {
        Ok(_) => Ok(Written { length: 0, live: 0 }),
        Err(r) => Err(r),
    }
}
