// The levels of vowels (paper 01, pass 2), found by a running step (paper 02, request 3), for both
// walks, which go from the message's end to its start. The step takes one byte, and of the message
// it knows what its state carries, counts and flags. A walk takes it over each byte once; at the
// end of a word it is first taken ahead, back to the word's last mark or to the break before it, to
// learn whether the word has a mark. How many steps these are `level_steps` says
// (crates/spec/specs/LevelSteps.antt); no byte is stepped over more than twice.
ghost use Rattle.std.specs.Prelude.{◌≡◌, ◌<◌, min};
ghost use Rattle.stress.specs.Levels.{counted_by, numbered, end_run, step_over};
ghost use Rattle.stress.specs.Levels.{steps_of, turn_of, StepDue, LookDue, Looked};

use crate::LevelRun;
use letters::classes;
use letters::classify::class_of;
use spec::{Level, alphabet};

// How many syllables from a mark it makes no difference any more.
const FAR: usize = 2;

// The run at a word's end, after so many steps, with what is known of the word's marks.
pub fn at_word_end(before: usize, steps: usize, marked: bool) -> LevelRun
    ensures { result ≡ end_run before steps marked }
{
    LevelRun {
        before,
        steps,
        since: FAR,
        marked,
        edge: true,
    }
}

// The step, over byte b, the next to the left.
#[tactic(auto, using(crate::proofs::Stepping::steps_by_class))]
pub fn step(s: LevelRun, b: u8) -> LevelRun
    requires { StepDue s b }
    ensures { result ≡ step_over s b }
{
    let c = class_of(b);
    let next = LevelRun {
        steps: s.steps + 1,
        edge: false,
        ..s
    };
    if classes::PLAIN_VOWEL <= c {
        return LevelRun {
            since: s.since + 1,
            ..next
        };
    }
    if classes::FIRST_LETTER <= c {
        return next;
    }
    if b == alphabet::MARK {
        return LevelRun {
            since: 0,
            marked: true,
            edge: true,
            ..next
        };
    }
    at_word_end(next.before, next.steps, false)
}

// Takes the step ahead from the end of a word, place i, until a mark or a break is met.
pub fn look_back(m: &[u8], i: usize, s: LevelRun) -> LevelRun
    requires { LookDue m.now i s }
    ensures { Looked m.now i s result }
{
    let mut ahead = s;
    for j in (0..i).rev() {
        ahead = step(ahead, m[j]);
        if ahead.edge {
            return at_word_end(ahead.before, ahead.steps, ahead.marked);
        }
    }
    at_word_end(ahead.before, ahead.steps, false)
}

// All steps that were taken. That they are few is asked and no fact of the run: each step would
// have to show it again, and the walk alone knows it.
pub fn steps_taken(s: LevelRun) -> usize
    requires { steps_of s < 65536 }
    ensures { result ≡ steps_of s }
{
    s.before + s.steps
}

// The run where a turn of the walk begins: its steps are counted apart and then added. So the count
// that the walk carries is changed at one place only, and the compiler can leave it out.
pub fn begin_turn(s: LevelRun) -> LevelRun
    requires { steps_of s < 65536 }
    ensures { result ≡ turn_of s }
{
    LevelRun {
        before: steps_taken(s),
        steps: 0,
        ..s
    }
}

// The smaller of two numbers. Not the library's `min`, with which the transcriber took 7 percent
// more instructions on text.
fn least(a: usize, b: usize) -> usize
    ensures { result ≡ min a b }
{
    if a < b { a } else { b }
}

// The level of the next vowel to the left: the syllables from it to the mark, but no more than 2,
// or 1 in a word with no mark. With three numbers told apart the compiler takes the number for the
// level as it is: with a test of the flag in an arm naming took 1.3 times the time on text.
pub fn level_of(s: LevelRun) -> Level
    ensures { result ≡ numbered (counted_by s.since s.marked) }
{
    match least(s.since, 1 + s.marked as usize) {
        0 => Level::Stressed,
        1 => Level::First,
        2 => Level::Second,
        _ => Level::Second,
    }
}
