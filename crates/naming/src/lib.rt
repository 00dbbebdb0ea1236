// The naming operation: one walk over the message from its end, which writes the syllable names
// from their end.
#![tactic(auto)]

ghost use Rattle.std.specs.Prelude.{◌≡◌, ◌++◌, drop};
ghost use Rattle.spec.specs.Syllables.{incomplete, name_of};
ghost use Rattle.spec.specs.Tape.{names};
ghost use Rattle.spec.specs.LevelSteps.{level_steps};
ghost use Rattle.spec.specs.Answers.{NamePromise};
ghost use Rattle.laws.specs.Putting.{Put};
ghost use Rattle.letters.specs.Places.{last_at};
ghost use Rattle.naming.specs.Names.{name_piece, WordEnd, NameReady, VowelNamed, Named};
ghost use Rattle.naming.specs.Names.{NamesDue};

use letters::classes;
use letters::classify::class_of;
use letters::output::put;
use message::check::check;
use spec::{Cover, Level, Refusal, Syllable, Written, alphabet, numbers};
use stress::before::class_before;
use stress::levels::{at_word_end, level_of, look_back, steps_taken};
use stress::syllables::{is_consonant_or_sign, syllable_by};
use stress::{LevelRun, levels};

// What stands right of a place of the message, in the walk from its end: where the names written so
// far begin, and the run of the levels. The transcriber's walk puts other things at other bytes;
// what both share is the step of the levels.
#[derive(Clone, Copy)]
pub struct NameState {
    pub at: usize,
    pub levels: LevelRun,
}

// The name of letters left after the last vowel.
const INCOMPLETE: u8 = 7;

// The name of a syllable with a vowel.
#[tactic(auto, unfolding(spec::specs::Syllables::name_of, spec::specs::Syllables::name_in))]
fn name_of(s: Syllable) -> u8
    ensures { result ≡ name_of s }
{
    match (s.cover, s.level) {
        (Cover::Covered, Level::Stressed) => 1,
        (Cover::Bare, Level::Stressed) => 2,
        (Cover::Covered, Level::First) => 3,
        (Cover::Bare, Level::First) => 4,
        (Cover::Covered, Level::Second) => 5,
        (Cover::Bare, Level::Second) => 6,
    }
}

// The end of a word, at place i: letters after its last vowel are an incomplete syllable.
fn put_end(m: &[u8], i: usize, at: usize, out: &mut [u8]) -> usize
    requires { WordEnd m.now out.old i at }
    ensures { Put (incomplete (last_at m.now i)) out.old out.new at result }
{
    if is_consonant_or_sign(class_before(m, i)) {
        return put(out, at, INCOMPLETE);
    }
    at
}

// The vowel at place i names its syllable.
fn put_name(m: &[u8], i: usize, v: NameState, out: &mut [u8]) -> usize
    requires { VowelNamed m.now out.old i v }
    ensures { Put (name_piece m.now i) out.old out.new v.at result }
{
    let s = syllable_by(class_before(m, i), level_of(v.levels));
    put(out, v.at, name_of(s))
}

// The byte at place i.
fn step(m: &[u8], i: usize, v: NameState, out: &mut [u8]) -> NameState
    requires { NameReady m.now out.old i v }
    ensures { Named m.now out.old out.new i v result }
{
    let b = m[i];
    let c = class_of(b);
    let levels = levels::step(v.levels, b);
    if classes::PLAIN_VOWEL <= c {
        let at = put_name(m, i, v, out);
        return NameState { at, levels };
    }
    if classes::FIRST_LETTER <= c || b == alphabet::MARK {
        return NameState { at: v.at, levels };
    }
    let at = put_end(m, i, v.at, out);
    let levels = look_back(m, i, levels);
    NameState { at, levels }
}

// Writes the names of an accepted message, n of them, at the start of the output, and tells in how
// many steps the levels were found.
fn fill_names(m: &[u8], out: &mut [u8], n: usize) -> usize
    requires { NamesDue m.now out.old n }
    ensures { (out.new ≡ names m.now ++ drop n out.old)
        × (result ≡ level_steps m.now) }
{
    let at = put_end(m, m.len(), n, out);
    let levels = look_back(m, m.len(), at_word_end(0, 0, false));
    let mut v = NameState { at, levels };
    for i in (0..m.len()).rev() {
        v = step(m, i, v, out);
    }
    steps_taken(v.levels)
}

// The naming operation (paper 01, pass 2): writes the syllable names of the message at the start of
// the lent output, or refuses and leaves every byte.
pub fn name(m: &[u8], out: &mut [u8]) -> Result<Written, Refusal>
    ensures { NamePromise m.now out.old out.new result }
{
    let n = check(m)?.names;
    if out.len() < n {
        return Err(Refusal {
            number: numbers::SHORT_OUTPUT,
            place: n,
        });
    }
    fill_names(m, out, n);
    Ok(Written { length: n, live: 0 })
}
