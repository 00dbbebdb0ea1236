// The transcriber: one walk over the message from its end, which writes the tape from its end.
ghost use Rattle.std.specs.Prelude.{◌≡◌, ◌<◌, ◌≤◌, length};
ghost use Rattle.letters.specs.Classes.{is_consonant_class, is_vowel_class, elided_at};
ghost use Rattle.spec.specs.Tape.{tape};
ghost use Rattle.spec.specs.LevelSteps.{level_steps};
ghost use Rattle.spec.specs.Answers.{TranscribePromise};
ghost use Rattle.spec.specs.Layers.{TapeDue, TapePromise};
ghost use Rattle.laws.specs.Putting.{Put};
ghost use Rattle.vowels.specs.VowelSounds.{sung_codes};
ghost use Rattle.stress.specs.Levels.{steps_of};
ghost use Rattle.transcriber.specs.Walk.{begun_of, ClassAt, Ready, ReadyFor, BreakReady};
ghost use Rattle.transcriber.specs.Walk.{Stepped, SteppedAlike, MayWrite};

use crate::Right;
use consonants::{VOICELESS_END, consonant_code, seen_over, sound_of, sound_over_gap};
use letters::classes;
use letters::classify::class_of;
use letters::elision::is_elided;
use letters::output::put;
use message::answers::refused;
use message::check::check;
use spec::{Edition, Refusal, Written, alphabet, codes, numbers};
use stress::before::class_before;
use stress::levels::{at_word_end, begin_turn, level_of, look_back, steps_taken};
use stress::{LevelRun, levels};
use vowels::{Vowel, first_code, vowel_at};

// A break puts its mark, and left of it stands another word. c is its class, and passed the run of
// the levels over it. Class and place go by themselves: each function that takes them is called at
// one place of the step.
fn put_break(m: &[u8], i: usize, c: usize, r: Right, passed: LevelRun, out: &mut [u8]) -> Right
    requires { BreakReady m.now out.old i c r passed }
    ensures { SteppedAlike m.now out.old out.new i r result }
{
    let levels = look_back(m, i, passed);
    if c == classes::PAUSE {
        return Right {
            at: put(out, r.at, codes::PAUSE),
            sound: VOICELESS_END,
            levels,
        };
    }
    let sound = sound_over_gap(r.sound);
    Right {
        at: put(out, r.at, codes::GAP),
        sound, // no letter of the next word palatalizes across the gap
        levels,
    }
}

// Is the letter at place i, of class c, silent? Only т and д are, and only after с н р з, so
// another class before them spares the question.
fn is_silent(m: &[u8], i: usize, c: usize) -> bool
    requires { ClassAt m.now i c }
    ensures { result ≡ elided_at m.now i }
{
    c == classes::T_OR_D && class_before(m, i) == classes::PAIRED && is_elided(m, i)
}

// A consonant puts one code if it is heard. c is its class.
fn put_consonant(m: &[u8], i: usize, c: usize, r: Right, out: &mut [u8]) -> Right
    requires { ReadyFor is_consonant_class m.now out.old i c r }
    ensures { SteppedAlike m.now out.old out.new i r result }
{
    let b = m[i];
    let levels = levels::step(r.levels, b);
    if is_silent(m, i, c) {
        return Right {
            sound: seen_over(r.sound, false),
            levels,
            ..r
        };
    }
    let code = consonant_code(b, r.sound);
    Right {
        at: put(out, r.at, code),
        sound: code as usize,
        levels,
    }
}

// Puts the codes of a vowel.
fn put_sung(out: &mut [u8], at: usize, v: Vowel) -> usize
    requires { (length (sung_codes v) ≤ at) × (at ≤ length out.old) }
    ensures { Put (sung_codes v) out.old out.new at result }
{
    let place = put(out, at, v.code);
    if v.glide {
        put(out, place, codes::GLIDE)
    } else {
        place
    }
}

// A vowel puts its sound, and a glide before it where it has one. c is its class.
fn put_vowel(e: Edition, m: &[u8], i: usize, c: usize, r: Right, out: &mut [u8]) -> Right
    requires { ReadyFor is_vowel_class m.now out.old i c r }
    ensures { Stepped e m.now out.old out.new i r result }
{
    let levels = levels::step(r.levels, m[i]);
    let level = level_of(r.levels);
    let vowel = vowel_at(e, m, i, c, level);
    let at = put_sung(out, r.at, vowel);
    let sound = sound_of(first_code(vowel), classes::FIRST_PALATALIZING <= c);
    Right { at, sound, levels }
}

// The byte at place i. The levels' step is taken by vowels and consonants for themselves and once
// for all else, in each case before anything is written: so the compiler asks for the byte and its
// class once.
fn step(e: Edition, m: &[u8], i: usize, r: Right, out: &mut [u8]) -> Right
    requires { Ready m.now out.old i r }
    ensures { Stepped e m.now out.old out.new i r result }
{
    let b = m[i];
    let c = class_of(b);
    if classes::PLAIN_VOWEL <= c {
        return put_vowel(e, m, i, c, r, out);
    }
    if classes::HARD_ONLY <= c {
        return put_consonant(m, i, c, r, out);
    }
    let levels = levels::step(r.levels, b);
    if classes::HARD_SIGN <= c {
        return Right {
            sound: seen_over(r.sound, c == classes::SOFT_SIGN),
            levels,
            ..r
        };
    }
    if b == alphabet::MARK {
        return Right { levels, ..r };
    }
    put_break(m, i, c, r, levels, out)
}

// The same where a turn of the walk begins.
fn begun(r: Right) -> Right
    requires { steps_of r.levels < 65536 }
    ensures { result ≡ begun_of r }
{
    Right {
        levels: begin_turn(r.levels),
        ..r
    }
}

// Puts the tape of an accepted message, in an edition, right before place end of the output, and
// tells what stands right of the message's start: where the tape begins, and in how many steps the
// levels were found.
// It is the one caller of the step, so that the state stays in registers.
fn walk(e: Edition, m: &[u8], out: &mut [u8], end: usize) -> Right
    requires { MayWrite m.now out.old end }
    ensures { Put (tape e m.now) out.old out.new end result.at
        × (steps_of result.levels ≡ level_steps m.now) }
{
    let mut r = Right {
        at: end,
        sound: VOICELESS_END,
        levels: look_back(m, m.len(), at_word_end(0, 0, false)),
    };
    for i in (0..m.len()).rev() {
        r = step(e, m, i, begun(r), out);
    }
    r
}

// Puts the tape of an accepted message, in an edition, right before place end of the output, and
// tells in how many steps the levels were found.
pub fn write_tape(e: Edition, m: &[u8], out: &mut [u8], end: usize) -> usize
    requires { TapeDue m.now out.old end }
    ensures { TapePromise e m.now out.old out.new end result }
{
    let r = walk(e, m, out, end);
    steps_taken(r.levels)
}

// The transcriber (paper 01): writes the tape of the message, in an edition, at the start of the
// lent output, or refuses and leaves every byte.
pub fn transcribe(e: Edition, m: &[u8], out: &mut [u8]) -> Result<Written, Refusal>
    ensures { TranscribePromise e m.now out.old out.new result }
{
    // no `?` here, since paper 01 names this form
    let checked = check(m);
    let Ok(counts) = checked else {
        return refused(checked);
    };
    let n = counts.codes;
    if out.len() < n {
        return Err(Refusal {
            number: numbers::SHORT_OUTPUT,
            place: n,
        });
    }
    write_tape(e, m, out, n);
    Ok(Written { length: n, live: 0 })
}
