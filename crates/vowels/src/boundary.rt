// The letter and the hard boundary before a place (paper 01, pass 3), told by the bytes there.
#![tactic(auto, using(crate::proofs::Boundaries::past_start), unfolding(letters::proofs::Computed::everything, crate::specs::VowelSounds::letter_before, crate::specs::VowelSounds::hard_before))]

ghost use Rattle.std.specs.Prelude.{◌≡◌};
ghost use Rattle.spec.specs.Letters.{small};
ghost use Rattle.spec.specs.Vowels.{hard_end};
ghost use Rattle.letters.specs.Classes.{is_break_class};
ghost use Rattle.stress.specs.Before.{Before};
ghost use Rattle.vowels.specs.VowelSounds.{letter_before, hard_before};

use crate::letter_classes::{is_hard_only, is_paired};
use letters::classes;
use spec::alphabet;
use stress::before::byte_before;

fn is_break_class(k: usize) -> bool
    ensures { result ≡ is_break_class k }
{
    (classes::GAP..=classes::PAUSE).contains(&k)
}

// Does a word end hard whose last two bytes are q and p? It ends in a letter of T or P, or in ь
// with a letter of T before it. It is asked seldom: copied into the caller's loop it was slower.
#[inline(never)]
fn ends_hard(q: u8, p: u8) -> bool
    ensures { result ≡ hard_end (small q) (small p) }
{
    match p {
        alphabet::SOFT_SIGN | alphabet::CAPITAL_SOFT_SIGN => is_hard_only(q),
        _ => is_hard_only(p) || is_paired(p),
    }
}

// A place of a message, with the class of the byte before it.
#[derive(Clone, Copy)]
pub struct Place<'a> {
    pub message: &'a [u8],
    pub index: usize,
    pub before: usize,
    ghost told: { Before message.now index before },
}

impl Place<'_> {
    // The letter before it: the byte before, which is the letter's, small or capital, or the mark
    // of a stressed vowel; none at the word's start.
    pub fn letter_before(self) -> Option<u8>
        ensures { result ≡ letter_before self.entry.message.now self.entry.index }
    {
        if is_break_class(self.before) {
            return None;
        }
        Some(self.message[self.index - 1])
    }

    // Does a hard boundary stand before it? The byte before is then a gap, and the word before that
    // ends hard.
    pub fn hard_before(self) -> bool
        ensures { result ≡ hard_before self.entry.message.now self.entry.index }
    {
        if self.before != classes::GAP {
            return false;
        }
        let last = byte_before(self.message, self.index - 1);
        let last_but_one = byte_before(self.message, self.index.saturating_sub(2));
        ends_hard(last_but_one, last)
    }
}
