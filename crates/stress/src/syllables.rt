// The syllables of a word (paper 01, pass 2), told by the class of the byte before a vowel.
ghost use Rattle.std.specs.Prelude.{◌≡◌};
ghost use Rattle.letters.specs.Classes.{is_covering_class};
ghost use Rattle.stress.specs.Before.{syllable_by};

use letters::classes;
use spec::{Cover, Level, Syllable};

pub fn is_consonant_or_sign(k: usize) -> bool
    ensures { result ≡ is_covering_class k }
{
    (classes::HARD_SIGN..=classes::SOFT_ONLY).contains(&k)
}

// The syllable of a vowel of this level after a byte of class k: it is covered where a consonant or
// a sign stands before the vowel.
pub fn syllable_by(k: usize, level: Level) -> Syllable
    ensures { result ≡ syllable_by k level }
{
    let cover = if is_consonant_or_sign(k) {
        Cover::Covered
    } else {
        Cover::Bare
    };
    Syllable { cover, level }
}
