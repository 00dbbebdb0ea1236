// The sounds of consonants (paper 01, passes 4 and 5), by the table of sounds.
#![tactic(auto)]

ghost use Rattle.std.specs.Prelude.{◌≡◌, cond, ◌+◌, ◌%◌};
ghost use Rattle.spec.specs.Letters.{small};
ghost use Rattle.consonants.specs.Following.{voices_over, following_by};
ghost use Rattle.consonants.specs.Sounds.{Heard, code_before};

use tables::SOUNDS;

pub mod tables;

// What stands right of a letter is a number: the code of the next sound of the word, or one of two
// more where it has none, and then the next word decides how an obstruent sounds. It is an index
// of the table: an enum would be turned into this number at each look-up.
pub const VOICELESS_END: usize = 0;

const VOICED_END: usize = 57;

// It is this more where the next letter palatalizes.
const PALATALIZING: usize = 64;

// The code of the consonant b, a small letter or a capital, before a sound.
pub fn consonant_code(b: u8, sound: usize) -> u8
    requires { Heard b sound }
    ensures { result ≡ code_before (small b) sound }
{
    let row = SOUNDS[tables::ROWS + sound] as usize;
    SOUNDS[row * tables::UNIT + (b % 32) as usize]
}

// What stands right of a word's last letter, where a gap and a word that begins with this sound
// follow. No letter palatalizes across the gap.
pub fn sound_over_gap(sound: usize) -> usize
    ensures { result ≡ cond (voices_over (following_by (sound % 64))) 57 0 }
{
    if SOUNDS[tables::ROWS + sound % PALATALIZING] < tables::NOT_VOICING {
        return VOICED_END;
    }
    VOICELESS_END
}

// The sound of a code whose letter palatalizes or not.
pub fn sound_of(code: u8, soft: bool) -> usize
    ensures { result ≡ code + cond soft 64 0 }
{
    if soft {
        return code as usize + PALATALIZING;
    }
    code as usize
}

// The sound right of a letter, seen from the letter's left.
pub fn seen_over(sound: usize, soft: bool) -> usize
    ensures { result ≡ sound % 64 + cond soft 64 0 }
{
    sound_of((sound % PALATALIZING) as u8, soft)
}
