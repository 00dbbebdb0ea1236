// What a cut changes, told by the codes on both sides of its mark on the whole message's tape
// (paper 01, 'Joints').
ghost use Rattle.std.specs.Prelude.{◌≡◌};
ghost use Rattle.laws.specs.Beside.{is_voiced, is_high, is_i_or_e};
ghost use Rattle.joiner.specs.Writing.{Beside, Changing};

use crate::Changes;
use letters::elision::letter_at;
use spec::{alphabet, codes};

// Is it a voiced obstruent's sound?
fn is_voiced(code: u8) -> bool
    ensures { result ≡ is_voiced code }
{
    (codes::BE <= code) & (code <= codes::SOFT_ZE) & (code != codes::GLIDE)
        | (code == codes::VOICED_TSE)
        | (code == codes::VOICED_CHE)
}

// Is it a sound of ы?
fn is_high(code: u8) -> bool
    ensures { result ≡ is_high code }
{
    (code == codes::Y_STRESSED) | (code == codes::Y1)
}

// Is it и or э?
fn is_i_or_e(b: u8) -> bool
    ensures { result ≡ is_i_or_e b }
{
    (b == alphabet::I) | (b == alphabet::E)
}

// (a) changes the code before the mark: at the end of a word an obstruent is voiced only from over
// a gap. (b) changes the code after it: и and э at the start of a word sound Ы only behind a hard
// boundary. Index at is that of the mark of the break at place c.
pub fn changes_at(m: &[u8], t: &[u8], c: usize, at: usize) -> Changes
    requires { Beside m.now t.now c at }
    ensures { Changing m.now c result }
{
    let before = is_voiced(t[at - 1]);
    if is_high(t[at + 1]) {
        let after = is_i_or_e(letter_at(m, c + 1));
        return Changes { before, after };
    }
    Changes {
        before,
        after: false,
    }
}
