// The sounds of vowels (paper 01, pass 3) as codes of an edition: an arm for each row. A row that
// asks of the letter before is a function of it: that letter's class, or the boundary where there
// is no letter, chooses the sounds, and the level one of them.
#![tactic(auto, unfolding(letters::proofs::Computed::everything))]

ghost use Rattle.std.specs.Prelude.{◌≡◌, false, cond};
ghost use Rattle.spec.specs.Letters.{small};
ghost use Rattle.spec.specs.Vowels.{by_level, by_stress, rowА, rowО, rowЭ, rowЕ, rowЯ, rowИ};
ghost use Rattle.spec.specs.Codes.{J};
ghost use Rattle.spec.specs.Editions.{reduced};
ghost use Rattle.letters.specs.Classes.{is_sign_class};
ghost use Rattle.vowels.specs.VowelSounds.{ByRow, ByRowIn, RowAt, glide_by, row_of};
ghost use Rattle.vowels.specs.VowelSounds.{VowelAt, Sung};

use boundary::Place;
use letter_classes::{is_hard_only, is_soft_only};
use letters::classes;
use spec::{Cover, Edition, Level, Syllable, alphabet, codes};
use stress::before::class_before;
use stress::syllables::syllable_by;

mod boundary;
mod letter_classes;

// What a vowel puts on the tape: its code, and whether a glide stands before it.
#[derive(Clone, Copy)]
pub struct Vowel {
    pub code: u8,
    pub glide: bool,
}

// A row that has one sound for level S, and one for levels 1 and 2.
fn by_stress(s: Syllable, stressed: u8, other: u8) -> u8
    ensures { result ≡ by_stress s.level stressed other }
{
    by_level(s, stressed, other, other)
}

// A row that has one sound for each level.
fn by_level(s: Syllable, stressed: u8, first: u8, second: u8) -> u8
    ensures { result ≡ by_level s.level stressed first second }
{
    match s.level {
        Level::Stressed => stressed,
        Level::First => first,
        Level::Second => second,
    }
}

// The code of the reduced vowel of а, е and я (paper 02, request 8).
fn reduced_vowel(e: Edition) -> u8
    ensures { result ≡ reduced e }
{
    match e {
        Edition::One => codes::E1,
        Edition::Two => codes::I1,
    }
}

// Row а: of the letters before it only ч щ й change it, and at level 2 that there is none. Each row
// is a function that reads as its line in paper 01 does, of the syllable and the letter before.
fn row_a(e: Edition, s: Syllable, before: Option<u8>) -> u8
    ensures { ByRowIn e rowА false before s result }
{
    let reduced = reduced_vowel(e);
    match before {
        None => by_level(s, codes::A_STRESSED, codes::A1, codes::A1),
        Some(p) if is_soft_only(p) => by_level(s, codes::A_STRESSED, reduced, codes::E2),
        Some(_) => by_level(s, codes::A_STRESSED, codes::A1, codes::A2),
    }
}

// Row о, which sounds as а where it is not stressed, but for level 1 after ч щ й.
fn row_o(s: Syllable, before: Option<u8>) -> u8
    ensures { ByRow rowО false before s result }
{
    match before {
        None => by_level(s, codes::O_STRESSED, codes::A1, codes::A1),
        Some(p) if is_soft_only(p) => by_level(s, codes::O_STRESSED, codes::A1, codes::E2),
        Some(_) => by_level(s, codes::O_STRESSED, codes::A1, codes::A2),
    }
}

// Row э: a hard boundary makes it sound as ы where it is not stressed.
fn row_e(s: Syllable, before: Option<u8>, hard: bool) -> u8
    ensures { ByRow rowЭ hard before s result }
{
    match before {
        None if hard => by_level(s, codes::E_STRESSED, codes::Y1, codes::Y1),
        _ => by_level(s, codes::E_STRESSED, codes::E1, codes::E2),
    }
}

// Row е: of the letters before it only ж ш ц change it, and at level 2 that there is none.
fn row_ie(e: Edition, s: Syllable, before: Option<u8>) -> u8
    ensures { ByRowIn e rowЕ false before s result }
{
    let reduced = reduced_vowel(e);
    match before {
        None => by_level(s, codes::E_STRESSED, reduced, reduced),
        Some(p) if is_hard_only(p) => by_level(s, codes::E_STRESSED, codes::Y1, codes::A2),
        Some(_) => by_level(s, codes::E_STRESSED, reduced, codes::E2),
    }
}

// Row я: it matters only whether it is initial.
fn row_ya(e: Edition, s: Syllable, before: Option<u8>) -> u8
    ensures { ByRowIn e rowЯ false before s result }
{
    let reduced = reduced_vowel(e);
    match before {
        None => by_level(s, codes::A_STRESSED, reduced, reduced),
        Some(_) => by_level(s, codes::A_STRESSED, reduced, codes::E2),
    }
}

// Row и: ж ш ц before it, or a hard boundary, make it sound as ы.
fn row_i(s: Syllable, before: Option<u8>, hard: bool) -> u8
    ensures { ByRow rowИ hard before s result }
{
    match before {
        None if hard => by_stress(s, codes::Y_STRESSED, codes::Y1),
        Some(p) if is_hard_only(p) => by_stress(s, codes::Y_STRESSED, codes::Y1),
        _ => by_stress(s, codes::I_STRESSED, codes::I1),
    }
}

// The code of the vowel b, small or capital, of syllable s at a place: an arm for each row.
fn vowel_code(e: Edition, b: u8, s: Syllable, place: Place<'_>) -> u8
    ensures { RowAt e (row_of (small b)) place.entry.message.now place.entry.index s result }
{
    match b {
        alphabet::A | alphabet::CAPITAL_A => row_a(e, s, place.letter_before()),
        alphabet::O | alphabet::CAPITAL_O => row_o(s, place.letter_before()),
        alphabet::U | alphabet::CAPITAL_U => by_stress(s, codes::U_STRESSED, codes::U1),
        alphabet::YERU | alphabet::CAPITAL_YERU => by_stress(s, codes::Y_STRESSED, codes::Y1),
        alphabet::E | alphabet::CAPITAL_E => row_e(s, place.letter_before(), place.hard_before()),
        alphabet::IE | alphabet::CAPITAL_IE => row_ie(e, s, place.letter_before()),
        alphabet::IO | alphabet::CAPITAL_IO => codes::O_STRESSED,
        alphabet::YU | alphabet::CAPITAL_YU => by_stress(s, codes::U_STRESSED, codes::U1),
        alphabet::YA | alphabet::CAPITAL_YA => row_ya(e, s, place.letter_before()),
        alphabet::I | alphabet::CAPITAL_I => row_i(s, place.letter_before(), place.hard_before()),
        _ => 0, // no vowel: the 0 of a letter without a row in the definition
    }
}

fn is_sign_class(k: usize) -> bool
    ensures { result ≡ is_sign_class k }
{
    (classes::HARD_SIGN..=classes::SOFT_SIGN).contains(&k)
}

// Has a vowel of class c a glide, after a byte of class k? о has one after ь, е ё ю я in a bare
// syllable, and they and и after a sign.
fn has_glide(c: usize, s: Syllable, k: usize) -> bool
    ensures { result ≡ glide_by c s.cover k }
{
    match c {
        classes::VOWEL_O => k == classes::SOFT_SIGN,
        classes::IOTATED => matches!(s.cover, Cover::Bare) || is_sign_class(k),
        classes::VOWEL_I => is_sign_class(k),
        _ => false,
    }
}

// The vowel at place i, of class c and this level, in an edition.
pub fn vowel_at(e: Edition, m: &[u8], i: usize, c: usize, level: Level) -> Vowel
    requires { VowelAt m.now i c level }
    ensures { Sung e m.now i result }
{
    let place = Place {
        message: m,
        index: i,
        before: class_before(m, i),
    };
    let s = syllable_by(place.before, level);
    let code = vowel_code(e, m[i], s, place);
    let glide = has_glide(c, s, place.before);
    Vowel { code, glide }
}

// The first of its codes.
pub fn first_code(v: Vowel) -> u8
    ensures { result ≡ cond v.glide J v.code }
{
    if v.glide { codes::GLIDE } else { v.code }
}
