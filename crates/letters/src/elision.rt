// Letters of a message by their bytes, and which of them are elided.
#![tactic(auto, unfolding(crate::proofs::Computed::everything))]

ghost use Rattle.std.specs.Prelude.{◌≡◌, ◌<◌, length};
ghost use Rattle.spec.specs.Letters.{small};
ghost use Rattle.spec.specs.Elision.{elides_among};
ghost use Rattle.letters.specs.Classes.{letter_at, elided_at, follows_elided, fold_of, is_t_or_d};

use spec::alphabet::{
    CAPITAL_DE, CAPITAL_IO, CAPITAL_TE, CASE_STEP, CHE, DE, EN, ER, ES, FIRST_CAPITAL, FIRST_SMALL,
    IO, KA, LAST_CAPITAL, SHA, TE, TSE, ZE,
};

// The small letter of a byte.
fn small_letter(b: u8) -> u8
    ensures { result ≡ small b }
{
    match b {
        FIRST_CAPITAL..=LAST_CAPITAL => b + CASE_STEP,
        CAPITAL_IO => IO,
        _ => b,
    }
}

// The small letter at place i, or 0 past the end: as its definition has it, and so no option.
pub fn letter_at(m: &[u8], i: usize) -> u8
    ensures { result ≡ letter_at m.now i }
{
    match m.get(i) {
        Some(&b) => small_letter(b),
        None => 0,
    }
}

// Is the letter b silent between these letters? 0 stands for no letter, as in its definition.
// т after с before ск or н, and after н before ск; д after р before ч or ц, after з before н or
// ц, and after н before ц, с or шт.
fn elides(p: u8, b: u8, c: u8, d: u8) -> bool
    ensures { result ≡ elides_among p b c d }
{
    if b == TE {
        return (p == ES) & ((c == ES) & (d == KA) | (c == EN))
            | (p == EN) & ((c == ES) & (d == KA));
    }
    (b == DE)
        & ((p == ER) & ((c == CHE) | (c == TSE))
            | ((p == ZE) & ((c == EN) | (c == TSE))
                | (p == EN) & ((c == TSE) | ((c == ES) | (c == SHA) & (d == TE)))))
}

// May a silent letter stand before this one? Before most it may not, and then nothing else is
// asked.
fn follows_elided(c: u8) -> bool
    ensures { result ≡ follows_elided c }
{
    (c == ES) | ((c == EN) | ((c == CHE) | ((c == TSE) | (c == SHA))))
}

// The letter of a byte as the rules of silent letters need it: what is no letter from а to я, small
// or capital, is 0.
fn fold_case(b: u8) -> u8
    ensures { result ≡ fold_of b }
{
    if b < FIRST_CAPITAL {
        return 0;
    }
    b % CASE_STEP + FIRST_SMALL
}

// Is the letter of byte b silent between these bytes, small letters or capitals, 0 for none? The
// letter after it is asked for first.
fn elides_byte(p: u8, b: u8, c: u8, d: u8) -> bool
    ensures { result ≡ elides_among (small p) (small b) (small c) (small d) }
{
    let next = fold_case(c);
    if follows_elided(next) {
        return elides(fold_case(p), fold_case(b), next, fold_case(d));
    }
    false
}

// Is the byte т or д? Only these may be silent.
pub fn is_t_or_d(b: u8) -> bool
    ensures { result ≡ is_t_or_d b }
{
    (b == TE) | ((b == CAPITAL_TE) | ((b == DE) | (b == CAPITAL_DE)))
}

// Is the letter at place i silent? A silent letter stands between two others. It asks of four bytes
// and lends no slice, so that a caller's loop keeps the message in registers; and it asks at two
// places, so that the compiler does not copy the whole question into that loop.
#[tactic(auto, using(crate::proofs::Before::sides), unfolding(crate::proofs::Computed::everything))]
pub fn is_elided(m: &[u8], i: usize) -> bool
    requires { i < length m.now }
    ensures { result ≡ elided_at m.now i }
{
    if i == 0 {
        return false;
    }
    if m.len() <= i + 1 {
        return false;
    }
    if m.len() == i + 2 {
        return elides_byte(m[i - 1], m[i], m[i + 1], 0);
    }
    elides_byte(m[i - 1], m[i], m[i + 1], m[i + 2])
}
