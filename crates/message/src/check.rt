// The message check: one walk from left to right. Nearly all bytes are passed by fours, since what
// a byte adds depends on its class and the class before it alone.
ghost use Rattle.std.specs.Prelude.{◌≡◌, ◌&&◌, ◌+◌, ◌*◌, ◌<◌, ◌≤◌, leb, length};
ghost use Rattle.spec.specs.Refusals.{check_of};
ghost use Rattle.spec.specs.Answers.{CheckPromise};
ghost use Rattle.letters.specs.Classes.{is_letter_class, class_at, silent_at};
ghost use Rattle.message.specs.Steps.{next_kind, packed, tail_names, letters_at, Sees, Begins};
ghost use Rattle.message.specs.Steps.{Reads, four_at, silent_four, Goes, Counted};
ghost use Rattle.message.specs.Steps.{Stands, Judged, finish_of, stop_unit};

use crate::Seen;
use crate::kinds::{
    AFTER_VOWEL_STEP, ASK, COLUMNS, HARD_SIGN_AFTER_VOWEL, NAME, SOFT_SIGN_AFTER_VOWEL, STOP,
};
use crate::pairs::PAIRS;
use letters::classes::{
    FIRST_LETTER, GAP, HARD_ONLY, HARD_SIGN, MARK, PAUSE, PLAIN_VOWEL, SOFT_ONLY, SOFT_SIGN,
    VOWEL_I,
};
use letters::classify::class_of;
use letters::elision::{is_elided, is_t_or_d};
use spec::numbers::{MESSAGE_MAX, WORD_MAX};
use spec::{Counts, Refusal, numbers};

// The entry for the byte at place i after kind k.
fn entry_at(m: &[u8], i: usize, k: usize) -> usize
    requires { Reads m.now k (i + 1) }
    ensures { (result ≡ packed k (class_at m.now i)) × (result < 32 * stop_unit) }
{
    let c = class_of(m[i]);
    PAIRS[COLUMNS * k + c] as usize
}

// The sum of the entries of four bytes.
fn sum_four(m: &[u8], i: usize, k: usize) -> usize
    requires { Reads m.now k (i + 4) }
    ensures { result ≡ four_at m.now i k }
{
    let a = class_of(m[i]);
    let b = class_of(m[i + 1]);
    let c = class_of(m[i + 2]);
    entry_at(m, i, k) + entry_at(m, i + 1, a) + entry_at(m, i + 2, b) + entry_at(m, i + 3, c)
}

// How many codes the byte at place i loses: only т and д are elided, so no other byte is asked of.
// Not by usize::from, which took 4.7 percent more on words with such letters; nor as the
// transcriber asks, which knows the byte's class.
fn silent_at(m: &[u8], i: usize) -> usize
    requires { i < length m.now }
    ensures { (result ≡ silent_at m.now i) × (result ≤ 1) }
{
    if is_t_or_d(m[i]) && is_elided(m, i) {
        return 1;
    }
    0
}

// How many codes four bytes lose.
fn silent_four(m: &[u8], i: usize) -> usize
    requires { i + 4 ≤ length m.now }
    ensures { result ≡ silent_four m.now i }
{
    silent_at(m, i) + silent_at(m, i + 1) + silent_at(m, i + 2) + silent_at(m, i + 3)
}

// Passes bytes by fours while these begin before place to and need no more than to be added. This
// loop has nearly all bytes, so it does nothing else: the usual four have neither an ask nor a
// stop, which one comparison tells. It is a while, since it goes by fours and ends at a stop. What
// is seen changes at each turn and the message does not, so they are two values, here and below.
fn pass_fours(m: &[u8], to: usize, seen: Seen) -> Seen
    requires { Goes m.now seen to }
    ensures { Sees m.now result × (seen.at ≤ result.at) }
{
    let Seen {
        mut at,
        mut kind,
        mut sum,
        ..
    } = seen;
    while at < to {
        let x = sum_four(m, at, kind);
        if x < ASK {
            sum += x;
        } else if STOP <= x {
            break;
        } else {
            sum += x % ASK - silent_four(m, at);
        }
        kind = class_of(m[at + 3]);
        at += 4;
    }
    Seen {
        at,
        kind,
        sum,
        ..seen
    }
}

// How many letters of its word stand before the place of what is seen: all bytes but the marks,
// back to a break or to the letters counted before. Marks are fewer than letters, so they are what
// is counted.
fn letters_at(m: &[u8], seen: Seen) -> usize
    requires { Sees m.now seen }
    ensures { result ≡ letters_at m.now seen.at }
{
    let mut marks = 0;
    for j in (seen.from..seen.at).rev() {
        let c = class_of(m[j]);
        if c < FIRST_LETTER {
            if GAP <= c {
                return seen.at - j - 1 - marks;
            }
            marks += 1;
        }
    }
    seen.at + WORD_MAX - seen.limit - marks
}

// The same with the letters counted, where the limit is less than four bytes ahead. Each letter is
// counted once.
#[tactic(auto, using(crate::proofs::Checking::letters_all, crate::proofs::Checking::sees_counted))]
fn count_on(m: &[u8], seen: Seen) -> Seen
    requires { Sees m.now seen }
    ensures { Counted m.now seen.at result }
{
    if seen.at + 4 <= seen.limit {
        return seen;
    }
    let n = letters_at(m, seen);
    Seen {
        from: seen.at,
        limit: seen.at + WORD_MAX - n,
        ..seen
    }
}

// The kind after a byte of class c after kind k.
#[tactic(auto, unfolding(crate::specs::Steps::next_kind))]
fn next_kind(k: usize, c: usize) -> usize
    requires { c < 16 }
    ensures { result ≡ next_kind k c }
{
    let is_sign = (HARD_SIGN..=SOFT_SIGN).contains(&c);
    if is_sign && (k == MARK || (PLAIN_VOWEL..=VOWEL_I).contains(&k)) {
        return c + AFTER_VOWEL_STEP;
    }
    c
}

// Is a byte of class c a letter that the word has no room for?
fn is_too_many(c: usize, at: usize, limit: usize) -> bool
    ensures { result ≡ (is_letter_class c && leb limit at) }
{
    FIRST_LETTER <= c && limit <= at
}

// The byte at the place, whatever it is.
#[tactic(auto, using(crate::proofs::Checking::sees_small))]
fn step(m: &[u8], seen: Seen) -> Result<Seen, Refusal>
    requires { Stands m.now seen }
    ensures { Judged m.now seen result }
{
    let counted = count_on(m, seen);
    let at = counted.at;
    let c = class_of(m[at]);
    let e = entry_at(m, at, counted.kind);
    if 2 * STOP <= e {
        return Err(Refusal {
            number: (e / STOP - 1) as u8,
            place: at,
        });
    }
    if is_too_many(c, at, counted.limit) {
        return Err(Refusal {
            number: numbers::LONG_WORD,
            place: at,
        });
    }
    Ok(Seen {
        at: at + 1,
        kind: next_kind(counted.kind, c),
        sum: counted.sum + e % ASK - silent_at(m, at),
        ..counted
    })
}

// How many names an incomplete syllable before the end of a word makes, k being the last kind.
#[tactic(auto, unfolding(crate::specs::Steps::tail_names))]
fn tail_names(k: usize) -> usize
    ensures { (result ≡ tail_names k) × (result ≤ 1) }
{
    let is_consonant = (HARD_ONLY..=SOFT_ONLY).contains(&k);
    let is_sign = (HARD_SIGN..=SOFT_SIGN).contains(&k)
        || (HARD_SIGN_AFTER_VOWEL..=SOFT_SIGN_AFTER_VOWEL).contains(&k);
    usize::from(is_consonant || is_sign)
}

// A message of n bytes, when all have been seen: a break last is a fault, a word's last syllable
// may be incomplete.
fn finish(n: usize, seen: Seen) -> Result<Counts, Refusal>
    requires { 0 < n }
    ensures { result ≡ finish_of n seen }
{
    if (GAP..=PAUSE).contains(&seen.kind) {
        return Err(Refusal {
            number: numbers::MISPLACED_BREAK,
            place: n - 1,
        });
    }
    Ok(Counts {
        codes: seen.sum % NAME,
        names: seen.sum / NAME + tail_names(seen.kind),
    })
}

// All bytes from the left, until the first fault. The loop is a while, since a turn passes as many
// bytes as it can.
#[tactic(auto, using(crate::proofs::Checking::sees_none, crate::proofs::Checking::seen_all))]
fn walk(m: &[u8]) -> Result<Counts, Refusal>
    requires { Begins m.now }
    ensures { result ≡ check_of m.now }
{
    let mut seen = Seen {
        at: 0,
        kind: GAP,
        from: 0,
        limit: WORD_MAX,
        sum: 0,
    };
    while seen.at < m.len() {
        let to = m.len().min(seen.limit).saturating_sub(3);
        seen = pass_fours(m, to, seen);
        if seen.at < m.len() {
            seen = step(m, seen)?;
        }
    }
    finish(m.len(), seen)
}

// The message check (paper 01, 'Turned-away messages'), for any bytes at all.
#[tactic(auto, using(crate::proofs::Answering::empty, crate::proofs::Answering::too_long))]
pub fn check(m: &[u8]) -> Result<Counts, Refusal>
    ensures { CheckPromise m.now result }
{
    if m.is_empty() {
        return Err(Refusal {
            number: numbers::EMPTY_MESSAGE,
            place: 0,
        });
    }
    if MESSAGE_MAX < m.len() {
        return Err(Refusal {
            number: numbers::LONG_MESSAGE,
            place: 0,
        });
    }
    walk(m)
}
