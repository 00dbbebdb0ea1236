// Spoken levels (paper 02, slip 5): the words of a level, put into the lent output.
#![tactic(auto)]

ghost use Rattle.std.specs.Prelude.{◌≡◌, ◌<◌, ◌≤◌, IfSome, IfNone, length, pos, nat_abs};
ghost use Rattle.spec.specs.Numbers.{level_max};
ghost use Rattle.spec.specs.SpokenLevels.{spoken, level_words, InRange, LevelPromise};
ghost use Rattle.laws.specs.Putting.{Put};
ghost use Rattle.numerals.specs.Placing.{RoomIn, AddsIn};
ghost use Rattle.levels.specs.LevelParts.{Splits, sign_words, part_words};

use numerals::Words;
use spec::{Refusal, Written, numbers};

// No level has words of more bytes.
pub const LONGEST: usize = 54;

// The parts that a number of centimetres is spoken in: how many thousands; the hundreds and the
// tens as they are, 0 to 900 and 0 to 90; and the units.
#[derive(Clone, Copy)]
pub struct Parts {
    pub thousands: usize,
    pub hundreds: usize,
    pub tens: usize,
    pub units: usize,
}

// A level that is spoken: it is in the range.
#[derive(Clone, Copy)]
struct SpokenLevel {
    level: i32,
    ghost in_range: { InRange level },
}

impl SpokenLevel {
    // A level, unless it is outside the range.
    fn new(level: i32) -> Option<SpokenLevel>
        ensures inside { IfSome result (λ s. s.level ≡ level) }
        ensures outside { IfNone result (level_max < nat_abs level) }
    {
        if (-numbers::LEVEL_MAX..=numbers::LEVEL_MAX).contains(&level) {
            Some(SpokenLevel { level })
        } else {
            None
        }
    }

    // How far from zero it is: written out, since paper 01 names the negation.
    fn magnitude(self) -> i32
        ensures { result ≡ pos (nat_abs self.level) }
    {
        if self.level < 0 {
            return -self.level;
        }
        self.level
    }

    // Its parts, without its sign, by signed quotients and remainders.
    fn split(self) -> Parts
        ensures { Splits (nat_abs self.level) result }
    {
        let n = self.magnitude();
        let below = n % 1000;
        let rest = below % 100;
        Parts {
            thousands: (n / 1000) as usize,
            hundreds: (below / 100 * 100) as usize,
            tens: (rest / 10 * 10) as usize,
            units: (rest % 10) as usize,
        }
    }

    // Puts ми*нус where it is below zero.
    fn put_sign(self, words: &mut Words<'_>)
        requires { RoomIn (sign_words self.level) words.old }
        ensures { AddsIn (sign_words self.level) words.old words.new }
    {
        if self.level < 0 {
            words.put(b"\xEC\xE8*\xED\xF3\xF1"); // ми*нус
        }
    }

    // Puts its words.
    fn put(self, words: &mut Words<'_>)
        requires { RoomIn (level_words self.level) words.old }
        ensures { AddsIn (level_words self.level) words.old words.new }
    {
        if self.level == 0 {
            return words.put(b"\xED\xEE*\xEB\xFC"); // но*ль
        }
        self.put_sign(words);
        put_parts(words, self.split());
    }

    // Writes its words, where there is room for them, and answers how long they are.
    fn write(self, out: &mut [u8]) -> usize
        requires { length (spoken self.level) ≤ length out.old }
        ensures { Put (spoken self.level) out.old out.new result 0 }
    {
        let mut words = Words::new(out);
        self.put(&mut words);
        words.len()
    }

    // How long its words are: they are written where there is room for every level.
    #[tactic(auto, using(laws::proofs::SpokenLevels::level_size))]
    fn measure(self) -> usize
        ensures { result ≡ length (spoken self.level) }
    {
        let mut own = [0u8; LONGEST];
        self.write(&mut own)
    }
}

// Puts the words of the parts, one part after the other.
fn put_parts(words: &mut Words<'_>, p: Parts)
    requires { (p.units ≤ 9) × RoomIn (part_words p) words.old }
    ensures { AddsIn (part_words p) words.old words.new }
{
    words.put_thousands(p.thousands);
    words.put_hundreds(p.hundreds);
    words.put_below_hundred(p.tens, p.units);
}

// Speaks a level: writes its words at the start of the lent output, or refuses and leaves every
// byte. Only an output that is shorter than the longest words can be too short.
#[tactic(auto, using(crate::proofs::Spoken::answered))]
pub fn speak_level(level: i32, out: &mut [u8]) -> Result<Written, Refusal>
    ensures { LevelPromise level out.old out.new result }
{
    let Some(spoken) = SpokenLevel::new(level) else {
        return Err(Refusal {
            number: numbers::LEVEL_OUTSIDE,
            place: 0,
        });
    };
    if out.len() < LONGEST {
        let n = spoken.measure();
        if out.len() < n {
            return Err(Refusal {
                number: numbers::SHORT_OUTPUT,
                place: n,
            });
        }
    }
    let length = spoken.write(out);
    Ok(Written { length, live: 0 })
}
