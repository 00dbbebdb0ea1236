// The classes of bytes, as the code and its table have them.

// The class of each byte (specs/Classes.antt, class_of), 0 for one that no message may have. Signs,
// consonants and vowels are ranges, so a test of them is two comparisons; the vowels that
// palatalize come last. Numbers and no enum: they are the columns of the check's table of pairs.
pub const MARK: usize = 1;

pub const GAP: usize = 2;

pub const PAUSE: usize = 3;

pub const HARD_SIGN: usize = 4;

pub const SOFT_SIGN: usize = 5;

pub const HARD_ONLY: usize = 6;

pub const PAIRED: usize = 7;
// the letters that may be elided
pub const T_OR_D: usize = 8;

pub const SOFT_ONLY: usize = 9;
// а у ы э
pub const PLAIN_VOWEL: usize = 10;

pub const VOWEL_O: usize = 11;
// е ё ю я
pub const IOTATED: usize = 12;

pub const VOWEL_I: usize = 13;

// The first class of letters, and of the vowels that palatalize.
pub const FIRST_LETTER: usize = HARD_SIGN;

pub const FIRST_PALATALIZING: usize = IOTATED;

// How many bytes there are, and so entries of a table by byte.
pub const BYTES: usize = 256;
