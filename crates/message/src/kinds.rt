// The kinds of what stands before a byte, and the table of pairs of a kind and a class.
use letters::classes::SOFT_SIGN;

// The kind of what stands before a byte is the class of the byte before, or one of these where that
// is a sign after a vowel (specs/Steps.antt, next_kind). Classes and kinds are numbers, no enums:
// they are the columns and rows of the table.
pub const HARD_SIGN_AFTER_VOWEL: usize = 14;

pub const SOFT_SIGN_AFTER_VOWEL: usize = 15;

pub const AFTER_VOWEL_STEP: usize = SOFT_SIGN_AFTER_VOWEL - SOFT_SIGN;

// The table of pairs has a row for each kind and a column for each class.
pub const COLUMNS: usize = 16;

pub const PAIRS_SIZE: usize = 256;

// An entry of it (specs/Steps.antt, packed): the codes, NAME for a name, ASK where the letter may
// be elided, and STOP where it is not enough to add, once more for each number of a fault. One
// number, so that one sum and one comparison serve four bytes.
pub const NAME: usize = 0x4000;

pub const ASK: usize = 0x20000;

pub const STOP: usize = 0x100000;
