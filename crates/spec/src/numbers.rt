// The numbers that the papers name, as far as code names them: of refusals (paper 01, 'Turned-away
// messages'; 13 to 17: paper 02), and limits. Definitions have all of them, under the same names,
// in specs/Numbers.antt. Numbers 3 and 5 to 9 come out of the check's table of pairs, by its rule.
pub const EMPTY_MESSAGE: u8 = 1; // no bytes

pub const LONG_MESSAGE: u8 = 2; // over 4,096 bytes

pub const MISPLACED_BREAK: u8 = 4; // a break first, last or after a break

pub const LONG_WORD: u8 = 10; // a word's 65th letter

pub const SHORT_OUTPUT: u8 = 11; // the lent output is too short

pub const MISPLACED_CUT: u8 = 12; // a cut that is no place of a break, or not above the one before

pub const UNREADABLE_TEXT: u8 = 13; // no text in UTF-8 of the characters that are taken

pub const LEVEL_OUTSIDE: u8 = 14; // a level outside the range

pub const BROKEN_RECORD: u8 = 15; // no mark of a record, or a record cut short

pub const NUMBER_NOT_ABOVE: u8 = 16; // a phrase number not above the one before

pub const NOT_FOR_LISTENER: u8 = 17; // not for this listener

// The most bytes of a message, and the most letters of a word.
pub const MESSAGE_MAX: usize = 4096;

pub const WORD_MAX: usize = 64;

// The level farthest from zero that is spoken, above or below it.
pub const LEVEL_MAX: i32 = 9999;

// The mark of a phrase book's record: bytes 52 9F, the low one first.
pub const RECORD_MARK: usize = 0x9F52;
