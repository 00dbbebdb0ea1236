// The bytes of a message (paper 01), in Windows-1251. Letters have their names of the Unicode
// standard.
pub const GAP: u8 = 0x20;

pub const PAUSE: u8 = 0x23;

pub const MARK: u8 = 0x2A;

pub const A: u8 = 0xE0; // а

pub const BE: u8 = 0xE1; // б

pub const DE: u8 = 0xE4; // д

pub const IE: u8 = 0xE5; // е

pub const ZHE: u8 = 0xE6; // ж

pub const ZE: u8 = 0xE7; // з

pub const I: u8 = 0xE8; // и

pub const SHORT_I: u8 = 0xE9; // й

pub const KA: u8 = 0xEA; // к

pub const EN: u8 = 0xED; // н

pub const O: u8 = 0xEE; // о

pub const PE: u8 = 0xEF; // п

pub const ER: u8 = 0xF0; // р

pub const ES: u8 = 0xF1; // с

pub const TE: u8 = 0xF2; // т

pub const U: u8 = 0xF3; // у

pub const EF: u8 = 0xF4; // ф

pub const HA: u8 = 0xF5; // х

pub const TSE: u8 = 0xF6; // ц

pub const CHE: u8 = 0xF7; // ч

pub const SHA: u8 = 0xF8; // ш

pub const SHCHA: u8 = 0xF9; // щ

pub const YERU: u8 = 0xFB; // ы

pub const SOFT_SIGN: u8 = 0xFC; // ь

pub const E: u8 = 0xFD; // э

pub const YU: u8 = 0xFE; // ю

pub const YA: u8 = 0xFF; // я

pub const IO: u8 = 0xB8; // ё

pub const CAPITAL_A: u8 = 0xC0;

pub const CAPITAL_BE: u8 = 0xC1;

pub const CAPITAL_DE: u8 = 0xC4;

pub const CAPITAL_IE: u8 = 0xC5;

pub const CAPITAL_ZHE: u8 = 0xC6;

pub const CAPITAL_ZE: u8 = 0xC7;

pub const CAPITAL_I: u8 = 0xC8;

pub const CAPITAL_SHORT_I: u8 = 0xC9;

pub const CAPITAL_KA: u8 = 0xCA;

pub const CAPITAL_EN: u8 = 0xCD;

pub const CAPITAL_O: u8 = 0xCE;

pub const CAPITAL_PE: u8 = 0xCF;

pub const CAPITAL_TE: u8 = 0xD2;

pub const CAPITAL_U: u8 = 0xD3;

pub const CAPITAL_EF: u8 = 0xD4;

pub const CAPITAL_HA: u8 = 0xD5;

pub const CAPITAL_TSE: u8 = 0xD6;

pub const CAPITAL_CHE: u8 = 0xD7;

pub const CAPITAL_SHA: u8 = 0xD8;

pub const CAPITAL_SHCHA: u8 = 0xD9;

pub const CAPITAL_YERU: u8 = 0xDB;

pub const CAPITAL_SOFT_SIGN: u8 = 0xDC;

pub const CAPITAL_E: u8 = 0xDD;

pub const CAPITAL_YU: u8 = 0xDE;

pub const CAPITAL_YA: u8 = 0xDF;

pub const CAPITAL_IO: u8 = 0xA8;

// Capitals are FIRST_CAPITAL to LAST_CAPITAL, each CASE_STEP below its small letter, but for ё.
pub const FIRST_CAPITAL: u8 = CAPITAL_A;

pub const LAST_CAPITAL: u8 = CAPITAL_YA;

pub const FIRST_SMALL: u8 = A;

pub const CASE_STEP: u8 = 32;
