// The codes of sounds and marks that the code names (paper 01, 'Codes'). A1 and A2 are a vowel's
// sounds of levels 1 and 2.
pub const A_STRESSED: u8 = 1; // А*

pub const O_STRESSED: u8 = 2; // О*

pub const E_STRESSED: u8 = 3; // Э*

pub const Y_STRESSED: u8 = 4; // Ы*

pub const I_STRESSED: u8 = 5; // И*

pub const U_STRESSED: u8 = 6; // У*

pub const A1: u8 = 7; // А1

pub const E1: u8 = 8; // Э1

pub const Y1: u8 = 9; // Ы1

pub const I1: u8 = 10; // И1

pub const U1: u8 = 11; // У1

pub const A2: u8 = 12; // А2

pub const E2: u8 = 13; // Э2

// The voiced obstruents are BE to SOFT_ZE but for the glide, and two more.
pub const BE: u8 = 16; // Б

pub const GLIDE: u8 = 28; // J

pub const SOFT_ZE: u8 = 30; // З'

pub const VOICED_TSE: u8 = 52; // Ц1

pub const VOICED_CHE: u8 = 54; // Ч1

// Sounds lie between the marks of the breaks.
pub const FIRST_SOUND: u8 = A_STRESSED;

pub const LAST_SOUND: u8 = 56; // Щ

pub const GAP: u8 = 0;

pub const PAUSE: u8 = 63;
