// The tables that reader and writer ask. specs/Tables.antt has their rules, and that these numbers
// keep them is shown where each is read.
ghost use Rattle.std.specs.Prelude.{◌≡◌, true, false, [], ◌∷◌, ◌≤◌};
ghost use Rattle.spec.specs.Tables.{among};
ghost use Rattle.spec.specs.Utf8.{ascii_bytes, has_row, sequence, byte_of, is_taken};

// What the letters begin with: А to п and Ё, р to я and ё.
const D0: u8 = 0xD0;

const D1: u8 = 0xD1;

// What none begins with.
const NO: u8 = b' ';

// What a letter begins with, by the octet that it ends with. Ё and ё are not here: с and Б end like
// them.
static LEADS: [u8; 256] = [
    NO, // 00
    NO, // 01
    NO, // 02
    NO, // 03
    NO, // 04
    NO, // 05
    NO, // 06
    NO, // 07
    NO, // 08
    NO, // 09
    NO, // 0A
    NO, // 0B
    NO, // 0C
    NO, // 0D
    NO, // 0E
    NO, // 0F
    NO, // 10
    NO, // 11
    NO, // 12
    NO, // 13
    NO, // 14
    NO, // 15
    NO, // 16
    NO, // 17
    NO, // 18
    NO, // 19
    NO, // 1A
    NO, // 1B
    NO, // 1C
    NO, // 1D
    NO, // 1E
    NO, // 1F
    NO, // 20
    NO, // 21
    NO, // 22
    NO, // 23
    NO, // 24
    NO, // 25
    NO, // 26
    NO, // 27
    NO, // 28
    NO, // 29
    NO, // 2A
    NO, // 2B
    NO, // 2C
    NO, // 2D
    NO, // 2E
    NO, // 2F
    NO, // 30
    NO, // 31
    NO, // 32
    NO, // 33
    NO, // 34
    NO, // 35
    NO, // 36
    NO, // 37
    NO, // 38
    NO, // 39
    NO, // 3A
    NO, // 3B
    NO, // 3C
    NO, // 3D
    NO, // 3E
    NO, // 3F
    NO, // 40
    NO, // 41
    NO, // 42
    NO, // 43
    NO, // 44
    NO, // 45
    NO, // 46
    NO, // 47
    NO, // 48
    NO, // 49
    NO, // 4A
    NO, // 4B
    NO, // 4C
    NO, // 4D
    NO, // 4E
    NO, // 4F
    NO, // 50
    NO, // 51
    NO, // 52
    NO, // 53
    NO, // 54
    NO, // 55
    NO, // 56
    NO, // 57
    NO, // 58
    NO, // 59
    NO, // 5A
    NO, // 5B
    NO, // 5C
    NO, // 5D
    NO, // 5E
    NO, // 5F
    NO, // 60
    NO, // 61
    NO, // 62
    NO, // 63
    NO, // 64
    NO, // 65
    NO, // 66
    NO, // 67
    NO, // 68
    NO, // 69
    NO, // 6A
    NO, // 6B
    NO, // 6C
    NO, // 6D
    NO, // 6E
    NO, // 6F
    NO, // 70
    NO, // 71
    NO, // 72
    NO, // 73
    NO, // 74
    NO, // 75
    NO, // 76
    NO, // 77
    NO, // 78
    NO, // 79
    NO, // 7A
    NO, // 7B
    NO, // 7C
    NO, // 7D
    NO, // 7E
    NO, // 7F
    D1, // 80 р
    D1, // 81 с
    D1, // 82 т
    D1, // 83 у
    D1, // 84 ф
    D1, // 85 х
    D1, // 86 ц
    D1, // 87 ч
    D1, // 88 ш
    D1, // 89 щ
    D1, // 8A ъ
    D1, // 8B ы
    D1, // 8C ь
    D1, // 8D э
    D1, // 8E ю
    D1, // 8F я
    D0, // 90 А
    D0, // 91 Б
    D0, // 92 В
    D0, // 93 Г
    D0, // 94 Д
    D0, // 95 Е
    D0, // 96 Ж
    D0, // 97 З
    D0, // 98 И
    D0, // 99 Й
    D0, // 9A К
    D0, // 9B Л
    D0, // 9C М
    D0, // 9D Н
    D0, // 9E О
    D0, // 9F П
    D0, // A0 Р
    D0, // A1 С
    D0, // A2 Т
    D0, // A3 У
    D0, // A4 Ф
    D0, // A5 Х
    D0, // A6 Ц
    D0, // A7 Ч
    D0, // A8 Ш
    D0, // A9 Щ
    D0, // AA Ъ
    D0, // AB Ы
    D0, // AC Ь
    D0, // AD Э
    D0, // AE Ю
    D0, // AF Я
    D0, // B0 а
    D0, // B1 б
    D0, // B2 в
    D0, // B3 г
    D0, // B4 д
    D0, // B5 е
    D0, // B6 ж
    D0, // B7 з
    D0, // B8 и
    D0, // B9 й
    D0, // BA к
    D0, // BB л
    D0, // BC м
    D0, // BD н
    D0, // BE о
    D0, // BF п
    NO, // C0
    NO, // C1
    NO, // C2
    NO, // C3
    NO, // C4
    NO, // C5
    NO, // C6
    NO, // C7
    NO, // C8
    NO, // C9
    NO, // CA
    NO, // CB
    NO, // CC
    NO, // CD
    NO, // CE
    NO, // CF
    NO, // D0
    NO, // D1
    NO, // D2
    NO, // D3
    NO, // D4
    NO, // D5
    NO, // D6
    NO, // D7
    NO, // D8
    NO, // D9
    NO, // DA
    NO, // DB
    NO, // DC
    NO, // DD
    NO, // DE
    NO, // DF
    NO, // E0
    NO, // E1
    NO, // E2
    NO, // E3
    NO, // E4
    NO, // E5
    NO, // E6
    NO, // E7
    NO, // E8
    NO, // E9
    NO, // EA
    NO, // EB
    NO, // EC
    NO, // ED
    NO, // EE
    NO, // EF
    NO, // F0
    NO, // F1
    NO, // F2
    NO, // F3
    NO, // F4
    NO, // F5
    NO, // F6
    NO, // F7
    NO, // F8
    NO, // F9
    NO, // FA
    NO, // FB
    NO, // FC
    NO, // FD
    NO, // FE
    NO, // FF
];

// The letters by their numbers, from 0x400 on.
static LETTERS: [u8; 128] = [
    0, // 0400
    0xA8, // 0401 Ё
    0, // 0402
    0, // 0403
    0, // 0404
    0, // 0405
    0, // 0406
    0, // 0407
    0, // 0408
    0, // 0409
    0, // 040A
    0, // 040B
    0, // 040C
    0, // 040D
    0, // 040E
    0, // 040F
    0xC0, // 0410 А
    0xC1, // 0411 Б
    0xC2, // 0412 В
    0xC3, // 0413 Г
    0xC4, // 0414 Д
    0xC5, // 0415 Е
    0xC6, // 0416 Ж
    0xC7, // 0417 З
    0xC8, // 0418 И
    0xC9, // 0419 Й
    0xCA, // 041A К
    0xCB, // 041B Л
    0xCC, // 041C М
    0xCD, // 041D Н
    0xCE, // 041E О
    0xCF, // 041F П
    0xD0, // 0420 Р
    0xD1, // 0421 С
    0xD2, // 0422 Т
    0xD3, // 0423 У
    0xD4, // 0424 Ф
    0xD5, // 0425 Х
    0xD6, // 0426 Ц
    0xD7, // 0427 Ч
    0xD8, // 0428 Ш
    0xD9, // 0429 Щ
    0xDA, // 042A Ъ
    0xDB, // 042B Ы
    0xDC, // 042C Ь
    0xDD, // 042D Э
    0xDE, // 042E Ю
    0xDF, // 042F Я
    0xE0, // 0430 а
    0xE1, // 0431 б
    0xE2, // 0432 в
    0xE3, // 0433 г
    0xE4, // 0434 д
    0xE5, // 0435 е
    0xE6, // 0436 ж
    0xE7, // 0437 з
    0xE8, // 0438 и
    0xE9, // 0439 й
    0xEA, // 043A к
    0xEB, // 043B л
    0xEC, // 043C м
    0xED, // 043D н
    0xEE, // 043E о
    0xEF, // 043F п
    0xF0, // 0440 р
    0xF1, // 0441 с
    0xF2, // 0442 т
    0xF3, // 0443 у
    0xF4, // 0444 ф
    0xF5, // 0445 х
    0xF6, // 0446 ц
    0xF7, // 0447 ч
    0xF8, // 0448 ш
    0xF9, // 0449 щ
    0xFA, // 044A ъ
    0xFB, // 044B ы
    0xFC, // 044C ь
    0xFD, // 044D э
    0xFE, // 044E ю
    0xFF, // 044F я
    0, // 0450
    0xB8, // 0451 ё
    0, // 0452
    0, // 0453
    0, // 0454
    0, // 0455
    0, // 0456
    0, // 0457
    0, // 0458
    0, // 0459
    0, // 045A
    0, // 045B
    0, // 045C
    0, // 045D
    0, // 045E
    0, // 045F
    0, // 0460
    0, // 0461
    0, // 0462
    0, // 0463
    0, // 0464
    0, // 0465
    0, // 0466
    0, // 0467
    0, // 0468
    0, // 0469
    0, // 046A
    0, // 046B
    0, // 046C
    0, // 046D
    0, // 046E
    0, // 046F
    0, // 0470
    0, // 0471
    0, // 0472
    0, // 0473
    0, // 0474
    0, // 0475
    0, // 0476
    0, // 0477
    0, // 0478
    0, // 0479
    0, // 047A
    0, // 047B
    0, // 047C
    0, // 047D
    0, // 047E
    0, // 047F
];

// The octets of the letters by their bytes, from that of Ё on.
static SEQUENCES: [u16; 88] = [
    0xD081, // A8 Ё
    0, // A9
    0, // AA
    0, // AB
    0, // AC
    0, // AD
    0, // AE
    0, // AF
    0, // B0
    0, // B1
    0, // B2
    0, // B3
    0, // B4
    0, // B5
    0, // B6
    0, // B7
    0xD191, // B8 ё
    0, // B9
    0, // BA
    0, // BB
    0, // BC
    0, // BD
    0, // BE
    0, // BF
    0xD090, // C0 А
    0xD091, // C1 Б
    0xD092, // C2 В
    0xD093, // C3 Г
    0xD094, // C4 Д
    0xD095, // C5 Е
    0xD096, // C6 Ж
    0xD097, // C7 З
    0xD098, // C8 И
    0xD099, // C9 Й
    0xD09A, // CA К
    0xD09B, // CB Л
    0xD09C, // CC М
    0xD09D, // CD Н
    0xD09E, // CE О
    0xD09F, // CF П
    0xD0A0, // D0 Р
    0xD0A1, // D1 С
    0xD0A2, // D2 Т
    0xD0A3, // D3 У
    0xD0A4, // D4 Ф
    0xD0A5, // D5 Х
    0xD0A6, // D6 Ц
    0xD0A7, // D7 Ч
    0xD0A8, // D8 Ш
    0xD0A9, // D9 Щ
    0xD0AA, // DA Ъ
    0xD0AB, // DB Ы
    0xD0AC, // DC Ь
    0xD0AD, // DD Э
    0xD0AE, // DE Ю
    0xD0AF, // DF Я
    0xD0B0, // E0 а
    0xD0B1, // E1 б
    0xD0B2, // E2 в
    0xD0B3, // E3 г
    0xD0B4, // E4 д
    0xD0B5, // E5 е
    0xD0B6, // E6 ж
    0xD0B7, // E7 з
    0xD0B8, // E8 и
    0xD0B9, // E9 й
    0xD0BA, // EA к
    0xD0BB, // EB л
    0xD0BC, // EC м
    0xD0BD, // ED н
    0xD0BE, // EE о
    0xD0BF, // EF п
    0xD180, // F0 р
    0xD181, // F1 с
    0xD182, // F2 т
    0xD183, // F3 у
    0xD184, // F4 ф
    0xD185, // F5 х
    0xD186, // F6 ц
    0xD187, // F7 ч
    0xD188, // F8 ш
    0xD189, // F9 щ
    0xD18A, // FA ъ
    0xD18B, // FB ы
    0xD18C, // FC ь
    0xD18D, // FD э
    0xD18E, // FE ю
    0xD18F, // FF я
];

// Are these the octets of a letter? The first is known not to stand for itself.
pub fn is_letter(lead: u8, next: u8) -> bool
    requires { among ascii_bytes lead ≡ false }
    ensures { result ≡ is_taken (lead ∷ next ∷ []) }
{
    if LEADS[next as usize] == lead {
        return true;
    }
    ((lead == D0) & (next == 0x81)) | ((lead == D1) & (next == 0x91))
}

// The letter whose octets these are.
pub fn letter(lead: u8, next: u8) -> u8
    requires { is_taken (lead ∷ next ∷ []) ≡ true }
    ensures { result ≡ byte_of (lead ∷ next ∷ []) }
{
    LETTERS[64 * (lead as usize - 0xD0) + (next as usize - 0x80)]
}

// The octets of a letter.
pub fn octets(b: u8) -> [u8; 2]
    requires { (0x80 ≤ b) × (has_row b ≡ true) }
    ensures { result ≡ sequence b }
{
    SEQUENCES[b as usize - 0xA8].to_be_bytes()
}
