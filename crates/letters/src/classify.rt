// The class of a byte, by a table. specs/Classes.antt has its rule, and that these numbers keep it
// is shown here once.
ghost use Rattle.std.specs.Prelude.{◌≡◌};
ghost use Rattle.letters.specs.Classes.{class_of};

use crate::classes::BYTES;

// The class of each byte.
static CLASSES: [u8; BYTES] = [
    0, // byte 00
    0, // byte 01
    0, // byte 02
    0, // byte 03
    0, // byte 04
    0, // byte 05
    0, // byte 06
    0, // byte 07
    0, // byte 08
    0, // byte 09
    0, // byte 0A
    0, // byte 0B
    0, // byte 0C
    0, // byte 0D
    0, // byte 0E
    0, // byte 0F
    0, // byte 10
    0, // byte 11
    0, // byte 12
    0, // byte 13
    0, // byte 14
    0, // byte 15
    0, // byte 16
    0, // byte 17
    0, // byte 18
    0, // byte 19
    0, // byte 1A
    0, // byte 1B
    0, // byte 1C
    0, // byte 1D
    0, // byte 1E
    0, // byte 1F
    2, // byte 20 gap
    0, // byte 21
    0, // byte 22
    3, // byte 23 pause
    0, // byte 24
    0, // byte 25
    0, // byte 26
    0, // byte 27
    0, // byte 28
    0, // byte 29
    1, // byte 2A mark
    0, // byte 2B
    0, // byte 2C
    0, // byte 2D
    0, // byte 2E
    0, // byte 2F
    0, // byte 30
    0, // byte 31
    0, // byte 32
    0, // byte 33
    0, // byte 34
    0, // byte 35
    0, // byte 36
    0, // byte 37
    0, // byte 38
    0, // byte 39
    0, // byte 3A
    0, // byte 3B
    0, // byte 3C
    0, // byte 3D
    0, // byte 3E
    0, // byte 3F
    0, // byte 40
    0, // byte 41
    0, // byte 42
    0, // byte 43
    0, // byte 44
    0, // byte 45
    0, // byte 46
    0, // byte 47
    0, // byte 48
    0, // byte 49
    0, // byte 4A
    0, // byte 4B
    0, // byte 4C
    0, // byte 4D
    0, // byte 4E
    0, // byte 4F
    0, // byte 50
    0, // byte 51
    0, // byte 52
    0, // byte 53
    0, // byte 54
    0, // byte 55
    0, // byte 56
    0, // byte 57
    0, // byte 58
    0, // byte 59
    0, // byte 5A
    0, // byte 5B
    0, // byte 5C
    0, // byte 5D
    0, // byte 5E
    0, // byte 5F
    0, // byte 60
    0, // byte 61
    0, // byte 62
    0, // byte 63
    0, // byte 64
    0, // byte 65
    0, // byte 66
    0, // byte 67
    0, // byte 68
    0, // byte 69
    0, // byte 6A
    0, // byte 6B
    0, // byte 6C
    0, // byte 6D
    0, // byte 6E
    0, // byte 6F
    0, // byte 70
    0, // byte 71
    0, // byte 72
    0, // byte 73
    0, // byte 74
    0, // byte 75
    0, // byte 76
    0, // byte 77
    0, // byte 78
    0, // byte 79
    0, // byte 7A
    0, // byte 7B
    0, // byte 7C
    0, // byte 7D
    0, // byte 7E
    0, // byte 7F
    0, // byte 80
    0, // byte 81
    0, // byte 82
    0, // byte 83
    0, // byte 84
    0, // byte 85
    0, // byte 86
    0, // byte 87
    0, // byte 88
    0, // byte 89
    0, // byte 8A
    0, // byte 8B
    0, // byte 8C
    0, // byte 8D
    0, // byte 8E
    0, // byte 8F
    0, // byte 90
    0, // byte 91
    0, // byte 92
    0, // byte 93
    0, // byte 94
    0, // byte 95
    0, // byte 96
    0, // byte 97
    0, // byte 98
    0, // byte 99
    0, // byte 9A
    0, // byte 9B
    0, // byte 9C
    0, // byte 9D
    0, // byte 9E
    0, // byte 9F
    0, // byte A0
    0, // byte A1
    0, // byte A2
    0, // byte A3
    0, // byte A4
    0, // byte A5
    0, // byte A6
    0, // byte A7
    12, // byte A8 Ё
    0, // byte A9
    0, // byte AA
    0, // byte AB
    0, // byte AC
    0, // byte AD
    0, // byte AE
    0, // byte AF
    0, // byte B0
    0, // byte B1
    0, // byte B2
    0, // byte B3
    0, // byte B4
    0, // byte B5
    0, // byte B6
    0, // byte B7
    12, // byte B8 ё
    0, // byte B9
    0, // byte BA
    0, // byte BB
    0, // byte BC
    0, // byte BD
    0, // byte BE
    0, // byte BF
    10, // byte C0 А
    7, // byte C1 Б
    7, // byte C2 В
    7, // byte C3 Г
    8, // byte C4 Д
    12, // byte C5 Е
    6, // byte C6 Ж
    7, // byte C7 З
    13, // byte C8 И
    9, // byte C9 Й
    7, // byte CA К
    7, // byte CB Л
    7, // byte CC М
    7, // byte CD Н
    11, // byte CE О
    7, // byte CF П
    7, // byte D0 Р
    7, // byte D1 С
    8, // byte D2 Т
    10, // byte D3 У
    7, // byte D4 Ф
    7, // byte D5 Х
    6, // byte D6 Ц
    9, // byte D7 Ч
    6, // byte D8 Ш
    9, // byte D9 Щ
    4, // byte DA Ъ
    10, // byte DB Ы
    5, // byte DC Ь
    10, // byte DD Э
    12, // byte DE Ю
    12, // byte DF Я
    10, // byte E0 а
    7, // byte E1 б
    7, // byte E2 в
    7, // byte E3 г
    8, // byte E4 д
    12, // byte E5 е
    6, // byte E6 ж
    7, // byte E7 з
    13, // byte E8 и
    9, // byte E9 й
    7, // byte EA к
    7, // byte EB л
    7, // byte EC м
    7, // byte ED н
    11, // byte EE о
    7, // byte EF п
    7, // byte F0 р
    7, // byte F1 с
    8, // byte F2 т
    10, // byte F3 у
    7, // byte F4 ф
    7, // byte F5 х
    6, // byte F6 ц
    9, // byte F7 ч
    6, // byte F8 ш
    9, // byte F9 щ
    4, // byte FA ъ
    10, // byte FB ы
    5, // byte FC ь
    10, // byte FD э
    12, // byte FE ю
    12, // byte FF я
];

// The class of a byte.
pub fn class_of(b: u8) -> usize
    ensures { result ≡ class_of b }
{
    CLASSES[b as usize] as usize
}
