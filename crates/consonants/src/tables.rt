// The table of the sounds. specs/Sounds.antt has its rule, and proofs/SoundTable.antt shows once
// that these numbers keep it.

// The rows of sounds that act alike: those of sounds that voice are the first of them.
const VOICING_ROWS: usize = 6;

const ALIKE_ROWS: usize = 19;

// After these there is a row for any other sound, and three where the next letter palatalizes.
const ALL_ROWS: usize = ALIKE_ROWS + 4;

// A row has the codes of the letters а to ы.
const ROW: usize = 28;

// A row begins at so many times the number that its sounds have, which so fits a byte.
pub const UNIT: usize = 4;

// The number of the first row after those of the sounds that voice.
pub const NOT_VOICING: u8 = (VOICING_ROWS * ROW / UNIT) as u8;

// Where the numbers of the sounds' rows begin, after the rows themselves.
pub const ROWS: usize = ALL_ROWS * ROW;

// There is one for each sound, twice: the next letter palatalizes or not.
const SIZE: usize = ROWS + 128;

// The codes of the letters а to ы before each kind of sound, a row each; then for each sound, which
// is 64 more where its letter palatalizes, the number of its row. The last consonant is щ: two
// letters more make a row's length a multiple of UNIT.
pub static SOUNDS: [u8; SIZE] = [
    0, // а before Б
    16, // б before Б
    18, // в before Б
    20, // г before Б
    24, // д before Б
    0, // е before Б
    26, // ж before Б
    29, // з before Б
    0, // и before Б
    28, // й before Б
    20, // к before Б
    33, // л before Б
    35, // м before Б
    37, // н before Б
    0, // о before Б
    16, // п before Б
    41, // р before Б
    29, // с before Б
    24, // т before Б
    0, // у before Б
    18, // ф before Б
    22, // х before Б
    52, // ц before Б
    54, // ч before Б
    26, // ш before Б
    27, // щ before Б
    0, // ъ before Б
    0, // ы before Б
    0, // а before Д'
    16, // б before Д'
    18, // в before Д'
    20, // г before Д'
    25, // д before Д'
    0, // е before Д'
    26, // ж before Д'
    30, // з before Д'
    0, // и before Д'
    28, // й before Д'
    20, // к before Д'
    33, // л before Д'
    35, // м before Д'
    38, // н before Д'
    0, // о before Д'
    16, // п before Д'
    41, // р before Д'
    30, // с before Д'
    25, // т before Д'
    0, // у before Д'
    18, // ф before Д'
    22, // х before Д'
    52, // ц before Д'
    54, // ч before Д'
    26, // ш before Д'
    27, // щ before Д'
    0, // ъ before Д'
    0, // ы before Д'
    0, // а before Ч1
    16, // б before Ч1
    18, // в before Ч1
    20, // г before Ч1
    24, // д before Ч1
    0, // е before Ч1
    26, // ж before Ч1
    29, // з before Ч1
    0, // и before Ч1
    28, // й before Ч1
    20, // к before Ч1
    33, // л before Ч1
    35, // м before Ч1
    38, // н before Ч1
    0, // о before Ч1
    16, // п before Ч1
    41, // р before Ч1
    29, // с before Ч1
    24, // т before Ч1
    0, // у before Ч1
    18, // ф before Ч1
    22, // х before Ч1
    52, // ц before Ч1
    54, // ч before Ч1
    26, // ш before Ч1
    27, // щ before Ч1
    0, // ъ before Ч1
    0, // ы before Ч1
    0, // а before Б'
    17, // б before Б'
    18, // в before Б'
    20, // г before Б'
    24, // д before Б'
    0, // е before Б'
    26, // ж before Б'
    29, // з before Б'
    0, // и before Б'
    28, // й before Б'
    20, // к before Б'
    33, // л before Б'
    35, // м before Б'
    37, // н before Б'
    0, // о before Б'
    17, // п before Б'
    41, // р before Б'
    29, // с before Б'
    24, // т before Б'
    0, // у before Б'
    18, // ф before Б'
    22, // х before Б'
    52, // ц before Б'
    54, // ч before Б'
    26, // ш before Б'
    27, // щ before Б'
    0, // ъ before Б'
    0, // ы before Б'
    0, // а before Г'
    16, // б before Г'
    18, // в before Г'
    21, // г before Г'
    24, // д before Г'
    0, // е before Г'
    26, // ж before Г'
    29, // з before Г'
    0, // и before Г'
    28, // й before Г'
    21, // к before Г'
    33, // л before Г'
    35, // м before Г'
    37, // н before Г'
    0, // о before Г'
    16, // п before Г'
    41, // р before Г'
    29, // с before Г'
    24, // т before Г'
    0, // у before Г'
    18, // ф before Г'
    22, // х before Г'
    52, // ц before Г'
    54, // ч before Г'
    26, // ш before Г'
    27, // щ before Г'
    0, // ъ before Г'
    0, // ы before Г'
    0, // а before Х1'
    16, // б before Х1'
    18, // в before Х1'
    20, // г before Х1'
    24, // д before Х1'
    0, // е before Х1'
    26, // ж before Х1'
    29, // з before Х1'
    0, // и before Х1'
    28, // й before Х1'
    20, // к before Х1'
    33, // л before Х1'
    35, // м before Х1'
    37, // н before Х1'
    0, // о before Х1'
    16, // п before Х1'
    41, // р before Х1'
    29, // с before Х1'
    24, // т before Х1'
    0, // у before Х1'
    18, // ф before Х1'
    23, // х before Х1'
    52, // ц before Х1'
    54, // ч before Х1'
    26, // ш before Х1'
    27, // щ before Х1'
    0, // ъ before Х1'
    0, // ы before Х1'
    0, // а before no sound, voiced
    16, // б before no sound, voiced
    18, // в before no sound, voiced
    20, // г before no sound, voiced
    24, // д before no sound, voiced
    0, // е before no sound, voiced
    26, // ж before no sound, voiced
    29, // з before no sound, voiced
    0, // и before no sound, voiced
    28, // й before no sound, voiced
    20, // к before no sound, voiced
    33, // л before no sound, voiced
    35, // м before no sound, voiced
    37, // н before no sound, voiced
    0, // о before no sound, voiced
    16, // п before no sound, voiced
    41, // р before no sound, voiced
    29, // с before no sound, voiced
    24, // т before no sound, voiced
    0, // у before no sound, voiced
    18, // ф before no sound, voiced
    22, // х before no sound, voiced
    52, // ц before no sound, voiced
    54, // ч before no sound, voiced
    26, // ш before no sound, voiced
    27, // щ before no sound, voiced
    0, // ъ before no sound, voiced
    0, // ы before no sound, voiced
    0, // а before no sound
    39, // б before no sound
    47, // в before no sound
    31, // г before no sound
    45, // д before no sound
    0, // е before no sound
    55, // ж before no sound
    43, // з before no sound
    0, // и before no sound
    28, // й before no sound
    31, // к before no sound
    33, // л before no sound
    35, // м before no sound
    37, // н before no sound
    0, // о before no sound
    39, // п before no sound
    41, // р before no sound
    43, // с before no sound
    45, // т before no sound
    0, // у before no sound
    47, // ф before no sound
    49, // х before no sound
    51, // ц before no sound
    53, // ч before no sound
    55, // ш before no sound
    56, // щ before no sound
    0, // ъ before no sound
    0, // ы before no sound
    0, // а before Т'
    39, // б before Т'
    47, // в before Т'
    31, // г before Т'
    46, // д before Т'
    0, // е before Т'
    55, // ж before Т'
    44, // з before Т'
    0, // и before Т'
    28, // й before Т'
    31, // к before Т'
    33, // л before Т'
    35, // м before Т'
    38, // н before Т'
    0, // о before Т'
    39, // п before Т'
    41, // р before Т'
    44, // с before Т'
    46, // т before Т'
    0, // у before Т'
    47, // ф before Т'
    49, // х before Т'
    51, // ц before Т'
    53, // ч before Т'
    55, // ш before Т'
    56, // щ before Т'
    0, // ъ before Т'
    0, // ы before Т'
    0, // а before Ч
    39, // б before Ч
    47, // в before Ч
    31, // г before Ч
    45, // д before Ч
    0, // е before Ч
    55, // ж before Ч
    43, // з before Ч
    0, // и before Ч
    28, // й before Ч
    31, // к before Ч
    33, // л before Ч
    35, // м before Ч
    38, // н before Ч
    0, // о before Ч
    39, // п before Ч
    41, // р before Ч
    43, // с before Ч
    45, // т before Ч
    0, // у before Ч
    47, // ф before Ч
    49, // х before Ч
    51, // ц before Ч
    53, // ч before Ч
    55, // ш before Ч
    56, // щ before Ч
    0, // ъ before Ч
    0, // ы before Ч
    0, // а before П'
    40, // б before П'
    47, // в before П'
    31, // г before П'
    45, // д before П'
    0, // е before П'
    55, // ж before П'
    43, // з before П'
    0, // и before П'
    28, // й before П'
    31, // к before П'
    33, // л before П'
    35, // м before П'
    37, // н before П'
    0, // о before П'
    40, // п before П'
    41, // р before П'
    43, // с before П'
    45, // т before П'
    0, // у before П'
    47, // ф before П'
    49, // х before П'
    51, // ц before П'
    53, // ч before П'
    55, // ш before П'
    56, // щ before П'
    0, // ъ before П'
    0, // ы before П'
    0, // а before Ф'
    39, // б before Ф'
    48, // в before Ф'
    31, // г before Ф'
    45, // д before Ф'
    0, // е before Ф'
    55, // ж before Ф'
    43, // з before Ф'
    0, // и before Ф'
    28, // й before Ф'
    31, // к before Ф'
    33, // л before Ф'
    35, // м before Ф'
    37, // н before Ф'
    0, // о before Ф'
    39, // п before Ф'
    41, // р before Ф'
    43, // с before Ф'
    45, // т before Ф'
    0, // у before Ф'
    48, // ф before Ф'
    49, // х before Ф'
    51, // ц before Ф'
    53, // ч before Ф'
    55, // ш before Ф'
    56, // щ before Ф'
    0, // ъ before Ф'
    0, // ы before Ф'
    0, // а before К'
    39, // б before К'
    47, // в before К'
    32, // г before К'
    45, // д before К'
    0, // е before К'
    55, // ж before К'
    43, // з before К'
    0, // и before К'
    28, // й before К'
    32, // к before К'
    33, // л before К'
    35, // м before К'
    37, // н before К'
    0, // о before К'
    39, // п before К'
    41, // р before К'
    43, // с before К'
    45, // т before К'
    0, // у before К'
    47, // ф before К'
    49, // х before К'
    51, // ц before К'
    53, // ч before К'
    55, // ш before К'
    56, // щ before К'
    0, // ъ before К'
    0, // ы before К'
    0, // а before Х'
    39, // б before Х'
    47, // в before Х'
    31, // г before Х'
    45, // д before Х'
    0, // е before Х'
    55, // ж before Х'
    43, // з before Х'
    0, // и before Х'
    28, // й before Х'
    31, // к before Х'
    33, // л before Х'
    35, // м before Х'
    37, // н before Х'
    0, // о before Х'
    39, // п before Х'
    41, // р before Х'
    43, // с before Х'
    45, // т before Х'
    0, // у before Х'
    47, // ф before Х'
    50, // х before Х'
    51, // ц before Х'
    53, // ч before Х'
    55, // ш before Х'
    56, // щ before Х'
    0, // ъ before Х'
    0, // ы before Х'
    0, // а before Н'
    16, // б before Н'
    18, // в before Н'
    20, // г before Н'
    25, // д before Н'
    0, // е before Н'
    26, // ж before Н'
    30, // з before Н'
    0, // и before Н'
    28, // й before Н'
    31, // к before Н'
    33, // л before Н'
    35, // м before Н'
    38, // н before Н'
    0, // о before Н'
    39, // п before Н'
    41, // р before Н'
    44, // с before Н'
    46, // т before Н'
    0, // у before Н'
    47, // ф before Н'
    49, // х before Н'
    51, // ц before Н'
    53, // ч before Н'
    55, // ш before Н'
    56, // щ before Н'
    0, // ъ before Н'
    0, // ы before Н'
    0, // а before В'
    16, // б before В'
    19, // в before В'
    20, // г before В'
    24, // д before В'
    0, // е before В'
    26, // ж before В'
    29, // з before В'
    0, // и before В'
    28, // й before В'
    31, // к before В'
    33, // л before В'
    35, // м before В'
    37, // н before В'
    0, // о before В'
    39, // п before В'
    41, // р before В'
    43, // с before В'
    45, // т before В'
    0, // у before В'
    48, // ф before В'
    49, // х before В'
    51, // ц before В'
    53, // ч before В'
    55, // ш before В'
    56, // щ before В'
    0, // ъ before В'
    0, // ы before В'
    0, // а before Л'
    16, // б before Л'
    18, // в before Л'
    20, // г before Л'
    24, // д before Л'
    0, // е before Л'
    26, // ж before Л'
    29, // з before Л'
    0, // и before Л'
    28, // й before Л'
    31, // к before Л'
    34, // л before Л'
    35, // м before Л'
    37, // н before Л'
    0, // о before Л'
    39, // п before Л'
    41, // р before Л'
    43, // с before Л'
    45, // т before Л'
    0, // у before Л'
    47, // ф before Л'
    49, // х before Л'
    51, // ц before Л'
    53, // ч before Л'
    55, // ш before Л'
    56, // щ before Л'
    0, // ъ before Л'
    0, // ы before Л'
    0, // а before М'
    16, // б before М'
    18, // в before М'
    20, // г before М'
    24, // д before М'
    0, // е before М'
    26, // ж before М'
    29, // з before М'
    0, // и before М'
    28, // й before М'
    31, // к before М'
    33, // л before М'
    36, // м before М'
    37, // н before М'
    0, // о before М'
    39, // п before М'
    41, // р before М'
    43, // с before М'
    45, // т before М'
    0, // у before М'
    47, // ф before М'
    49, // х before М'
    51, // ц before М'
    53, // ч before М'
    55, // ш before М'
    56, // щ before М'
    0, // ъ before М'
    0, // ы before М'
    0, // а before Р'
    16, // б before Р'
    18, // в before Р'
    20, // г before Р'
    24, // д before Р'
    0, // е before Р'
    26, // ж before Р'
    29, // з before Р'
    0, // и before Р'
    28, // й before Р'
    31, // к before Р'
    33, // л before Р'
    35, // м before Р'
    37, // н before Р'
    0, // о before Р'
    39, // п before Р'
    42, // р before Р'
    43, // с before Р'
    45, // т before Р'
    0, // у before Р'
    47, // ф before Р'
    49, // х before Р'
    51, // ц before Р'
    53, // ч before Р'
    55, // ш before Р'
    56, // щ before Р'
    0, // ъ before Р'
    0, // ы before Р'
    0, // а before А*
    16, // б before А*
    18, // в before А*
    20, // г before А*
    24, // д before А*
    0, // е before А*
    26, // ж before А*
    29, // з before А*
    0, // и before А*
    28, // й before А*
    31, // к before А*
    33, // л before А*
    35, // м before А*
    37, // н before А*
    0, // о before А*
    39, // п before А*
    41, // р before А*
    43, // с before А*
    45, // т before А*
    0, // у before А*
    47, // ф before А*
    49, // х before А*
    51, // ц before А*
    53, // ч before А*
    55, // ш before А*
    56, // щ before А*
    0, // ъ before А*
    0, // ы before А*
    0, // а before palatalizing Б
    17, // б before palatalizing Б
    19, // в before palatalizing Б
    21, // г before palatalizing Б
    25, // д before palatalizing Б
    0, // е before palatalizing Б
    26, // ж before palatalizing Б
    30, // з before palatalizing Б
    0, // и before palatalizing Б
    28, // й before palatalizing Б
    21, // к before palatalizing Б
    34, // л before palatalizing Б
    36, // м before palatalizing Б
    38, // н before palatalizing Б
    0, // о before palatalizing Б
    17, // п before palatalizing Б
    42, // р before palatalizing Б
    30, // с before palatalizing Б
    25, // т before palatalizing Б
    0, // у before palatalizing Б
    19, // ф before palatalizing Б
    23, // х before palatalizing Б
    52, // ц before palatalizing Б
    54, // ч before palatalizing Б
    26, // ш before palatalizing Б
    27, // щ before palatalizing Б
    0, // ъ before palatalizing Б
    0, // ы before palatalizing Б
    0, // а before palatalizing no sound
    40, // б before palatalizing no sound
    48, // в before palatalizing no sound
    32, // г before palatalizing no sound
    46, // д before palatalizing no sound
    0, // е before palatalizing no sound
    55, // ж before palatalizing no sound
    44, // з before palatalizing no sound
    0, // и before palatalizing no sound
    28, // й before palatalizing no sound
    32, // к before palatalizing no sound
    34, // л before palatalizing no sound
    36, // м before palatalizing no sound
    38, // н before palatalizing no sound
    0, // о before palatalizing no sound
    40, // п before palatalizing no sound
    42, // р before palatalizing no sound
    44, // с before palatalizing no sound
    46, // т before palatalizing no sound
    0, // у before palatalizing no sound
    48, // ф before palatalizing no sound
    50, // х before palatalizing no sound
    51, // ц before palatalizing no sound
    53, // ч before palatalizing no sound
    55, // ш before palatalizing no sound
    56, // щ before palatalizing no sound
    0, // ъ before palatalizing no sound
    0, // ы before palatalizing no sound
    0, // а before palatalizing А*
    17, // б before palatalizing А*
    19, // в before palatalizing А*
    21, // г before palatalizing А*
    25, // д before palatalizing А*
    0, // е before palatalizing А*
    26, // ж before palatalizing А*
    30, // з before palatalizing А*
    0, // и before palatalizing А*
    28, // й before palatalizing А*
    32, // к before palatalizing А*
    34, // л before palatalizing А*
    36, // м before palatalizing А*
    38, // н before palatalizing А*
    0, // о before palatalizing А*
    40, // п before palatalizing А*
    42, // р before palatalizing А*
    44, // с before palatalizing А*
    46, // т before palatalizing А*
    0, // у before palatalizing А*
    48, // ф before palatalizing А*
    50, // х before palatalizing А*
    51, // ц before palatalizing А*
    53, // ч before palatalizing А*
    55, // ш before palatalizing А*
    56, // щ before palatalizing А*
    0, // ъ before palatalizing А*
    0, // ы before palatalizing А*
    49, // no sound
    133, // А*
    133, // О*
    133, // Э*
    133, // Ы*
    133, // И*
    133, // У*
    133, // А1
    133, // Э1
    133, // Ы1
    133, // И1
    133, // У1
    133, // А2
    133, // Э2
    133, // О
    133, // Е
    0, // Б
    21, // Б'
    133, // В
    105, // В'
    0, // Г
    28, // Г'
    0, // Х1
    35, // Х1'
    0, // Д
    7, // Д'
    0, // Ж
    14, // Ж'
    133, // J
    0, // З
    7, // З'
    49, // К
    84, // К'
    133, // Л
    112, // Л'
    133, // М
    119, // М'
    133, // Н
    98, // Н'
    49, // П
    70, // П'
    133, // Р
    126, // Р'
    49, // С
    56, // С'
    49, // Т
    56, // Т'
    49, // Ф
    77, // Ф'
    49, // Х
    91, // Х'
    49, // Ц
    0, // Ц1
    63, // Ч
    14, // Ч1
    49, // Ш
    63, // Щ
    42, // no sound, voiced
    133, // unused 58
    133, // unused 59
    133, // unused 60
    133, // unused 61
    133, // unused 62
    133, // unused 63
    147, // palatalizing no sound
    154, // palatalizing А*
    154, // palatalizing О*
    154, // palatalizing Э*
    154, // palatalizing Ы*
    154, // palatalizing И*
    154, // palatalizing У*
    154, // palatalizing А1
    154, // palatalizing Э1
    154, // palatalizing Ы1
    154, // palatalizing И1
    154, // palatalizing У1
    154, // palatalizing А2
    154, // palatalizing Э2
    154, // palatalizing О
    154, // palatalizing Е
    140, // palatalizing Б
    140, // palatalizing Б'
    154, // palatalizing В
    154, // palatalizing В'
    140, // palatalizing Г
    140, // palatalizing Г'
    140, // palatalizing Х1
    140, // palatalizing Х1'
    140, // palatalizing Д
    140, // palatalizing Д'
    140, // palatalizing Ж
    140, // palatalizing Ж'
    154, // palatalizing J
    140, // palatalizing З
    140, // palatalizing З'
    147, // palatalizing К
    147, // palatalizing К'
    154, // palatalizing Л
    154, // palatalizing Л'
    154, // palatalizing М
    154, // palatalizing М'
    154, // palatalizing Н
    154, // palatalizing Н'
    147, // palatalizing П
    147, // palatalizing П'
    154, // palatalizing Р
    154, // palatalizing Р'
    147, // palatalizing С
    147, // palatalizing С'
    147, // palatalizing Т
    147, // palatalizing Т'
    147, // palatalizing Ф
    147, // palatalizing Ф'
    147, // palatalizing Х
    147, // palatalizing Х'
    147, // palatalizing Ц
    140, // palatalizing Ц1
    147, // palatalizing Ч
    140, // palatalizing Ч1
    147, // palatalizing Ш
    147, // palatalizing Щ
    140, // palatalizing no sound, voiced
    154, // palatalizing unused 58
    154, // palatalizing unused 59
    154, // palatalizing unused 60
    154, // palatalizing unused 61
    154, // palatalizing unused 62
    154, // palatalizing unused 63
];
