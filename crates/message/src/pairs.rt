// The table of pairs: what a byte comes to, by its class and the kind of what stands before it.
// specs/Steps.antt has its rule, and that these numbers keep it is shown once, for check::entry_at.
use crate::kinds::PAIRS_SIZE;

// A row for each kind and a column for each class, in hexadecimal: the first two digits are 0, or
// one more than the fault's number; the next is 2 for a letter that may be elided; 4000 is a name,
// and the last digit the codes.
pub static PAIRS: [u32; PAIRS_SIZE] = [
    0x0400000, // unnamed after unnamed
    0x0600000, // mark after unnamed
    0x0000001, // gap after unnamed
    0x0000001, // pause after unnamed
    0x0000000, // ъ after unnamed
    0x0000000, // ь after unnamed
    0x0000001, // hard only after unnamed
    0x0000001, // paired after unnamed
    0x0000001, // т or д after unnamed
    0x0000001, // soft only after unnamed
    0x0004001, // а у ы э after unnamed
    0x0004001, // о after unnamed
    0x0004002, // е ё ю я after unnamed
    0x0004001, // и after unnamed
    0x0400000, // unused 0 14
    0x0400000, // unused 0 15
    0x0400000, // unnamed after mark
    0x0600000, // mark after mark
    0x0000001, // gap after mark
    0x0000001, // pause after mark
    0x0100000, // ъ after mark
    0x0100000, // ь after mark
    0x0000001, // hard only after mark
    0x0000001, // paired after mark
    0x0000001, // т or д after mark
    0x0000001, // soft only after mark
    0x0004001, // а у ы э after mark
    0x0004001, // о after mark
    0x0004002, // е ё ю я after mark
    0x0004001, // и after mark
    0x0400000, // unused 1 14
    0x0400000, // unused 1 15
    0x0400000, // unnamed after gap
    0x0600000, // mark after gap
    0x0500001, // gap after gap
    0x0500001, // pause after gap
    0x0700000, // ъ after gap
    0x0700000, // ь after gap
    0x0000001, // hard only after gap
    0x0000001, // paired after gap
    0x0000001, // т or д after gap
    0x0000001, // soft only after gap
    0x0004001, // а у ы э after gap
    0x0004001, // о after gap
    0x0004002, // е ё ю я after gap
    0x0004001, // и after gap
    0x0400000, // unused 2 14
    0x0400000, // unused 2 15
    0x0400000, // unnamed after pause
    0x0600000, // mark after pause
    0x0500001, // gap after pause
    0x0500001, // pause after pause
    0x0700000, // ъ after pause
    0x0700000, // ь after pause
    0x0000001, // hard only after pause
    0x0000001, // paired after pause
    0x0000001, // т or д after pause
    0x0000001, // soft only after pause
    0x0004001, // а у ы э after pause
    0x0004001, // о after pause
    0x0004002, // е ё ю я after pause
    0x0004001, // и after pause
    0x0400000, // unused 3 14
    0x0400000, // unused 3 15
    0x0400000, // unnamed after ъ
    0x0600000, // mark after ъ
    0x0004001, // gap after ъ
    0x0004001, // pause after ъ
    0x0800000, // ъ after ъ
    0x0800000, // ь after ъ
    0x0900001, // hard only after ъ
    0x0900001, // paired after ъ
    0x0900001, // т or д after ъ
    0x0900001, // soft only after ъ
    0x0004001, // а у ы э after ъ
    0x0004001, // о after ъ
    0x0004002, // е ё ю я after ъ
    0x0004002, // и after ъ
    0x0400000, // unused 4 14
    0x0400000, // unused 4 15
    0x0400000, // unnamed after ь
    0x0600000, // mark after ь
    0x0004001, // gap after ь
    0x0004001, // pause after ь
    0x0800000, // ъ after ь
    0x0800000, // ь after ь
    0x0000001, // hard only after ь
    0x0000001, // paired after ь
    0x0000001, // т or д after ь
    0x0000001, // soft only after ь
    0x0004001, // а у ы э after ь
    0x0004002, // о after ь
    0x0004002, // е ё ю я after ь
    0x0004002, // и after ь
    0x0400000, // unused 5 14
    0x0400000, // unused 5 15
    0x0400000, // unnamed after hard only
    0x0600000, // mark after hard only
    0x0004001, // gap after hard only
    0x0004001, // pause after hard only
    0x0000000, // ъ after hard only
    0x0000000, // ь after hard only
    0x0000001, // hard only after hard only
    0x0000001, // paired after hard only
    0x0000001, // т or д after hard only
    0x0000001, // soft only after hard only
    0x0004001, // а у ы э after hard only
    0x0004001, // о after hard only
    0x0004001, // е ё ю я after hard only
    0x0004001, // и after hard only
    0x0400000, // unused 6 14
    0x0400000, // unused 6 15
    0x0400000, // unnamed after paired
    0x0600000, // mark after paired
    0x0004001, // gap after paired
    0x0004001, // pause after paired
    0x0000000, // ъ after paired
    0x0000000, // ь after paired
    0x0000001, // hard only after paired
    0x0000001, // paired after paired
    0x0020001, // т or д after paired
    0x0000001, // soft only after paired
    0x0004001, // а у ы э after paired
    0x0004001, // о after paired
    0x0004001, // е ё ю я after paired
    0x0004001, // и after paired
    0x0400000, // unused 7 14
    0x0400000, // unused 7 15
    0x0400000, // unnamed after т or д
    0x0600000, // mark after т or д
    0x0004001, // gap after т or д
    0x0004001, // pause after т or д
    0x0000000, // ъ after т or д
    0x0000000, // ь after т or д
    0x0000001, // hard only after т or д
    0x0000001, // paired after т or д
    0x0000001, // т or д after т or д
    0x0000001, // soft only after т or д
    0x0004001, // а у ы э after т or д
    0x0004001, // о after т or д
    0x0004001, // е ё ю я after т or д
    0x0004001, // и after т or д
    0x0400000, // unused 8 14
    0x0400000, // unused 8 15
    0x0400000, // unnamed after soft only
    0x0600000, // mark after soft only
    0x0004001, // gap after soft only
    0x0004001, // pause after soft only
    0x0000000, // ъ after soft only
    0x0000000, // ь after soft only
    0x0000001, // hard only after soft only
    0x0000001, // paired after soft only
    0x0000001, // т or д after soft only
    0x0000001, // soft only after soft only
    0x0004001, // а у ы э after soft only
    0x0004001, // о after soft only
    0x0004001, // е ё ю я after soft only
    0x0004001, // и after soft only
    0x0400000, // unused 9 14
    0x0400000, // unused 9 15
    0x0400000, // unnamed after а у ы э
    0x0000000, // mark after а у ы э
    0x0000001, // gap after а у ы э
    0x0000001, // pause after а у ы э
    0x0100000, // ъ after а у ы э
    0x0100000, // ь after а у ы э
    0x0000001, // hard only after а у ы э
    0x0000001, // paired after а у ы э
    0x0000001, // т or д after а у ы э
    0x0000001, // soft only after а у ы э
    0x0004001, // а у ы э after а у ы э
    0x0004001, // о after а у ы э
    0x0004002, // е ё ю я after а у ы э
    0x0004001, // и after а у ы э
    0x0400000, // unused 10 14
    0x0400000, // unused 10 15
    0x0400000, // unnamed after о
    0x0000000, // mark after о
    0x0000001, // gap after о
    0x0000001, // pause after о
    0x0100000, // ъ after о
    0x0100000, // ь after о
    0x0000001, // hard only after о
    0x0000001, // paired after о
    0x0000001, // т or д after о
    0x0000001, // soft only after о
    0x0004001, // а у ы э after о
    0x0004001, // о after о
    0x0004002, // е ё ю я after о
    0x0004001, // и after о
    0x0400000, // unused 11 14
    0x0400000, // unused 11 15
    0x0400000, // unnamed after е ё ю я
    0x0000000, // mark after е ё ю я
    0x0000001, // gap after е ё ю я
    0x0000001, // pause after е ё ю я
    0x0100000, // ъ after е ё ю я
    0x0100000, // ь after е ё ю я
    0x0000001, // hard only after е ё ю я
    0x0000001, // paired after е ё ю я
    0x0000001, // т or д after е ё ю я
    0x0000001, // soft only after е ё ю я
    0x0004001, // а у ы э after е ё ю я
    0x0004001, // о after е ё ю я
    0x0004002, // е ё ю я after е ё ю я
    0x0004001, // и after е ё ю я
    0x0400000, // unused 12 14
    0x0400000, // unused 12 15
    0x0400000, // unnamed after и
    0x0000000, // mark after и
    0x0000001, // gap after и
    0x0000001, // pause after и
    0x0100000, // ъ after и
    0x0100000, // ь after и
    0x0000001, // hard only after и
    0x0000001, // paired after и
    0x0000001, // т or д after и
    0x0000001, // soft only after и
    0x0004001, // а у ы э after и
    0x0004001, // о after и
    0x0004002, // е ё ю я after и
    0x0004001, // и after и
    0x0400000, // unused 13 14
    0x0400000, // unused 13 15
    0x0400000, // unnamed after ъ after a vowel
    0x0600000, // mark after ъ after a vowel
    0x0004001, // gap after ъ after a vowel
    0x0004001, // pause after ъ after a vowel
    0x0800000, // ъ after ъ after a vowel
    0x0800000, // ь after ъ after a vowel
    0x0900001, // hard only after ъ after a vowel
    0x0900001, // paired after ъ after a vowel
    0x0900001, // т or д after ъ after a vowel
    0x0900001, // soft only after ъ after a vowel
    0x0A04001, // а у ы э after ъ after a vowel
    0x0A04001, // о after ъ after a vowel
    0x0A04002, // е ё ю я after ъ after a vowel
    0x0A04002, // и after ъ after a vowel
    0x0400000, // unused 14 14
    0x0400000, // unused 14 15
    0x0400000, // unnamed after ь after a vowel
    0x0600000, // mark after ь after a vowel
    0x0004001, // gap after ь after a vowel
    0x0004001, // pause after ь after a vowel
    0x0800000, // ъ after ь after a vowel
    0x0800000, // ь after ь after a vowel
    0x0000001, // hard only after ь after a vowel
    0x0000001, // paired after ь after a vowel
    0x0000001, // т or д after ь after a vowel
    0x0000001, // soft only after ь after a vowel
    0x0A04001, // а у ы э after ь after a vowel
    0x0A04002, // о after ь after a vowel
    0x0A04002, // е ё ю я after ь after a vowel
    0x0A04002, // и after ь after a vowel
    0x0400000, // unused 15 14
    0x0400000, // unused 15 15
];
