// The words of numbers, put into a lent output one after the other: the table of paper 02, slip 5,
// row by row.
#![tactic(auto)]

ghost use Rattle.std.specs.Prelude.{◌≡◌, [], ◌∷◌, ◌<◌, ◌≤◌, length};
ghost use Rattle.spec.specs.SpokenLevels.{units, teens, tens, hundreds, feminine, word_in};
ghost use Rattle.spec.specs.SpokenLevels.{thousand, thousands};
ghost use Rattle.numerals.specs.Placing.{Begins, RoomIn, AddsIn, low_words};

use spec::alphabet::GAP;

// An output that is lent for words, and how much of it they fill.
#[derive(Drop)]
pub struct Words<'a> {
    pub out: &'a mut [u8],
    pub length: usize,
}

impl<'a> Words<'a> {
    // No words yet.
    pub fn new(out: &'a mut [u8]) -> Words<'a>
        ensures { Begins out.entry result }
    {
        Words { out, length: 0 }
    }

    // How many bytes the words fill.
    pub fn len(&self) -> usize
        ensures { result ≡ self.now.length }
    {
        self.length
    }

    // Puts a word, behind a gap unless it is the first.
    pub fn put(&mut self, word: &[u8])
        requires { (0 < length word.now) × RoomIn (word.now ∷ []) self.old }
        ensures { AddsIn (word.now ∷ []) self.old self.new }
    {
        if self.length != 0 {
            self.out[self.length] = GAP;
            self.length += 1;
        }
        let end = self.length + word.len();
        self.out[self.length..end].copy_from_slice(word);
        self.length = end;
    }

    // Puts so many thousands: the count and its form.
    pub fn put_thousands(&mut self, n: usize)
        requires { RoomIn (thousands n) self.old }
        ensures { AddsIn (thousands n) self.old self.new }
    {
        if n != 0 {
            self.put_count(n);
            self.put_thousand(n);
        }
    }

    // Puts a number below 100 by its tens and units: from 10 to 19 one word, else a word for each.
    pub fn put_below_hundred(&mut self, ten: usize, unit: usize)
        requires { (unit ≤ 9) × RoomIn (low_words ten unit) self.old }
        ensures { AddsIn (low_words ten unit) self.old self.new }
    {
        if ten == 10 {
            return self.put_teen(10 + unit);
        }
        self.put_tens(ten);
        self.put_unit(unit);
    }

    // Puts the word of a number from 1 to 9; any other number has none here. In each table a row is
    // an arm that puts its word. Looked up first, which was tried, a word has no length that the
    // compiler knows: a level then takes more than half as many instructions again, and words are
    // copied by a call outside, which the C interface rules out. This match is set into both its
    // callers, which spares a level a quarter of its instructions.
    #[inline(always)]
    #[tactic(auto, unfolding(crate::proofs::Rows::rows))]
    fn put_unit(&mut self, n: usize)
        requires { RoomIn (word_in units n) self.old }
        ensures { AddsIn (word_in units n) self.old self.new }
    {
        match n {
            1 => self.put(b"\xEE\xE4\xE8*\xED"), // оди*н
            2 => self.put(b"\xE4\xE2\xE0*"), // два*
            3 => self.put(b"\xF2\xF0\xE8*"), // три*
            4 => self.put(b"\xF7\xE5\xF2\xFB*\xF0\xE5"), // четы*ре
            5 => self.put(b"\xEF\xFF*\xF2\xFC"), // пя*ть
            6 => self.put(b"\xF8\xE5*\xF1\xF2\xFC"), // ше*сть
            7 => self.put(b"\xF1\xE5*\xEC\xFC"), // се*мь
            8 => self.put(b"\xE2\xEE*\xF1\xE5\xEC\xFC"), // во*семь
            9 => self.put(b"\xE4\xE5*\xE2\xFF\xF2\xFC"), // де*вять
            _ => {},
        }
    }

    // Puts the word of a number from 10 to 19.
    #[tactic(auto, unfolding(crate::proofs::Rows::rows))]
    fn put_teen(&mut self, n: usize)
        requires { RoomIn (word_in teens n) self.old }
        ensures { AddsIn (word_in teens n) self.old self.new }
    {
        match n {
            10 => self.put(b"\xE4\xE5*\xF1\xFF\xF2\xFC"), // де*сять
            11 => self.put(b"\xEE\xE4\xE8*\xED\xED\xE0\xE4\xF6\xE0\xF2\xFC"), // оди*ннадцать
            12 => self.put(b"\xE4\xE2\xE5\xED\xE0*\xE4\xF6\xE0\xF2\xFC"), // двена*дцать
            13 => self.put(b"\xF2\xF0\xE8\xED\xE0*\xE4\xF6\xE0\xF2\xFC"), // трина*дцать
            14 => self.put(b"\xF7\xE5\xF2\xFB*\xF0\xED\xE0\xE4\xF6\xE0\xF2\xFC"), // четы*рнадцать
            15 => self.put(b"\xEF\xFF\xF2\xED\xE0*\xE4\xF6\xE0\xF2\xFC"), // пятна*дцать
            16 => self.put(b"\xF8\xE5\xF1\xF2\xED\xE0*\xE4\xF6\xE0\xF2\xFC"), // шестна*дцать
            17 => self.put(b"\xF1\xE5\xEC\xED\xE0*\xE4\xF6\xE0\xF2\xFC"), // семна*дцать
            18 => self.put(b"\xE2\xEE\xF1\xE5\xEC\xED\xE0*\xE4\xF6\xE0\xF2\xFC"), // восемна*дцать
            19 => self.put(b"\xE4\xE5\xE2\xFF\xF2\xED\xE0*\xE4\xF6\xE0\xF2\xFC"), // девятна*дцать
            _ => {},
        }
    }

    // Puts the word of the tens from 20 on.
    #[tactic(auto, unfolding(crate::proofs::Rows::rows))]
    fn put_tens(&mut self, n: usize)
        requires { RoomIn (word_in tens n) self.old }
        ensures { AddsIn (word_in tens n) self.old self.new }
    {
        match n {
            20 => self.put(b"\xE4\xE2\xE0*\xE4\xF6\xE0\xF2\xFC"), // два*дцать
            30 => self.put(b"\xF2\xF0\xE8*\xE4\xF6\xE0\xF2\xFC"), // три*дцать
            40 => self.put(b"\xF1\xEE*\xF0\xEE\xEA"), // со*рок
            50 => self.put(b"\xEF\xFF\xF2\xFC\xE4\xE5\xF1\xFF*\xF2"), // пятьдеся*т
            60 => self.put(b"\xF8\xE5\xF1\xF2\xFC\xE4\xE5\xF1\xFF*\xF2"), // шестьдеся*т
            70 => self.put(b"\xF1\xE5*\xEC\xFC\xE4\xE5\xF1\xFF\xF2"), // се*мьдесят
            80 => self.put(b"\xE2\xEE*\xF1\xE5\xEC\xFC\xE4\xE5\xF1\xFF\xF2"), // во*семьдесят
            90 => self.put(b"\xE4\xE5\xE2\xFF\xED\xEE*\xF1\xF2\xEE"), // девяно*сто
            _ => {},
        }
    }

    // Puts the word of the hundreds.
    #[tactic(auto, unfolding(crate::proofs::Rows::rows))]
    pub fn put_hundreds(&mut self, n: usize)
        requires { RoomIn (word_in hundreds n) self.old }
        ensures { AddsIn (word_in hundreds n) self.old self.new }
    {
        match n {
            100 => self.put(b"\xF1\xF2\xEE*"), // сто*
            200 => self.put(b"\xE4\xE2\xE5*\xF1\xF2\xE8"), // две*сти
            300 => self.put(b"\xF2\xF0\xE8*\xF1\xF2\xE0"), // три*ста
            400 => self.put(b"\xF7\xE5\xF2\xFB*\xF0\xE5\xF1\xF2\xE0"), // четы*реста
            500 => self.put(b"\xEF\xFF\xF2\xFC\xF1\xEE*\xF2"), // пятьсо*т
            600 => self.put(b"\xF8\xE5\xF1\xF2\xFC\xF1\xEE*\xF2"), // шестьсо*т
            700 => self.put(b"\xF1\xE5\xEC\xFC\xF1\xEE*\xF2"), // семьсо*т
            800 => self.put(b"\xE2\xEE\xF1\xE5\xEC\xFC\xF1\xEE*\xF2"), // восемьсо*т
            900 => self.put(b"\xE4\xE5\xE2\xFF\xF2\xFC\xF1\xEE*\xF2"), // девятьсо*т
            _ => {},
        }
    }

    // Puts the count of thousands: one and two are feminine.
    #[tactic(auto, unfolding(crate::proofs::Rows::rows))]
    fn put_count(&mut self, n: usize)
        requires { RoomIn (word_in feminine n) self.old }
        ensures { AddsIn (word_in feminine n) self.old self.new }
    {
        match n {
            1 => self.put(b"\xEE\xE4\xED\xE0*"), // одна*
            2 => self.put(b"\xE4\xE2\xE5*"), // две*
            _ => self.put_unit(n),
        }
    }

    // Puts the thousand in the form that its count takes.
    #[tactic(auto, using(crate::proofs::Forms::forms))]
    fn put_thousand(&mut self, n: usize)
        requires { RoomIn (thousand n ∷ []) self.old }
        ensures { AddsIn (thousand n ∷ []) self.old self.new }
    {
        if n == 1 {
            return self.put(b"\xF2\xFB*\xF1\xFF\xF7\xE0"); // ты*сяча
        }
        if n <= 4 {
            return self.put(b"\xF2\xFB*\xF1\xFF\xF7\xE8"); // ты*сячи
        }
        self.put(b"\xF2\xFB*\xF1\xFF\xF7"); // ты*сяч
    }
}
