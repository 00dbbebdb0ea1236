// The editor (paper 02, slip 1). The breaks at the ends are taken off and the last word is found
// first. So each word before it ends at a break and each run of breaks at a word, and count_word,
// copy_word and read_run ask for no end: as iterators they do, and were measured to be slower.
#![tactic(auto)]

ghost use Rattle.std.specs.Prelude.{◌≡◌, ◌∷◌, ◌+◌, ◌<◌, ◌≤◌, length, take};
ghost use Rattle.spec.specs.Alphabet.{gap, pause};
ghost use Rattle.spec.specs.Tables.{among};
ghost use Rattle.spec.specs.Answers.{within, Promise};
ghost use Rattle.spec.specs.Editing.{pause_marks, gap_marks, EditPromise};
ghost use Rattle.laws.specs.Edited.{breaks, leading, edit_from};
ghost use Rattle.laws.specs.Putting.{Put};
ghost use Rattle.editor.specs.Walk.{others, Last, LastWord, EndsInWord, ReadsRun, reads};
ghost use Rattle.editor.specs.Walk.{piece, Goes};

use spec::alphabet::{GAP, PAUSE};
use spec::{Refusal, Written, numbers};

// A run of breaks: how many bytes it has, and the break that it becomes.
#[derive(Clone, Copy)]
pub struct Run {
    pub length: usize,
    pub becomes: u8,
}

// How far the walk goes over a word and the breaks behind it: in the text, and in what is edited.
#[derive(Clone, Copy)]
pub struct Stride {
    pub read: usize,
    pub put: usize,
}

// Is the byte a pause, or a mark that becomes one?
fn is_pause(b: u8) -> bool
    ensures { result ≡ among (pause ∷ pause_marks) b }
{
    (b == PAUSE) | (b == b'.') | (b == b',') | (b == b';') | (b == b':') | (b == b'?') | (b == b'!')
}

// Is it a gap, or a mark that becomes one?
fn is_gap(b: u8) -> bool
    ensures { result ≡ among (gap ∷ gap_marks) b }
{
    (b == GAP) | (b == b'-') | (b == b'(') | (b == b')') | (b == b'"') | (b == b'\'')
}

// Does it stand for a break?
pub fn is_break(b: u8) -> bool
    ensures { result ≡ breaks b }
{
    is_pause(b) | is_gap(b)
}

// Where the breaks begin that the text ends with. This search and the next two are the library's
// with a test each; one function that takes the test would say no less.
fn last_breaks(text: &[u8]) -> usize
    ensures { Last breaks text.now result }
{
    match text.iter().rposition(|&b| !is_break(b)) {
        Some(i) => i + 1,
        None => 0,
    }
}

// Where the word begins that the text ends with.
fn last_word(text: &[u8]) -> usize
    ensures { Last others text.now result }
{
    match text.iter().rposition(|&b| is_break(b)) {
        Some(i) => i + 1,
        None => 0,
    }
}

// How many breaks the text begins with.
fn first_breaks(text: &[u8]) -> usize
    ensures { result ≡ leading breaks text.now }
{
    text.iter().take_while(|&&b| is_break(b)).count()
}

// How many bytes the first word has. A break follows, so no end is asked for: as an iterator, which
// asks for it, the counting took 1.5 times the time.
fn count_word(text: &[u8]) -> usize
    requires { leading others text.now < length text.now }
    ensures { result ≡ leading others text.now }
{
    let mut k = 0;
    while !is_break(text[k]) {
        k += 1;
    }
    k
}

// Copies the first word, and answers how many bytes it has. A break follows, so no end is asked
// for: as an iterator it took 10.7 instructions a byte of edited text where this takes 9.0.
fn copy_word(text: &[u8], out: &mut [u8]) -> usize
    requires { (leading others text.now < length text.now)
        × (leading others text.now ≤ length out.old) }
    ensures value { result ≡ leading others text.now }
    ensures put { Put (take result text.now) out.old out.new result 0 }
{
    let mut k = 0;
    while !is_break(text[k]) {
        out[k] = text[k];
        k += 1;
    }
    k
}

// The run of breaks that the text begins with, a pause if one of them is a pause. A word follows
// it, so no end is asked for: as an iterator it took 11.4 instructions a byte where this takes 9.0,
// and 10.3 as a while that asks for a break and then for a pause.
fn read_run(text: &[u8]) -> Run
    requires { leading breaks text.now < length text.now }
    ensures { ReadsRun text.now result }
{
    let mut becomes = GAP;
    let mut k = 0;
    loop {
        let b = text[k];
        if is_pause(b) {
            becomes = PAUSE;
            k += 1;
        } else if is_gap(b) {
            k += 1;
        } else {
            return Run { length: k, becomes };
        }
    }
}

// Over a word and the breaks behind it, when nothing is written.
fn pass_word(text: &[u8]) -> Stride
    requires { reads text.now < length text.now }
    ensures { Goes text.now result }
{
    let word = count_word(text);
    let run = read_run(&text[word..]);
    Stride {
        read: word + run.length,
        put: word + 1,
    }
}

// Writes a word and the break behind it: a function beside pass_word for the reason that stands at
// `measure`.
fn write_word(text: &[u8], out: &mut [u8]) -> Stride
    requires { (reads text.now < length text.now) × (leading others text.now < length out.old) }
    ensures { Goes text.now result × Put (piece text.now) out.old out.new result.put 0 }
{
    let word = copy_word(text, out);
    let run = read_run(&text[word..]);
    let read = word + run.length;
    let put = word + 1;
    out[word] = run.becomes;
    Stride { read, put }
}

// Copies a text as it is. Not by the library's copy, which calls outside the archive: the C
// interface rules that out.
fn copy_all(text: &[u8], out: &mut [u8])
    requires { length text.now ≤ length out.old }
    ensures { Put text.now out.old out.new (length text.now) 0 }
{
    for (k, &b) in text.iter().enumerate() {
        out[k] = b;
    }
}

// How long a text without breaks at its ends is when it is edited. Its last word begins at place
// last. A turn is as long as its word and run, so no `for` counts the places. One walk for this and
// for write_edited is no plainer: it needs a trait, two types with its laws, and the name of the
// lent output in them. To count all bytes but a break behind a break took 29.3 instructions a byte
// where this takes 17.4, the writing with it.
fn measure(text: &[u8], last: usize) -> usize
    requires { LastWord text.now last }
    ensures { result ≡ length (edit_from 0 text.now) }
{
    let mut i = 0;
    let mut at = 0;
    while i < last {
        let stride = pass_word(&text[i..]);
        i += stride.read;
        at += stride.put;
    }
    at + (text.len() - i)
}

// Writes it, where there is room for it.
fn write_edited(text: &[u8], last: usize, out: &mut [u8]) -> usize
    requires { LastWord text.now last × (length (edit_from 0 text.now) ≤ length out.old) }
    ensures { Put (edit_from 0 text.now) out.old out.new result 0 }
{
    let mut i = 0;
    let mut at = 0;
    while i < last {
        let stride = write_word(&text[i..], &mut out[at..]);
        i += stride.read;
        at += stride.put;
    }
    copy_all(&text[i..], &mut out[at..]);
    at + (text.len() - i)
}

// Edits a text without breaks at its ends. Only an output that is shorter than it can be too short.
fn edit_between(text: &[u8], out: &mut [u8]) -> Result<Written, Refusal>
    requires { EndsInWord text.now }
    ensures { Promise (within (length out.old) (length (edit_from 0 text.now)) 0)
        (edit_from 0 text.now) out.old out.new result }
{
    let last = last_word(text);
    if out.len() < text.len() {
        let n = measure(text, last);
        if out.len() < n {
            return Err(Refusal {
                number: numbers::SHORT_OUTPUT,
                place: n,
            });
        }
    }
    let length = write_edited(text, last, out);
    Ok(Written { length, live: 0 })
}

// The editor: writes the edited text at the start of the lent output, or refuses and leaves every
// byte.
pub fn edit(text: &[u8], out: &mut [u8]) -> Result<Written, Refusal>
    ensures { EditPromise text.now out.old out.new result }
{
    let end = last_breaks(text);
    let from = first_breaks(&text[..end]);
    edit_between(&text[from..end], out)
}
