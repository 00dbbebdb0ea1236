// The C interface: include/govorun.h says what each function promises. Each carries its operation's
// promise on in numbers: four, three for a text of any length or an addition to a book, five for a
// lookup.
#![tactic(auto)]

ghost use Rattle.spec.specs.Answers.{CheckPromise, NamePromise, TranscribePromise, JoinPromise};
ghost use Rattle.spec.specs.Answers.{Carried};
ghost use Rattle.spec.specs.Editing.{EditPromise};
ghost use Rattle.spec.specs.Utf8.{ReadPromise, WritePromise};
ghost use Rattle.spec.specs.SpokenLevels.{LevelPromise};
ghost use Rattle.std.specs.Prelude.{◌≡◌};
ghost use Rattle.laws.specs.Bounds.{Small, SmallCheck};
ghost use Rattle.capi.specs.Said.{Said, Counted, Told, SaidAdded, SaidFound};
ghost use Rattle.capi.specs.Said.{edition, named, FindsFor, AddsFor};

use book::adding::{Addition, add};
use book::lookup::{locate, refuse};
use editor::edit;
use joiner::join::join;
use levels::speak_level;
use message::check::check;
use naming::name;
use records::listeners::not_for_listener;
use spec::{Counts, Edition, Listener, Refusal, Span, Written};
use transcriber::tape::transcribe;
use utf8::reader::read_utf8;
use utf8::writer::write_utf8;

#[repr(C)]
#[derive(Clone, Copy)]
pub struct GovorunAnswer {
    pub number: u32,
    pub place: u32,
    pub length: u32,
    pub live: u32,
}

#[repr(C)]
#[derive(Clone, Copy)]
pub struct GovorunCounts {
    pub number: u32,
    pub place: u32,
    pub codes: u32,
    pub names: u32,
}

#[repr(C)]
#[derive(Clone, Copy)]
pub struct GovorunText {
    pub number: u32,
    pub place: usize,
    pub length: usize,
}

#[repr(C)]
#[derive(Clone, Copy)]
pub struct GovorunAdded {
    pub number: u32,
    pub place: usize,
    pub used: usize,
}

#[repr(C)]
#[derive(Clone, Copy)]
pub struct GovorunFound {
    pub number: u32,
    pub place: usize,
    // Callers have this field, so it stays.
    pub found: u32,
    pub start: usize,
    pub length: usize,
}

// The check's answer in four numbers, each of which fits. Not by From, which can ask for nothing.
// Each of C's structs has fields of its own, so this and the conversions below stay apart.
#[tactic(auto, unfolding(crate::proofs::Numbers::numbers))]
fn count(a: Result<Counts, Refusal>) -> GovorunCounts
    requires { SmallCheck a }
    ensures { Counted a result }
{
    match a {
        Ok(counts) => GovorunCounts {
            number: 0,
            place: 0,
            codes: counts.codes as u32,
            names: counts.names as u32,
        },
        Err(r) => GovorunCounts {
            number: r.number as u32,
            place: r.place as u32,
            codes: 0,
            names: 0,
        },
    }
}

#[unsafe(no_mangle)]
pub extern "C" fn govorun_check(m: &[u8]) -> GovorunCounts
    ensures { Carried (CheckPromise m.now) Counted result }
{
    count(check(m))
}

// An operation's answer in four numbers, each of which fits. Not by From, which can ask for
// nothing.
#[tactic(auto, unfolding(crate::proofs::Numbers::numbers))]
fn say(a: Result<Written, Refusal>) -> GovorunAnswer
    requires { Small a }
    ensures { Said a result }
{
    match a {
        Ok(written) => GovorunAnswer {
            number: 0,
            place: 0,
            length: written.length as u32,
            live: written.live as u32,
        },
        Err(r) => GovorunAnswer {
            number: r.number as u32,
            place: r.place as u32,
            length: 0,
            live: 0,
        },
    }
}

#[unsafe(no_mangle)]
pub extern "C" fn govorun_name(m: &[u8], out: &mut [u8]) -> GovorunAnswer
    ensures { Carried (NamePromise m.now out.old out.new) Said result }
{
    say(name(m, out))
}

// The edition that a caller in C names. Not by From, which would stand beside the type, in the
// crate that has no function.
fn edition_of(newer: bool) -> Edition
    ensures { result ≡ edition newer }
{
    if newer {
        return Edition::Two;
    }
    Edition::One
}

#[unsafe(no_mangle)]
pub extern "C" fn govorun_transcribe(newer: bool, m: &[u8], out: &mut [u8]) -> GovorunAnswer
    ensures { Carried (TranscribePromise (edition newer) m.now
        out.old out.new) Said result }
{
    say(transcribe(edition_of(newer), m, out))
}

#[unsafe(no_mangle)]
pub extern "C" fn govorun_join(
    newer: bool,
    m: &[u8],
    cuts: &[usize],
    out: &mut [u8],
) -> GovorunAnswer
    ensures { Carried (JoinPromise (edition newer) m.now cuts.now
        out.old out.new) Said result }
{
    say(join(edition_of(newer), m, cuts, out))
}

#[unsafe(no_mangle)]
pub extern "C" fn govorun_write_utf8(m: &[u8], out: &mut [u8]) -> GovorunAnswer
    ensures { Carried (WritePromise m.now out.old out.new) Said result }
{
    say(write_utf8(m, out))
}

#[unsafe(no_mangle)]
pub extern "C" fn govorun_speak_level(level: i32, out: &mut [u8]) -> GovorunAnswer
    ensures { Carried (LevelPromise level out.old out.new) Said result }
{
    say(speak_level(level, out))
}

// The answer for a text in three numbers, which may be as large as it is long.
impl From<Result<Written, Refusal>> for GovorunText {
    ghost from_gives = { Told };

    #[tactic(auto, unfolding(crate::proofs::Numbers::numbers))]
    fn from(a: Result<Written, Refusal>) -> GovorunText {
        match a {
            Ok(written) => GovorunText {
                number: 0,
                place: 0,
                length: written.length,
            },
            Err(r) => GovorunText {
                number: r.number as u32,
                place: r.place,
                length: 0,
            },
        }
    }
}

#[unsafe(no_mangle)]
pub extern "C" fn govorun_edit(text: &[u8], out: &mut [u8]) -> GovorunText
    ensures { Carried (EditPromise text.now out.old out.new) Told result }
{
    GovorunText::from(edit(text, out))
}

#[unsafe(no_mangle)]
pub extern "C" fn govorun_read_utf8(text: &[u8], out: &mut [u8]) -> GovorunText
    ensures { Carried (ReadPromise text.now out.old out.new) Told result }
{
    GovorunText::from(read_utf8(text, out))
}

// An addition's answer, where the length is the new used count.
impl From<Result<Written, Refusal>> for GovorunAdded {
    ghost from_gives = { SaidAdded };

    fn from(a: Result<Written, Refusal>) -> GovorunAdded {
        let t = GovorunText::from(a);
        GovorunAdded {
            number: t.number,
            place: t.place,
            used: t.length,
        }
    }
}

// Whom a caller in C names. The listeners are numbered; no other number is a listener's. Not by
// TryFrom, which would stand beside the type, in the crate that has no function.
fn named_by(number: u32) -> Option<Listener>
    ensures { result ≡ named number }
{
    match number {
        0 => Some(Listener::Pump),
        1 => Some(Listener::Road),
        2 => Some(Listener::Dispatch),
        _ => None,
    }
}

#[unsafe(no_mangle)]
pub extern "C" fn govorun_book_add(
    listener: u32,
    newer: bool,
    book: &mut [u8],
    used: usize,
    phrase: u16,
    set: u8,
    m: &[u8],
) -> GovorunAdded
    ensures { Carried (AddsFor (named listener) book.old used (record {
      edition = edition newer;
      number = phrase;
      set = set;
      message = m.now;
    })
        book.new) SaidAdded result }
{
    match named_by(listener) {
        Some(l) => {
            let addition = Addition {
                edition: edition_of(newer),
                number: phrase,
                set,
                message: m,
            };
            GovorunAdded::from(add(l, book, used, addition))
        }
        None => GovorunAdded::from(Err(not_for_listener())),
    }
}

// A lookup's answer: found is 1 where there is a tape.
impl From<Result<Span, Refusal>> for GovorunFound {
    ghost from_gives = { SaidFound };

    #[tactic(auto, unfolding(crate::proofs::Numbers::numbers))]
    fn from(a: Result<Span, Refusal>) -> GovorunFound {
        match a {
            Ok(span) => GovorunFound {
                number: 0,
                place: 0,
                found: 1,
                start: span.start,
                length: span.length,
            },
            Err(refusal) => GovorunFound {
                number: refusal.number as u32,
                place: refusal.place,
                found: 0,
                start: 0,
                length: 0,
            },
        }
    }
}

#[unsafe(no_mangle)]
pub extern "C" fn govorun_book_find(
    listener: u32,
    book: &[u8],
    used: usize,
    phrase: u16,
) -> GovorunFound
    ensures { Carried (FindsFor (named listener) book.now used phrase) SaidFound result }
{
    match named_by(listener) {
        Some(l) => GovorunFound::from(locate(l, book, used, phrase)),
        None => GovorunFound::from(Err(refuse(book, used))),
    }
}
