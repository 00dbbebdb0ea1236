// Additions (paper 02, requests 6 to 8).
ghost use Rattle.std.specs.Prelude.{◌≡◌, length};
ghost use Rattle.spec.specs.Book.{book_storage, read_book, after_book, phrase_of, record_of};
ghost use Rattle.spec.specs.Book.{AddPromise};
ghost use Rattle.spec.specs.Results.{wrote};
ghost use Rattle.laws.specs.Putting.{Put};
ghost use Rattle.book.specs.Entries.{asked, unwritten, RecordDue};

use message::check::check;
use records::listeners::not_for_listener;
use records::put_head;
use records::reading::{book_end, walk};
use spec::{Edition, Listener, Refusal, Written, numbers};
use transcriber::tape::write_tape;

// What an addition asks for: a message in an edition under a number, for a set of listeners.
#[derive(Clone, Copy)]
pub struct Addition<'a> {
    pub edition: Edition,
    pub number: u16,
    pub set: u8,
    pub message: &'a [u8],
}

// The book's refusals of an addition under a number: 15 and 16 of its records, and 16 at its end
// where the number is not above the last.
#[tactic(auto, using(crate::proofs::Told::judging))]
fn judge(book: &[u8], number: usize) -> Result<(), Refusal>
    ensures { result ≡ unwritten (after_book (read_book book_storage book.now) number
        (length book.now) (wrote 0 0)) }
{
    let seen = walk(book, number)?;
    if number < seen.least {
        return Err(Refusal {
            number: numbers::NUMBER_NOT_ABOVE,
            place: book.len(),
        });
    }
    Ok(())
}

// Writes the record of an addition whose message is accepted and has a tape of n codes, from place
// i on, and tells where it ends. The tape is put straight to its place, right before that end.
fn write_record(addition: Addition, out: &mut [u8], i: usize, n: usize) -> usize
    requires { RecordDue addition.message.now out.old i addition.number n }
    ensures { Put (record_of book_storage (phrase_of book_storage (asked addition.entry)))
        out.old out.new result i }
{
    let end = put_head(out, i, addition.number as usize, addition.set, n) + n;
    write_tape(addition.edition, addition.message, out, end);
    end
}

// Dispatch's addition: puts the record behind the book and answers the new used count, or refuses
// and leaves every byte.
fn append(buffer: &mut [u8], used: usize, addition: Addition) -> Result<Written, Refusal>
    ensures { AddPromise book_storage Listener.Dispatch buffer.old used (asked addition.entry)
        buffer.new result }
{
    let counts = check(addition.message)?;
    let end = book_end(buffer, used);
    judge(&buffer[..end], addition.number as usize)?;
    let total = end + records::HEAD_SIZE + counts.codes;
    if buffer.len() < total {
        return Err(Refusal {
            number: numbers::SHORT_OUTPUT,
            place: total,
        });
    }
    let length = write_record(addition, buffer, end, counts.codes);
    Ok(Written { length, live: 0 })
}

// The writer: adds the tape of a message, in an edition, under a number and for a set of listeners,
// at the end of the book. That is for dispatch alone; anyone else is turned away before all other
// checks.
#[tactic(auto, using(crate::proofs::TurnedAway::turned_away))]
pub fn add(
    listener: Listener,
    buffer: &mut [u8],
    used: usize,
    addition: Addition,
) -> Result<Written, Refusal>
    ensures { AddPromise book_storage listener buffer.old used (record {
      edition = addition.entry.edition;
      number = addition.entry.number;
      set = addition.entry.set;
      message = addition.entry.message.now;
    })
        buffer.new result }
{
    match listener {
        Listener::Dispatch => append(buffer, used, addition),
        Listener::Pump | Listener::Road => Err(not_for_listener()),
    }
}
