// Lookups (paper 02, requests 6 and 7).
ghost use Rattle.std.specs.Prelude.{◌≡◌, ℕ, List};
ghost use Rattle.spec.specs.Book.{book_storage, read_book, book_in, locate_answer, unheard};
ghost use Rattle.spec.specs.Book.{stands_after, as_found, taken, stands_at_last};
ghost use Rattle.spec.specs.Book.{FindPromise, LocatePromise};
ghost use Rattle.book.specs.Entries.{PlaceIn, told_at};

use records::listeners::{may_hear, not_for_listener};
use records::pair_at;
use records::reading::{book_end, walk};
use spec::{Listener, Refusal, Span};

// What a listener is told of the record at a place, or where none begins.
fn tell(listener: Listener, book: &[u8], place: Option<usize>) -> Result<Span, Refusal>
    requires { PlaceIn book.now place }
    ensures { result ≡ told_at listener book.now place }
{
    match place {
        Some(i) if may_hear(listener, book[i + records::SET]) => Ok(Span {
            start: i + records::HEAD_SIZE,
            length: pair_at(book, i + records::LENGTH),
        }),
        _ => Err(not_for_listener()),
    }
}

// Tells a listener where in the buffer the tape under a number stands, if it is for him, or else
// that it is not, or why the book is not sound.
#[tactic(auto, using(crate::proofs::Told::place_known))]
pub fn locate(listener: Listener, buffer: &[u8], used: usize, wanted: u16) -> Result<Span, Refusal>
    ensures { LocatePromise listener buffer.now used wanted result }
{
    let book = &buffer[..book_end(buffer, used)];
    let seen = walk(book, wanted as usize)?;
    tell(listener, book, seen.place)
}

// Why someone who is no listener is turned away: the book is not sound, or nothing in it is for
// him.
#[tactic(auto, using(crate::proofs::Told::unhearing))]
pub fn refuse(buffer: &[u8], used: usize) -> Refusal
    ensures { result ≡ unheard (read_book book_storage (book_in buffer.now used)) }
{
    let end = book_end(buffer, used);
    match walk(&buffer[..end], 0) {
        Ok(_) => not_for_listener(),
        Err(r) => r,
    }
}

// Hands back the tape's own bytes, a part of the buffer. The promise speaks of a place that takes
// them: which bytes it holds then, and where in memory these stand; on a refusal it keeps what it
// had.
#[tactic(auto, using(crate::proofs::Told::standing), unfolding(spec::specs::Book::end_of))]
pub fn find(listener: Listener, buffer: &[u8], used: usize, wanted: u16) -> Result<&[u8], Refusal>
    ensures find_promise { (old : List ℕ)
        → FindPromise book_storage listener buffer.now used wanted
        old (taken result old) (as_found result) }
    ensures ptr_after { (old : ℕ × ℕ) → stands_at_last result old ≡ stands_after
        (locate_answer listener (read_book book_storage (book_in buffer.now used)) wanted)
        buffer.entry.ref_ptr old }
{
    let Span { start, length } = locate(listener, buffer, used, wanted)?;
    Ok(&buffer[start..start + length])
}
