// One walk over a whole book, for lookups and additions.
ghost use Rattle.std.specs.Prelude.{◌≡◌, ◌<◌};
ghost use Rattle.spec.specs.Book.{book_storage, read_book};
ghost use Rattle.records.specs.Walking.{noted, walked_of, EndOf};

use crate::{NUMBER, Seen, is_record, pair_at, record_end};
use spec::{Refusal, numbers};

// Where the book ends in a buffer: at the used count, or at the buffer's end where the count is
// above that. Buffer and used count come from C as they are.
pub fn book_end(buffer: &[u8], used: usize) -> usize
    ensures { EndOf buffer.now used result }
{
    used.min(buffer.len())
}

// What is seen with one more record: it has this number, and begins at this place.
fn note(s: Seen, wanted: usize, number: usize, place: usize) -> Seen
    requires { number < 65536 }
    ensures { result ≡ noted s wanted number place }
{
    Seen {
        place: if number == wanted {
            Some(place)
        } else {
            s.place
        },
        least: number + 1,
    }
}

// Goes through the book record by record to its end, also where the number wanted is found before.
// Each step is as long as the record there, so no `for` goes over the places.
#[tactic(auto, using(crate::proofs::Walks::rest_15, crate::proofs::Walks::record_inside))]
pub fn walk(book: &[u8], wanted: usize) -> Result<Seen, Refusal>
    ensures { result ≡ walked_of (read_book book_storage book.now) wanted }
{
    let mut i = 0;
    let mut seen = Seen {
        place: None,
        least: 0,
    };
    while is_record(book, i) {
        let number = pair_at(book, i + NUMBER);
        if number < seen.least {
            return Err(Refusal {
                number: numbers::NUMBER_NOT_ABOVE,
                place: i,
            });
        }
        seen = note(seen, wanted, number, i);
        i = record_end(book, i);
    }
    if i < book.len() {
        return Err(Refusal {
            number: numbers::BROKEN_RECORD,
            place: i,
        });
    }
    Ok(seen)
}
