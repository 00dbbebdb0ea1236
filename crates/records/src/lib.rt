// The record of a phrase (paper 02, requests 6 and 7): a head of mark, number, set of listeners and
// length, and then the tape.
#![tactic(auto)]

ghost use Rattle.std.specs.Prelude.{◌≡◌, [], ◌∷◌, ◌+◌, ◌<◌, ◌≤◌, length, drop};
ghost use Rattle.spec.specs.Book.{book_storage, head_size, pair_at, span_in, has_record_mark};
ghost use Rattle.spec.specs.Book.{is_record, two_bytes, head_of};
ghost use Rattle.laws.specs.Putting.{Put};
ghost use Rattle.records.specs.Walking.{HeadDue};

use spec::Refusal;
use spec::numbers::RECORD_MARK;

pub mod listeners;
pub mod reading;

// What the walk over a book has seen up to a place: where the record with the number wanted begins,
// once that is met, and the least number that may stand next. The place comes first: a field there
// shares its first byte with a refusal's number in the walk's answer, and the least number would be
// taken apart for that at each record.
#[derive(Clone, Copy)]
pub struct Seen {
    pub place: Option<usize>,
    pub least: usize,
}

pub const HEAD_SIZE: usize = 7;

// Where in the head the number, the set of listeners and the tape's length stand.
const NUMBER: usize = 2;

pub const SET: usize = 4;

pub const LENGTH: usize = 5;

// The two bytes from place i on as a number, low byte first.
pub fn pair_at(x: &[u8], i: usize) -> usize
    requires { i + 1 < length x.now }
    ensures { (result ≡ pair_at i x.now) × (result < 65536) }
{
    u16::from_le_bytes([x[i], x[i + 1]]) as usize
}

// Does the mark of a record stand at place i?
#[tactic(auto, using(crate::proofs::Walks::mark_at))]
fn is_marked(x: &[u8], i: usize) -> bool
    requires { i + 1 < length x.now }
    ensures { result ≡ has_record_mark book_storage (drop i x.now) }
{
    pair_at(x, i) == RECORD_MARK
}

// Where the record at place i ends by its head.
#[tactic(auto, using(crate::proofs::Walks::pair_behind))]
fn record_end(x: &[u8], i: usize) -> usize
    requires { i + head_size ≤ length x.now }
    ensures { result ≡ i + span_in book_storage (drop i x.now) }
{
    i + HEAD_SIZE + pair_at(x, i + LENGTH)
}

// Does a record stand at place i, with its mark, its head and its whole tape?
fn is_record(x: &[u8], i: usize) -> bool
    requires { i ≤ length x.now }
    ensures { result ≡ is_record book_storage (drop i x.now) }
{
    i + HEAD_SIZE <= x.len() && is_marked(x, i) && record_end(x, i) <= x.len()
}

// Puts a byte at place i, and tells the place after it. A value that holds output and place would
// be made and taken apart in put_head alone, so these three pass them on.
fn put_byte(out: &mut [u8], i: usize, b: u8) -> usize
    requires { i < length out.old }
    ensures { Put (b ∷ []) out.old out.new result i }
{
    out[i] = b;
    i + 1
}

// Puts a number in two bytes from place i on, low byte first.
fn put_pair(out: &mut [u8], i: usize, n: usize) -> usize
    requires { (n < 65536) × (i + 1 < length out.old) }
    ensures { Put (two_bytes n) out.old out.new result i }
{
    out[i..i + 2].copy_from_slice(&(n as u16).to_le_bytes());
    i + 2
}

// Puts the head of a record from place i on: for a number, a set of listeners, a tape of n codes.
#[tactic(auto, unfolding(spec::specs::Book::two_bytes))]
pub fn put_head(out: &mut [u8], i: usize, number: usize, set: u8, n: usize) -> usize
    requires { HeadDue out.old i number n }
    ensures { Put (head_of book_storage number set n)
        out.old out.new result i }
{
    let number_place = put_pair(out, i, RECORD_MARK);
    let set_place = put_pair(out, number_place, number);
    let length_place = put_byte(out, set_place, set);
    put_pair(out, length_place, n)
}
