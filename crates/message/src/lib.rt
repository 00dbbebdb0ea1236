#![tactic(auto)]

pub mod answers;
pub mod check;
mod kinds;
mod pairs;

// What the check has seen of a message when it stands at a place: the kind of what stands before
// it, a place from which the letters of the word are still to be counted, another before which none
// of them is a 65th, and the codes and names so far.
#[derive(Clone, Copy)]
pub struct Seen {
    pub at: usize,
    pub kind: usize,
    pub from: usize,
    pub limit: usize,
    pub sum: usize,
}
