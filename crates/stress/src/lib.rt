#![tactic(auto, unfolding(letters::proofs::Computed::everything))]

pub mod before;
pub mod levels;
pub mod syllables;

// What the run of the levels' step carries from place to place, to the left: counts and flags, and
// nothing else of the message.
#[derive(Clone, Copy)]
pub struct LevelRun {
    pub before: usize, // count: the steps of the walk's turns before this one; no answer shows it
    pub steps: usize, // count: the steps since; the compiler leaves both counts out
    pub since: usize, // count: the syllables to the next mark on the right, or 2 or more for none
    pub marked: bool, // flag: has the word a mark?
    pub edge: bool, // flag: was the last byte a mark or a break?
}
