// The types and the named numbers that the papers' definitions and the operations share. This crate
// has no function: specs/ is what people must believe.
#![tactic(auto)]

pub mod alphabet;
pub mod codes;
pub mod numbers;

// The syllable that a vowel closes (paper 01, pass 2): whether anything stands before the vowel in
// it, and how near the stress is.
#[derive(Clone, Copy)]
pub enum Cover {
    Bare,
    Covered,
}

// Levels S, 1 and 2.
#[derive(Clone, Copy)]
pub enum Level {
    Stressed,
    First,
    Second,
}

#[derive(Clone, Copy)]
pub struct Syllable {
    pub cover: Cover,
    pub level: Level,
}

// The two readings of a tape (paper 02, request 8): that of paper 01, and the newer one.
#[derive(Clone, Copy)]
pub enum Edition {
    One,
    Two,
}

// Why a message is turned away, by the paper's number, and where. A number and no enum: paper 01
// ('Forms') has a refusal hold it, the definitions and C speak of it, and the check's table has it.
#[derive(Clone, Copy)]
pub struct Refusal {
    pub number: u8,
    pub place: usize,
}

// How long the answers for an accepted message are: codes of its tape, syllable names.
#[derive(Clone, Copy)]
pub struct Counts {
    pub codes: usize,
    pub names: usize,
}

// What an operation on a lent output wrote: so many bytes, which C is told beside its own output.
// The live count is the joiner's; the others answer 0, as their definitions and C's struct have it.
#[derive(Clone, Copy)]
pub struct Written {
    pub length: usize,
    pub live: usize,
}

// Who calls the phrase book (paper 02, slip 7).
#[derive(Clone, Copy)]
pub enum Listener {
    Pump,
    Road,
    Dispatch,
}

// Where a tape stands in the lent buffer.
#[derive(Clone, Copy)]
pub struct Span {
    pub start: usize,
    pub length: usize,
}
