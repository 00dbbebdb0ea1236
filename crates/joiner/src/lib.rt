#![tactic(auto)]

pub mod join;
mod joints;

// What a cut changes: the last code before it, the first code after it.
#[derive(Clone, Copy)]
pub struct Changes {
    pub before: bool,
    pub after: bool,
}

// How far the second tape is laid, from the right: from the mark of place e on, which stands at
// index at of the tape. How many cuts there are live, in how many steps were the levels found so
// far, and does the cut at place e change the last code before it?
#[derive(Clone, Copy)]
pub struct Progress {
    pub e: usize,
    pub at: usize,
    pub live: usize,
    pub steps: usize,
    pub changed: bool,
}

// What the writing of the second tape counts: the live cuts, and the steps that found the levels.
// No answer shows the steps, so the compiler leaves them out.
#[derive(Clone, Copy)]
pub struct JoinCounts {
    pub live: usize,
    pub steps: usize,
}
