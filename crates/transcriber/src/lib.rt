#![tactic(auto)]

pub mod tape;

use stress::LevelRun;

// What stands right of a place of the message, in the walk from its end: where the tape written so
// far begins, what a consonant would sound before, and the run of the levels.
#[derive(Clone, Copy)]
pub struct Right {
    pub at: usize,
    pub sound: usize,
    pub levels: LevelRun,
}
