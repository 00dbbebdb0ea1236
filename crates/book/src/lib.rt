#![tactic(auto)]

pub mod adding;
pub mod lookup;
