#![tactic(auto)]

pub mod classes;
pub mod classify;
pub mod elision;
pub mod output;
