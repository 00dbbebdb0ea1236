#![tactic(auto)]

pub mod reader;
mod tables;
pub mod writer;

// How far a text is readable: so many octets of it, which become so many bytes.
#[derive(Clone, Copy)]
pub struct Extent {
    pub octets: usize,
    pub bytes: usize,
}
