//! Why nothing is measured.
use cue_lattice::Kind;
use std::{error, fmt};

/// Why nothing is measured.
#[derive(Debug, Clone, Copy)]
pub enum Fault {
    /// The words are none that the program knows.
    Usage,
    /// The table that was made is not valid.
    Invalid,
    /// The state of the table is refused.
    Refused(Kind),
}

impl fmt::Display for Fault {
    fn fmt<W: fmt::Write>(&self, f: &mut fmt::Formatter<W>) -> fmt::Result {
        match self {
            Fault::Usage => f.write_str("usage: bench [sets|unify|tables|scope|eval WORDS]"),
            Fault::Invalid => f.write_str("the table is not valid"),
            Fault::Refused(kind) => f.write_str(kind.name()),
        }
    }
}

impl error::Error for Fault {}

/// The number that a word writes.
pub fn number(word: &str) -> Result<u32, Fault> {
    word.parse::<u32>().ok().ok_or(Fault::Usage)
}
