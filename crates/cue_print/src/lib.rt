//! The canonical text of a table: from a tree of rows to a file of the language.
#![tactic(auto)]

mod file;
mod free;
mod laws;
mod scalar;
mod term;
mod terms;
mod value;
mod writer;

pub use cue_device::TextSink;
pub use cue_lattice::Memory;
pub use cue_row::Row;
pub use cue_table::Table;
pub use file::{print, print_to};
pub use laws::others_are_left;
