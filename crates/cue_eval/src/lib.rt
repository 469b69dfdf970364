//! Evaluation: what expressions and texts refuse at each place.
#![tactic(auto)]

mod build;
mod close;
mod declared;
mod declares;
mod definitions;
mod evaluation;
mod labels;
mod laws;
mod left_out;
mod pair;
mod parts;
mod rows;
mod scalars;
mod tables;

pub use cue_lattice::{Memory, Narrow, Narrowed, Text};
pub use cue_row::Row;
pub use cue_scope::Resolved;
pub use cue_sets::TextSet;
pub use cue_table::Table;
pub use evaluation::evaluate;
pub use laws::{laws_of_closing, laws_of_meaning, laws_of_places, laws_of_validity};
