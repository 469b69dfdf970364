//! Places of a configuration: by their paths as reports write them, each as a configuration of its
//! own.
#![tactic(auto)]

mod bars;
mod declared;
mod lookup;
mod root;
mod spelled;
mod value;

pub use cue_lattice::Memory;
pub use cue_report::Conflict;
pub use cue_row::{Row, Step};
pub use cue_table::Table;
pub use lookup::{Lookup, place_at};
pub use spelled::read_path;
pub use value::{is_file, value_text};
