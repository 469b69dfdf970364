//! Which layers and policies make what a report says at a path of their view.
#![tactic(auto)]

mod below;
mod demand;
mod finding;
mod least;
mod making;
mod met;
mod part;
mod shown;
mod source;
mod trail;

pub use cue_lattice::{Memory, Text};
pub use cue_policies::LayerKind;
pub use cue_report::ReportPlace;
pub use cue_row::{Row, Step};
pub use cue_table::{Branch, Table};
pub use making::{LeastMakers, makers};
pub use part::WrittenPart;
pub use shown::shown_parts;
pub use source::LayerSource;
