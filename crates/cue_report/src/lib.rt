//! The export of a configuration, what is in its way, and the lines that tell it.
#![tactic(auto)]

mod conflict;
mod demand;
mod document_text;
mod exporting;
mod gap;
mod law;
mod listed;
mod outcome;
mod place;
mod report;
mod sink;
mod stream;
mod written;

pub use conflict::{Conflict, conflicts, write_conflicts};
pub use cue_lattice::Memory;
pub use cue_row::{Row, Step, path_text};
pub use cue_table::Table;
pub use exporting::{document, export, write_export};
pub use gap::{Gap, incomplete, write_gaps};
pub use law::one_report;
pub use outcome::{Export, ExportKind};
pub use place::ReportPlace;
pub use report::lines;
pub use serde_json::Value;
