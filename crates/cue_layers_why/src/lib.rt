//! Which layers of a map make what the report of its view says at a path, and what each wrote there.
#![tactic(auto)]

mod asking;
mod lines;
mod naming;
mod sources;

pub use asking::why;
pub use cue_layers::{LayerKind, Layers, Memory, Text};
pub use cue_why::{ReportPlace, Row, Step, Table};
pub use lines::why_lines;
pub use naming::{LayerPart, NamedLayer};
