//! What the program of layers does with its inputs, apart from its arguments. It joins files to one
//! map of layers, puts and removes layers of a map that lies in a file, tries puts, and lists and
//! shows layers.
#![tactic(auto)]

mod difference;
mod joining;
mod listing;
mod map_file;
mod putting;
mod stop;
mod trying;

pub use cue_layers::{Layer, LayerKind, Layers, LayersRefusal};
pub use cue_program::{Answer, FileSystem, Output, Refusal, Replica, SiteQuestion, Status};
pub use joining::{join_files, merge, view_of};
pub use listing::{list, show};
pub use putting::{put, remove};
pub use stop::LayersStop;
pub use trying::attempt;
