//! Layers: what each owner of a configuration says, replaced by what the owner says next.
//!
//! A map of layers has one for each kind and name. Owners put and remove layers at any site, and
//! sites join their maps: late, repeatedly, in any order.
#![tactic(auto)]

mod extracting;
mod finding;
mod joining;
mod laws;
mod layer;
mod layers;
mod layers_reader;
mod layers_writer;
mod least;
mod names;
mod piece;
mod putting;
mod reading;
mod refusal;
mod stage;
mod view;
mod writing;

pub use cue_lattice::{Kind, Memory, Refusal, Text};
pub use cue_policies::{LayerKind, ViewError};
pub use cue_replica::Replica;
pub use laws::{
    joined_maps_are_of_both_sets, layers_are_read_in_pieces, layers_bytes_are_exact,
    maps_join_in_any_order, one_map_of_puts, puts_are_added,
};
pub use layer::Layer;
pub use layers::Layers;
pub use layers_reader::LayersReader;
pub use layers_writer::LayersWriter;
pub use names::bad_place;
pub use piece::Piece;
pub use refusal::LayersRefusal;
