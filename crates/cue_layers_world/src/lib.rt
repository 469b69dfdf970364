//! Worlds of sites that hold maps of layers.
//!
//! Owners put and remove layers at any site, and sites take one another's layers bytes: late,
//! repeatedly, in any order or never. `run` says what every list of such events comes to.
#![tactic(auto)]

mod history;
mod laws;
mod steps;
#[cfg(test)]
mod tests;
mod world;

pub use cue_layers::{LayerKind, Layers, LayersRefusal, Memory, Piece, Refusal, Replica, Text};
pub use history::run;
pub use laws::{one_set_has_equal_views, one_view_of_a_map, sets_are_reached_once};
pub use world::{LayersEvent, LayersOutcome, LayersWorld};
