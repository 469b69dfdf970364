//! Layers over HTTP: a service around that of the commons, with a map of layers on the disk.
#![tactic(auto)]

mod access;
mod answers;
mod changing;
mod conditions;
mod desk;
mod entries;
mod fragments;
mod laws;
mod refusal;
mod route;
mod site;
mod start;
mod store;
mod viewing;

pub use access::WriteAccess;
pub use entries::{add_layers, layers_snapshot_in};
pub use laws::layers_keep_their_promise;
pub use refusal::ChangeRefusal;
pub use route::LayersRoute;
pub use site::LayeredSite;
pub use start::{LayersStartError, start_layers};
pub use store::LayersStore;
