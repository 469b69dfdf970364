//! Which requests a site lets in: those that name a host of its own, no writes that a web page of
//! another site may have sent, and those with a token where one is needed.
#![tactic(auto)]

mod doors;
mod fields;
mod guarded;
mod keys;

pub use crate::doors::{DoorRefusal, Doors};
pub use crate::guarded::{Guarded, KeyRefusals};
pub use crate::keys::{KeyRefusal, Keys};
