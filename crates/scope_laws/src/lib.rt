//! Laws of names, meaning and limits, which `cue_scope` defines. No crate stands on them, so that
//! they prolong no other proof. Each function states one by its contract and computes nothing.
#![tactic(auto)]

mod places;

pub use places::{checks_keep_without_places, meaning_keeps_without_places};
