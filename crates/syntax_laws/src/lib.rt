//! Laws of the grammar that `cue_syntax` defines. No crate stands on them, so that they prolong no
//! other proof. Each function states one by its contract and computes nothing.
#![tactic(auto)]

mod places;
mod refusals;
mod spots;

pub use places::{form_keeps_without_places, levels_keep_without_places, tree_spelled_anywhere};
pub use refusals::refusals_fit_one_place;
pub use spots::spots_follow_the_grammar;
