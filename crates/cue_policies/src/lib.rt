//! Policies: patterns that bind labels which others declare, and the view of layers and policies.
#![tactic(auto)]

mod below;
mod error;
mod forms;
mod kind;
mod labels;
mod laws;
mod misplaced;
mod names;
mod part;
mod place;
mod rows;
mod view;

pub use error::ViewError;
pub use forms::{is_plain, is_well_formed};
pub use kind::LayerKind;
pub use labels::{fits, is_pattern};
pub use laws::{
    documents_of_views, policies_stay_well_formed, views_in_any_order, views_of_two,
    views_without_patterns,
};
pub use misplaced::misplaced_pattern;
pub use view::whole_view;
