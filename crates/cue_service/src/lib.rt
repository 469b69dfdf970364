//! A site behind HTTP: it answers requests of its table, has each piece that it accepts wait for
//! the disk, and tells after each round whether what it answered stands.
#![tactic(auto)]

mod access;
mod admission;
mod board;
mod bounds;
mod commons;
mod conditions;
mod counts;
mod desk;
mod editions;
mod entries;
mod escapes;
mod gathering;
mod kept;
mod laws;
mod limits;
mod listed;
mod markup;
mod metrics;
mod page;
mod refusal;
mod responses;
mod route;
mod rules;
mod shown;
mod site;
mod sizes;
mod snapshots;
mod standing;
mod start;
mod tag;

pub use access::AccessToken;
pub use board::CachedTable;
pub use commons::ServesCommons;
pub use conditions::{has_tag, matches_tag};
pub use desk::{SiteCore, answer_question};
pub use entries::{add_entries, snapshot_in};
pub use laws::{a_round_keeps_its_promise, calls_are_events};
pub use limits::answer_within;
pub use responses::{answer_body, answer_field, answer_status, answer_tagged, answer_unchanged};
pub use route::{PieceKind, Route};
pub use rules::SiteRules;
pub use shown::{Shown, is_hidden};
pub use site::Site;
pub use snapshots::Snapshots;
pub use standing::{SourceStanding, Standing};
pub use start::{StartError, start_site};
pub use tag::tag_text;
