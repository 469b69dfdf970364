//! The rounds of an HTTP service over a runtime of any kind: what is read, asked of other sites,
//! answered, settled, and only then sent.
#![tactic(auto)]

mod asked;
mod event_loop;
mod failure;
mod peer;
mod peers;
mod question;
mod rounds;
mod runtime;
mod source;
mod wait;

pub use event_loop::{Bounds, Loop, rounds_write_what_stands, writes_what_stands};
pub use failure::SourceFailure;
pub use rounds::{Gathers, InRound, News};
pub use runtime::{Accepted, ClientStream, Runtime, SourceStream, StreamFault};
pub use source::PullSource;
