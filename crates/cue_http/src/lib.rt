//! Many HTTP connections on one thread: the sockets of `mio`, and the wait for them, under the
//! rounds of `cue_rounds`.
#![tactic(auto)]

mod ended;
mod serving;
mod sockets;

pub use cue_rounds::{Bounds, Gathers, InRound, News, PullSource, SourceFailure};
pub use ended::LoopError;
pub use serving::serve;
