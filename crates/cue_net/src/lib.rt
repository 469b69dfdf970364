//! The program's words over a network: it serves connections one after the other, pushes requests
//! to a site that another process serves, or does both in one process, in turns.
//!
//! All is said over any network of doors and connections, whose devices count their calls; one
//! module alone names sockets. Connections are those of 127.0.0.1 alone.
#![tactic(auto)]

mod carrying;
mod halt;
mod laws;
mod looped;
mod network;
mod pushing;
mod reply;
mod serving;
mod sockets;
mod told;
mod turns;

pub use cue_replica::{Answer, Kind, Refusal, Status};
pub use cue_wire::Request;
pub use halt::NetError;
pub use laws::answers_are_true;
pub use looped::{converse, loop_for};
pub use network::{End, Network};
pub use pushing::{push, push_for};
pub use reply::{ExportReply, Verdict, export_in, kind_of, read_reply, refusal_in};
pub use serving::{serve_for, serve_from};
pub use sockets::{Outward, Port};
pub use told::answer_of_replies;

/// The most reads and writes of one connection, those of both ends together where both are here.
pub const MAX_TURNS: u64 = 100_000;
