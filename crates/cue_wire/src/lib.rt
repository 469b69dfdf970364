//! The two ends of a connection to a site: sessions, which serve a stream of requests and write
//! the replies, and clients, which write requests and read the replies. Both take their streams in
//! pieces, cut anywhere.
//!
//! A stream is frames: each is a length in four bytes, from the highest to the lowest, and so many
//! bytes.
#![tactic(auto)]

mod answer;
mod call;
mod client;
mod connection;
mod frame;
mod laws;
mod page;
mod reply;
mod request;
mod session;
mod state_reply;
mod text_reply;
mod want;

pub use client::Client;
pub use connection::{Ended, serve};
pub use cue_device::{Bytes, Fault, Reader, Sink, Source, Writer};
pub use cue_replica::{Kind, Memory, Replica};
pub use frame::{FRAME_LIMIT, PIECE};
pub use laws::{sessions_are_events, streams_are_read_once};
pub use request::Request;
pub use session::Session;
