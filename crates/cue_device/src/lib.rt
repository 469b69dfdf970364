//! Devices that bytes are read from and written to, whose calls and failures are counted: in
//! memory, over a connection, and over anything that `std::io` reads from and writes to.
//!
//! A device that fails is told by [`Fault`]; how often it was called is told by `calls`. Contracts
//! also see how often it failed, and where a device knows them, the bytes that it gave or took so
//! far, and those still to come.
//!
//! A text that is written while it is made goes to a [`TextSink`], a piece at a time.
#![tactic(auto)]

mod memory;
mod sink;
mod source;
mod text;

pub use memory::Bytes;
pub use sink::{Sink, Writer};
pub use source::{Reader, Source};
pub use text::TextSink;

/// A read or a write that failed.
#[derive(Clone, Copy, Debug, PartialEq, Eq)]
pub struct Fault;
