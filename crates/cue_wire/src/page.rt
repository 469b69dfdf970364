//! The page that a reply is written to while it is made.
ghost use Rattle.std.specs.Prelude.{◌≡◌, ◌↔◌, ◌≤◌, ◌+◌, ◌++◌, [], IsTrue, OnOk, OnErr, Some};
ghost use Rattle.std.specs.Prelude.{length};
ghost use Rattle.cue_wire.specs.Frames.{frame_limit};

use crate::frame::FRAME_LIMIT;
use cue_replica::{Memory, TextSink};
use std::alloc::Global;

/// The front of a text, of at most as many bytes as a frame's body has.
#[derive(Drop)]
pub struct Page {
    bytes: Vec<u8>,
    ghost within: { length bytes.items ≤ frame_limit },
}

impl Page {
    ghost use Rattle.cue_wire.specs.Inner.Pages.{page_bytes};

    /// A page with nothing on it.
    pub fn new(alloc: Global) -> Page
        ensures { page_bytes result ≡ [] }
    {
        Page {
            bytes: Vec::new(alloc),
        }
    }

    /// What stands on it.
    pub fn bytes(&self) -> &[u8]
        ensures { result.now ≡ page_bytes self.now }
    {
        self.bytes.as_slice()
    }

    /// Whether nothing more goes on it.
    pub fn is_full(&self) -> bool
        ensures { IsTrue result ↔ frame_limit ≤ length (page_bytes self.now) }
    {
        self.bytes.len() >= FRAME_LIMIT
    }

    /// Adds bytes for which there is room.
    fn add(&mut self, bytes: &[u8]) -> Result<(), Memory>
        requires room { length (page_bytes self.old) + length bytes.now ≤ frame_limit }
        ensures ok { OnOk result (page_bytes self.new ≡ page_bytes self.old ++ bytes.now) }
        ensures err { OnErr result (page_bytes self.new ≡ page_bytes self.old) }
    {
        self.bytes.extend_from_slice(bytes)?;
        Ok(())
    }
}

impl TextSink for Page {
    type SinkError = Memory;

    ghost use Rattle.cue_wire.specs.Inner.Pages.{page_bytes};

    ghost taken = { λ page. Some (page_bytes page) };

    /// Adds a piece. A full page takes what fits, and then answers as memory that ran out does:
    /// `is_full` says which of both it was.
    fn put(&mut self, piece: &str) -> Result<(), Memory> {
        let bytes = piece.as_bytes();
        let room = FRAME_LIMIT - self.bytes.len();
        if bytes.len() <= room {
            self.add(bytes)?;
            return Ok(());
        }
        self.add(&bytes[..room])?;
        Err(Memory::too_many(u64::MAX, 1))
    }
}
