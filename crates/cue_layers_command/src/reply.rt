//! What is printed of a run that was not stopped.
ghost use Rattle.std.specs.Prelude.{◌≡◌, IfOk};
ghost use Rattle.cue_layers_command.specs.Places.{absent_line};

use cue_program::{Replica, SiteQuestion};
use std::alloc::{AllocError, Global};

/// What is printed of a run that was not stopped.
#[derive(Drop)]
pub enum LayersReply {
    /// A text, whole, and the exit status.
    Text(Vec<u8>, u8),
    /// The line of a revision. It takes no memory.
    Revision(u64),
    /// What this site answers, which is made while it is written.
    Site(SiteQuestion, Replica),
}

/// The line of what is not there.
pub fn absence_line(alloc: Global, what: &str) -> Result<Vec<u8>, AllocError>
    ensures { IfOk result (λ line. line.items ≡ absent_line what.now) }
{
    let mut line = Vec::new(alloc);
    line.extend_from_slice(b"absent ")?;
    line.extend_from_slice(what.as_bytes())?;
    line.push(b'\n')?;
    Ok(line)
}
