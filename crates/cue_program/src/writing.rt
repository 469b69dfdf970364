ghost use Rattle.std.specs.Prelude.{◌<◌, length, OnOk, IfErr};
ghost use Rattle.cue_replica.specs.Language.{language};
ghost use Rattle.cue_program.specs.Outlets.{AddsBytes, IsWriteFailed, passage_of};

use crate::input::new_buffer;
use crate::output::Output;
use crate::stop::RunError;
use cue_replica::{Replica, StateWriter};
use std::alloc::Global;
use std::io::Write;

/// Writes the state bytes of a site, made in pieces of 65,536 bytes while they are written.
///
/// # Errors
///
/// `Device`, after which a part of the bytes may have been written; and `Memory`, after which just
/// the pieces in front were.
pub fn write_state<W: Write>(
    alloc: Global,
    site: &Replica,
    out: &mut Output<W>,
) -> Result<(), RunError>
    ensures written { OnOk result
        (AddsBytes (passage_of W.contents out.old out.new) (language.written site.now)) }
    ensures untold { IfErr result
        (IsWriteFailed (passage_of W.contents out.old out.new) (language.written site.now)) }
{
    let mut piece = new_buffer(alloc)?;
    let mut state = site.state_writer()?;
    write_rest(&mut state, &mut piece, out)?;
    out.flush()?;
    Ok(())
}

/// Hands on all bytes that a writer of states has left, in pieces that fill this room.
fn write_rest<W: Write>(
    state: &mut StateWriter<'_>,
    piece: &mut [u8],
    out: &mut Output<W>,
) -> Result<(), RunError>
    requires { 0 < length piece.old }
    ensures written { OnOk result (AddsBytes (passage_of W.contents out.old out.new) state.old) }
    ensures untold { IfErr result (IsWriteFailed (passage_of W.contents out.old out.new) state.old) }
{
    'pieces: loop {
        let count = state.fill(piece)?;
        if count == 0 {
            return Ok(());
        }
        out.write_all(&piece[..count])?;
    }
}
