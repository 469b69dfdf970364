//! Contents that are written to a file.
ghost use Rattle.std.specs.Prelude.{◌<◌, ◌⊎◌, ℕ, List, length, OnOk, IfErr};
ghost use Rattle.cue_replica.specs.Language.{language};
ghost use Rattle.cue_program.specs.Contents.{bytes_of_contents};
ghost use Rattle.cue_program.specs.Calls.{WritesBytes};
ghost use Rattle.cue_program.specs.Stopped.{TouchesIn};
ghost use Rattle.cue_program.specs.Stops.{IsDeviceStop, IsMemoryStop};

use crate::contents::Contents;
use crate::files::FileSystem;
use crate::input::new_buffer;
use crate::stop::RunError;
use cue_replica::{Replica, StateWriter};
use std::alloc::Global;

/// Writes contents to a file.
///
/// # Errors
///
/// `Device` and `Memory`, after which a part of the bytes may have been written.
pub fn write_contents<S: FileSystem>(
    shelf: &mut S,
    alloc: Global,
    file: &mut S::Draft,
    contents: &Contents<'_>,
) -> Result<(), RunError>
    ensures written { OnOk result (WritesBytes S.makes (bytes_of_contents contents.now)
        file.old file.new shelf.old shelf.new) }
    ensures touched { (place : List ℕ) → (n : ℕ)
        × TouchesIn S.makes place n file.old file.new shelf.old shelf.new }
    ensures fault { IfErr result (λ stop. IsDeviceStop stop ⊎ IsMemoryStop stop) }
{
    match contents {
        Contents::State(site) => write_state(shelf, alloc, file, site),
        Contents::Bytes(bytes) => write_bytes(shelf, file, bytes),
    }
}

/// Writes bytes to a file, by one call.
fn write_bytes<S: FileSystem>(
    shelf: &mut S,
    file: &mut S::Draft,
    bytes: &[u8],
) -> Result<(), RunError>
    ensures written { OnOk result (WritesBytes S.makes bytes.now
        file.old file.new shelf.old shelf.new) }
    ensures touched { (place : List ℕ) → (n : ℕ)
        × TouchesIn S.makes place n file.old file.new shelf.old shelf.new }
    ensures fault { IfErr result (λ stop. IsDeviceStop stop ⊎ IsMemoryStop stop) }
{
    shelf.write(file, bytes)?;
    Ok(())
}

/// Writes the state bytes of a site to a file, made in pieces of 65,536 bytes while they are
/// written.
fn write_state<S: FileSystem>(
    shelf: &mut S,
    alloc: Global,
    file: &mut S::Draft,
    site: &Replica,
) -> Result<(), RunError>
    ensures written { OnOk result (WritesBytes S.makes (language.written site.now)
        file.old file.new shelf.old shelf.new) }
    ensures touched { (place : List ℕ) → (n : ℕ)
        × TouchesIn S.makes place n file.old file.new shelf.old shelf.new }
    ensures fault { IfErr result (λ stop. IsDeviceStop stop ⊎ IsMemoryStop stop) }
{
    let mut piece = new_buffer(alloc)?;
    let mut state = site.state_writer()?;
    write_rest(shelf, &mut state, file, &mut piece)
}

/// Writes all bytes that a writer of states has left, in pieces that fill this room.
fn write_rest<S: FileSystem>(
    shelf: &mut S,
    state: &mut StateWriter<'_>,
    file: &mut S::Draft,
    piece: &mut [u8],
) -> Result<(), RunError>
    requires { 0 < length piece.old }
    ensures written { OnOk result (WritesBytes S.makes state.old
        file.old file.new shelf.old shelf.new) }
    ensures touched { (place : List ℕ) → (n : ℕ)
        × TouchesIn S.makes place n file.old file.new shelf.old shelf.new }
    ensures fault { IfErr result (λ stop. IsDeviceStop stop ⊎ IsMemoryStop stop) }
{
    'pieces: loop {
        let count = state.fill(piece)?;
        if count == 0 {
            return Ok(());
        }
        shelf.write(file, &piece[..count])?;
    }
}
