//! New files that are to take the place of others.
ghost use Rattle.std.specs.Prelude.{◌⊎◌, ℕ, IfOk, OnOk, OnErr, IfErr, string_bytes};
ghost use Rattle.cue_program.specs.Contents.{bytes_of_contents};
ghost use Rattle.cue_program.specs.Calls.{Creates, FillsFile, FillsAndMoves, TakesMode, TriesNames};
ghost use Rattle.cue_program.specs.Stopped.{OnlyTouches, StopsFilling};
ghost use Rattle.cue_program.specs.Stops.{IsDeviceStop, IsMemoryStop};

use crate::contents::Contents;
use crate::files::{CreateError, FileSystem};
use crate::state_file::write_contents;
use crate::stop::RunError;
use cue_device::Fault;
use std::alloc::Global;

/// How many names are tried for the file that is written first.
const MOST_DRAFTS: usize = 16;

/// Makes a new file beside a place, and answers where: the place's name with `.part` behind it,
/// more than once where such files lie there already.
pub fn create_beside<S: FileSystem>(
    shelf: &mut S,
    alloc: Global,
    place: &str,
) -> Result<(String, S::Draft), RunError>
    ensures created { IfOk result (λ made.
        Creates S.makes place.now (string_bytes made.0) made.1 shelf.old shelf.new) }
    ensures tried { OnErr result ((n : ℕ) × TriesNames S.makes place.now n shelf.old shelf.new) }
    ensures fault { IfErr result (λ stop. IsDeviceStop stop ⊎ IsMemoryStop stop) }
{
    let mut draft = String::from_str(alloc, place)?;
    for _ in 0..MOST_DRAFTS {
        draft.push_str(".part")?;
        match shelf.create(draft.as_str()) {
            Ok(file) => return Ok((draft, file)),
            Err(CreateError::Taken) => {}
            Err(CreateError::Fault) => return Err(RunError::Device),
        }
    }
    Err(RunError::Device)
}

/// Fills a new file, and moves it to a place from where it was made.
pub fn fill_and_move<S: FileSystem>(
    shelf: &mut S,
    alloc: Global,
    file: S::Draft,
    draft: &str,
    place: &str,
    is_file: bool,
    contents: &Contents<'_>,
) -> Result<(), RunError>
    ensures moved { OnOk result (FillsAndMoves S.makes draft.now place.now is_file
        (bytes_of_contents contents.now) file shelf.old shelf.new) }
    ensures stopped { OnErr result
        (StopsFilling S.makes draft.now place.now file shelf.old shelf.new) }
    ensures fault { IfErr result (λ stop. IsDeviceStop stop ⊎ IsMemoryStop stop) }
{
    fill(shelf, alloc, file, place, is_file, contents)?;
    shelf.rename(draft, place)?;
    Ok(())
}

/// Gives a new file the mode of the one that lies at a place, where one does, and its contents, and
/// has them reach the disk.
fn fill<S: FileSystem>(
    shelf: &mut S,
    alloc: Global,
    mut file: S::Draft,
    place: &str,
    is_file: bool,
    contents: &Contents<'_>,
) -> Result<(), RunError>
    ensures filled { OnOk result (FillsFile S.makes place.now is_file (bytes_of_contents contents.now) file
        shelf.old shelf.new) }
    ensures touched { OnErr result (OnlyTouches S.makes place.now file shelf.old shelf.new) }
    ensures fault { IfErr result (λ stop. IsDeviceStop stop ⊎ IsMemoryStop stop) }
{
    take_mode(shelf, &file, place, is_file)?;
    write_contents(shelf, alloc, &mut file, contents)?;
    shelf.sync(&file)?;
    Ok(())
}

/// Gives a file the mode of the one that lies at a place, where one does.
fn take_mode<S: FileSystem>(
    shelf: &mut S,
    file: &S::Draft,
    place: &str,
    is_file: bool,
) -> Result<(), Fault>
    ensures taken { OnOk result
        (TakesMode S.makes place.now is_file file.now shelf.old shelf.new) }
    ensures touched { OnErr result (OnlyTouches S.makes place.now file.now shelf.old shelf.new) }
{
    if !is_file {
        return Ok(());
    }
    let mode = shelf.mode_of(place)?;
    shelf.set_mode(file, mode)
}
