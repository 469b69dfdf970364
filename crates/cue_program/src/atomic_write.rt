ghost use Rattle.std.specs.Prelude.{◌⊎◌, OnOk, OnErr, IfErr};
ghost use Rattle.cue_program.specs.Contents.{bytes_of_contents};
ghost use Rattle.cue_program.specs.Calls.{PutsFile, PutsAt, PutsBehind, ReplacesFile, Overwrites};
ghost use Rattle.cue_program.specs.Stopped.{StopsPutting, StopsAtCall, StopsBehind};
ghost use Rattle.cue_program.specs.Stopped.{StopsReplacing, StopsOverwriting};
ghost use Rattle.cue_program.specs.Stops.{IsDeviceStop, IsMemoryStop};

use crate::contents::Contents;
use crate::files::{FileForm, FileSystem};
use crate::state_file::write_contents;
use crate::stop::RunError;
use crate::temp_file::{create_beside, fill_and_move};
use std::alloc::Global;

/// Puts contents at a name, so that at no moment less than a whole file stands
/// there: they go to a new file beside it, reach the disk, and take its place in one step. The new
/// file has the mode of the old one. What a link leads to is replaced, and not the link. Something
/// special, as a device or a pipe, is written in place.
///
/// # Errors
///
/// `Device` and `Memory`. What lay there, a file or nothing, lies there then: only the new file was
/// touched, and was taken away.
pub fn put<S: FileSystem>(
    shelf: &mut S,
    alloc: Global,
    name: &str,
    contents: &Contents<'_>,
) -> Result<(), RunError>
    ensures put { OnOk result (PutsFile S.makes name.now (bytes_of_contents contents.now)
        shelf.old shelf.new) }
    ensures stopped { OnErr result (StopsPutting S.makes name.now shelf.old shelf.new) }
    ensures fault { IfErr result (λ stop. IsDeviceStop stop ⊎ IsMemoryStop stop) }
{
    match shelf.look_at(name)? {
        FileForm::Nothing => replace(shelf, alloc, name, false, contents),
        FileForm::File => replace(shelf, alloc, name, true, contents),
        FileForm::Link => put_behind(shelf, alloc, name, contents),
        FileForm::Special => overwrite(shelf, alloc, name, contents),
    }
}

/// Puts contents behind the link of this name.
fn put_behind<S: FileSystem>(
    shelf: &mut S,
    alloc: Global,
    name: &str,
    contents: &Contents<'_>,
) -> Result<(), RunError>
    ensures put { OnOk result (PutsAt S.makes name.now FileForm.Link (bytes_of_contents contents.now)
        shelf.old shelf.new) }
    ensures stopped { OnErr result (StopsAtCall S.makes name.now FileForm.Link shelf.old shelf.new) }
    ensures fault { IfErr result (λ stop. IsDeviceStop stop ⊎ IsMemoryStop stop) }
{
    match shelf.look_behind(name)? {
        FileForm::File => put_at_end(shelf, alloc, name, contents),
        _ => overwrite(shelf, alloc, name, contents),
    }
}

/// Puts contents in the place of the file that a link leads to.
fn put_at_end<S: FileSystem>(
    shelf: &mut S,
    alloc: Global,
    name: &str,
    contents: &Contents<'_>,
) -> Result<(), RunError>
    ensures put { OnOk result (PutsBehind S.makes name.now FileForm.File (bytes_of_contents contents.now)
        shelf.old shelf.new) }
    ensures stopped { OnErr result (StopsBehind S.makes name.now FileForm.File shelf.old shelf.new) }
    ensures fault { IfErr result (λ stop. IsDeviceStop stop ⊎ IsMemoryStop stop) }
{
    let place = shelf.follow(alloc, name)?;
    replace(shelf, alloc, place.as_str(), true, contents)
}

/// Puts contents at a place where a file lies, or nothing.
fn replace<S: FileSystem>(
    shelf: &mut S,
    alloc: Global,
    place: &str,
    is_file: bool,
    contents: &Contents<'_>,
) -> Result<(), RunError>
    ensures put { OnOk result (ReplacesFile S.makes place.now is_file (bytes_of_contents contents.now)
        shelf.old shelf.new) }
    ensures stopped { OnErr result (StopsReplacing S.makes place.now shelf.old shelf.new) }
    ensures fault { IfErr result (λ stop. IsDeviceStop stop ⊎ IsMemoryStop stop) }
{
    let (draft, file) = create_beside(shelf, alloc, place)?;
    match fill_and_move(shelf, alloc, file, draft.as_str(), place, is_file, contents) {
        Ok(()) => Ok(()),
        Err(stop) => {
            // Where the new file can't be taken away, it stays beside the old one.
            let _ = shelf.remove(draft.as_str());
            Err(stop)
        }
    }
}

/// Writes contents to what stands under a name.
fn overwrite<S: FileSystem>(
    shelf: &mut S,
    alloc: Global,
    name: &str,
    contents: &Contents<'_>,
) -> Result<(), RunError>
    ensures put { OnOk result (Overwrites S.makes name.now (bytes_of_contents contents.now)
        shelf.old shelf.new) }
    ensures stopped { OnErr result (StopsOverwriting S.makes name.now shelf.old shelf.new) }
    ensures fault { IfErr result (λ stop. IsDeviceStop stop ⊎ IsMemoryStop stop) }
{
    let mut file = shelf.open_to_write(name)?;
    write_contents(shelf, alloc, &mut file, contents)
}
