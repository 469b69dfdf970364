ghost use Rattle.std.specs.Prelude.{◌≡◌, length, map, IfOk, IfErr, OnOk};
ghost use Rattle.cue_program.specs.Stops.{IsFileFault};
ghost use Rattle.cue_program.specs.Files.{known_at, texts_of_files, IsWholeFile};
ghost use Rattle.cue_program.specs.Inputs.{IsUnified, files, inputs_of};
ghost use Rattle.cue_program.specs.Runs.{IsAnswerOn, IsMergeOn, IsMergeStopOn, IsStopOn};
ghost use Rattle.cue_program.specs.Stops.{piece_size, IsUnreadable};
ghost use Rattle.cue_program.specs.inner.Reading.{IsAllRead};

use crate::atomic_write::put;
use crate::batch::SiteBatch;
use crate::contents::Contents;
use crate::files::FileSystem;
use crate::input::{new_buffer, read_all};
use crate::input_reader::{Enough, Input, InputReader};
use crate::site::site_of;
use crate::stop::RunError;
use cue_device::Reader;
use cue_replica::{Answer, Replica, SiteQuestion, answer_to, to_printed};
use std::alloc::Global;
use std::io::Read;
use std::mem;

/// What one new site answers that has taken all inputs, as `site_for` says, as it is printed, made
/// whole: `write_out` writes the answer of a site while it is made.
///
/// # Errors
///
/// As `site_for`.
pub fn answer_for<H: AllocGlobal + FileSystem, R: Read>(
    rt: &H,
    question: SiteQuestion,
    files: &[&str],
    input: &mut R,
) -> Result<Answer, RunError>
    ensures answer { IfOk result (IsAnswerOn question
        (inputs_of (H.held rt.now) (texts_of_files files.now) (R.remaining input.old))) }
    ensures stop { IfErr result (IsStopOn
        (inputs_of (H.held rt.now) (texts_of_files files.now) (R.remaining input.old))) }
{
    let site = site_for(rt, files, input)?;
    let told = answer_to(rt.alloc(), question, &site)?;
    Ok(to_printed(question, told)?)
}

/// Puts the state of one new site that has taken all inputs at this name, once the last input was
/// taken. At no moment less than a whole file stands there.
///
/// # Errors
///
/// As `site_for`, and then nothing was written; or `Device` and `Memory` behind the last input, and
/// then what lay under the name, a file or nothing, was not touched.
pub fn merge_into<H: AllocGlobal + FileSystem, R: Read>(
    rt: &mut H,
    name: &str,
    files: &[&str],
    input: &mut R,
) -> Result<(), RunError>
    ensures merges { OnOk result (IsMergeOn H.makes name.now
        (inputs_of (H.held rt.old) (texts_of_files files.now) (R.remaining input.old)) rt.old rt.new) }
    ensures stop { IfErr result (IsMergeStopOn H.makes name.now
        (inputs_of (H.held rt.old) (texts_of_files files.now) (R.remaining input.old)) rt.old rt.new) }
{
    let site = site_for(&*rt, files, input)?;
    let alloc = rt.alloc();
    let done = put(rt, alloc, name, &Contents::State(&site));
    // The process ends after this: nobody needs the memory of the site.
    mem::forget(site);
    done
}

/// One new site that has taken all inputs in their order: the files of these names, each read and
/// handed on before the next is opened; or, without one, what the reader gives.
///
/// # Errors
///
/// `RefusedInput` for the first input that is refused, with its number from 1; `Device`,
/// `TurnsUsed` and `Memory`.
pub fn site_for<H: AllocGlobal + FileSystem, R: Read>(
    rt: &H,
    files: &[&str],
    input: &mut R,
) -> Result<Replica, RunError>
    ensures holds { IfOk result (IsUnified
        (inputs_of (H.held rt.now) (texts_of_files files.now) (R.remaining input.old))) }
    ensures stop { IfErr result (IsStopOn
        (inputs_of (H.held rt.now) (texts_of_files files.now) (R.remaining input.old))) }
{
    if !files.is_empty() {
        return site_of_files(rt, files);
    }
    let input = read_input(rt.alloc(), input)?;
    site_of(rt.alloc(), input)
}

/// What is kept of a reader that is read to its end.
pub fn read_input<R: Read, K: InputReader>(alloc: Global, input: &mut R) -> Result<K, RunError>
    ensures all { IfOk result (λ kept. IsAllRead (K.keeps kept) (R.remaining input.old)) }
    ensures fault { IfErr result (IsUnreadable (R.remaining input.old)) }
{
    let mut piece = new_buffer(alloc)?;
    read_all(alloc, &mut Reader::new(input), &mut piece)
}

/// A new site that has taken these files.
fn site_of_files<H: AllocGlobal + FileSystem>(rt: &H, names: &[&str]) -> Result<Replica, RunError>
    ensures holds { IfOk result (IsUnified (files (map (known_at (H.held rt.now)) (texts_of_files names.now)))) }
    ensures stop { IfErr result (IsStopOn
        (files (map (known_at (H.held rt.now)) (texts_of_files names.now)))) }
{
    let mut gathered = SiteBatch::new(rt.alloc());
    let mut piece = new_buffer(rt.alloc())?;
    let mut number = 0;
    for name in names {
        number += 1;
        let file = read_file(rt, name, &mut piece)?;
        gathered.take_file(file, number)?;
    }
    Ok(gathered.finish()?)
}

/// All bytes of the file of this name.
///
/// # Errors
///
/// `Device`, `TurnsUsed` and `Memory`.
pub fn read_whole<H: AllocGlobal + FileSystem>(rt: &H, name: &str) -> Result<Vec<u8>, RunError>
    ensures whole { IfOk result (λ bytes.
        IsWholeFile (known_at (H.held rt.now) name.now) bytes.items) }
    ensures unread { IfErr result (IsUnreadable (known_at (H.held rt.now) name.now)) }
{
    let mut piece = new_buffer(rt.alloc())?;
    read_file(rt, name, &mut piece)
}

/// What is kept of the file of this name that is read to its end, by reads into this room.
pub fn read_file<H: AllocGlobal + FileSystem, K: InputReader>(
    rt: &H,
    name: &str,
    piece: &mut [u8],
) -> Result<K, RunError>
    requires { length piece.old ≡ piece_size }
    ensures all { IfOk result (λ kept. IsAllRead (K.keeps kept)
        (known_at (H.held rt.now) name.now)) }
    ensures unread { IfErr result (IsUnreadable (known_at (H.held rt.now) name.now)) }
    // A device fault is told where it could not be opened, or a read of it failed; and turns are
    // used only where it was opened, and as many reads were made.
    ensures fault { IfErr result (IsFileFault (H.has_opened rt.now name.now)
        (H.could_not_open rt.now name.now) H.Opened.to_come H.Opened.called H.Opened.failed) }
    ensures room { length piece.new ≡ length piece.old }
{
    let mut file = rt.open(name)?;
    read_all(rt.alloc(), &mut file, piece)
}
