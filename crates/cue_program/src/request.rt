ghost use Rattle.std.specs.Prelude.{◌≡◌, ◌⊎◌, Some, IfOk, IfErr, OnOk, map};
ghost use Rattle.cue_wire.specs.Clients.{request_of_client};
ghost use Rattle.cue_wire.specs.Requests.{text};
ghost use Rattle.cue_program.specs.Files.{known_at, texts_of_files};
ghost use Rattle.cue_program.specs.Inputs.{IsTextInput, files, inputs_of, stream};
ghost use Rattle.cue_program.specs.Requests.{AreRequests, IsUnsentOn};
ghost use Rattle.cue_program.specs.Stops.{IsMemoryStop};
ghost use Rattle.cue_program.specs.inner.Sending.{AreTextRequests, IsFileRequest, IsFileUnsent};
ghost use Rattle.cue_program.specs.inner.Sending.{IsNoText, IsPartUnsent};

use crate::files::FileSystem;
use crate::input::new_buffer;
use crate::input_reader::Enough;
use crate::run::{read_file, read_input};
use crate::separator::first_part;
use crate::site::{begins_a_state, text_of};
use crate::stop::RunError;
use cue_wire::Request;
use std::alloc::Global;
use std::io::Read;

/// Requests that hand in all inputs, in their order: the files of these names; or, without one,
/// what the reader gives. All are read and checked before this answers. What a site makes of them
/// is not looked at.
///
/// # Errors
///
/// `RefusedInput` for the first input that is too long for a text, or no UTF-8, with its number
/// from 1; `Device`, `TurnsUsed` and `Memory`.
pub fn requests_for<H: AllocGlobal + FileSystem, R: Read>(
    rt: &H,
    files: &[&str],
    input: &mut R,
) -> Result<Vec<Request>, RunError>
    ensures requests { IfOk result (λ requests. AreRequests
        (inputs_of (H.held rt.now) (texts_of_files files.now) (R.remaining input.old)) requests.items) }
    ensures stop { IfErr result (IsUnsentOn
        (inputs_of (H.held rt.now) (texts_of_files files.now) (R.remaining input.old))) }
{
    if !files.is_empty() {
        return requests_of_files(rt, files);
    }
    let bytes = read_input(rt.alloc(), input)?;
    requests_of(rt.alloc(), bytes)
}

/// A request for each of these files.
fn requests_of_files<H: AllocGlobal + FileSystem>(
    rt: &H,
    names: &[&str],
) -> Result<Vec<Request>, RunError>
    ensures requests { IfOk result (λ requests. AreRequests
        (files (map (known_at (H.held rt.now)) (texts_of_files names.now))) requests.items) }
    ensures stop { IfErr result (IsUnsentOn
        (files (map (known_at (H.held rt.now)) (texts_of_files names.now)))) }
{
    let mut requests = Vec::new(rt.alloc());
    let mut piece = new_buffer(rt.alloc())?;
    for name in names {
        let number = requests.len().saturating_add(1);
        let file: Enough = read_file(rt, name, &mut piece)?;
        let request = request_of_file(rt.alloc(), file.bytes, number)?;
        requests.push(request)?;
    }
    Ok(requests)
}

/// The requests for the inputs in these bytes of a reader.
fn requests_of(alloc: Global, bytes: Vec<u8>) -> Result<Vec<Request>, RunError>
    ensures requests { IfOk result (λ requests.
        AreRequests (stream (Some bytes.items)) requests.items) }
    ensures stop { IfErr result (IsUnsentOn (stream (Some bytes.items))) }
{
    if !begins_a_state(&bytes) {
        return requests_of_texts(alloc, &bytes);
    }
    let mut requests = Vec::new(alloc);
    requests.push(Request::State(bytes))?;
    Ok(requests)
}

/// A request for each part of these bytes, as a text.
fn requests_of_texts(alloc: Global, bytes: &[u8]) -> Result<Vec<Request>, RunError>
    ensures requests { IfOk result (λ requests. AreTextRequests bytes.now requests.items) }
    ensures stop { IfErr result (IsPartUnsent bytes.now) }
{
    let mut requests = Vec::new(alloc);
    let mut rest = Some(bytes);
    while let Some(bytes) = rest {
        let number = requests.len().saturating_add(1);
        let (part, after) = first_part(bytes);
        let request = request_of_text(alloc, part, number)?;
        requests.push(request)?;
        rest = after;
    }
    Ok(requests)
}

/// The request that hands in a file with these bytes, as the input of this number.
fn request_of_file(alloc: Global, bytes: Vec<u8>, number: usize) -> Result<Request, RunError>
    ensures request { IfOk result (IsFileRequest bytes.items) }
    ensures stop { IfErr result (λ stop. IsFileUnsent bytes.items number stop ⊎ IsMemoryStop stop) }
{
    if begins_a_state(&bytes) {
        return Ok(Request::State(bytes));
    }
    request_of_text(alloc, &bytes, number)
}

/// The request that hands in these bytes as a text, as the input of this number.
fn request_of_text(alloc: Global, bytes: &[u8], number: usize) -> Result<Request, RunError>
    ensures request { IfOk result (λ request. request_of_client request ≡ text bytes.now) }
    ensures fits { OnOk result (IsTextInput bytes.now) }
    ensures stop { IfErr result (λ stop. IsNoText bytes.now number stop ⊎ IsMemoryStop stop) }
{
    match text_of(bytes) {
        Ok(text) => Ok(Request::Text(String::from_str(alloc, text)?)),
        Err(why) => Err(RunError::RefusedInput(why, number)),
    }
}
