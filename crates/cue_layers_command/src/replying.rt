//! What is printed for a command.
ghost use Rattle.std.specs.Prelude.{IfOk, IfErr, List, Option, ℕ, option_map};
ghost use Rattle.cue_program.specs.Files.{texts_of_files};
ghost use Rattle.cue_layers_command.specs.Runs.{layers_run_world, IsFaultTo};
ghost use Rattle.cue_layers_command.specs.Words.{asked_by_arguments, asking, listing, merging, putting};
ghost use Rattle.cue_layers_command.specs.Words.{removing, showing, trying};
ghost use Rattle.cue_layers_command.specs.inner.Replies.{IsReplyTo};

use crate::command::LayersCommand;
use crate::fault::LayersCommandError;
use crate::placing::{place_reply, why_reply};
use crate::reply::{LayersReply, absence_line};
use cue_layers_program::{attempt, list, merge, put, remove, show, view_of};
use cue_policies::LayerKind;
use cue_program::{FileSystem, SiteQuestion};
use std::io::Read;

/// What is printed for a command.
pub fn reply_for<H, R: Read>(
    rt: &mut H,
    command: &LayersCommand,
    input: &mut R,
) -> Result<LayersReply, LayersCommandError>
where
    H: AllocGlobal + FileSystem,
    ensures reply { IfOk result (IsReplyTo (asked_by_arguments command.now)
        (layers_run_world H.held H.makes rt.old rt.new (R.remaining input.old))) }
    ensures fault { IfErr result (IsFaultTo (asked_by_arguments command.now)
        (layers_run_world H.held H.makes rt.old rt.new (R.remaining input.old))) }
{
    match command {
        LayersCommand::Put {
            kind,
            map,
            name,
            files,
            limit,
        } => put_reply(rt, *kind, map, name, files, *limit, input),
        LayersCommand::Remove { kind, map, name } => remove_reply(rt, *kind, map, name),
        LayersCommand::Attempt {
            kind,
            map,
            name,
            files,
            limit,
        } => attempt_reply(rt, *kind, map, name, files, *limit, input),
        LayersCommand::Merge { out, files } => merge_reply(rt, out, files),
        LayersCommand::Ask {
            question,
            place,
            files,
            limit,
        } => ask_reply(&*rt, *question, *place, files, *limit),
        LayersCommand::List { files } => list_reply(&*rt, files),
        LayersCommand::Show { kind, file, name } => show_reply(&*rt, *kind, file, name),
        LayersCommand::Why { path, files } => why_reply(&*rt, path, files),
    }
}

/// Puts a layer, and prints its revision.
fn put_reply<H, R: Read>(
    rt: &mut H,
    kind: LayerKind,
    map: &str,
    name: &str,
    files: &[&str],
    limit: u64,
    input: &mut R,
) -> Result<LayersReply, LayersCommandError>
where
    H: AllocGlobal + FileSystem,
    ensures reply { IfOk result (IsReplyTo
        (putting kind map.now name.now (texts_of_files files.now) limit)
        (layers_run_world H.held H.makes rt.old rt.new (R.remaining input.old))) }
    ensures fault { IfErr result (IsFaultTo
        (putting kind map.now name.now (texts_of_files files.now) limit)
        (layers_run_world H.held H.makes rt.old rt.new (R.remaining input.old))) }
{
    match put(rt, kind, name, map, files, limit, input) {
        Ok(revision) => Ok(LayersReply::Revision(revision)),
        Err(stop) => Err(LayersCommandError::from(stop)),
    }
}

/// Removes a layer, and prints its revision.
fn remove_reply<H>(
    rt: &mut H,
    kind: LayerKind,
    map: &str,
    name: &str,
) -> Result<LayersReply, LayersCommandError>
where
    H: AllocGlobal + FileSystem,
    ensures reply { (known : Option (List ℕ)) → IfOk result (IsReplyTo (removing kind map.now name.now)
        (layers_run_world H.held H.makes rt.old rt.new known)) }
    ensures fault { (known : Option (List ℕ)) → IfErr result (IsFaultTo (removing kind map.now name.now)
        (layers_run_world H.held H.makes rt.old rt.new known)) }
{
    match remove(rt, kind, name, map) {
        Ok(Some(revision)) => Ok(LayersReply::Revision(revision)),
        Ok(None) => Ok(LayersReply::Text(absence_line(rt.alloc(), name)?, 1)),
        Err(stop) => Err(LayersCommandError::from(stop)),
    }
}

/// Tries a put, and prints the lines that it would add.
fn attempt_reply<H, R: Read>(
    rt: &mut H,
    kind: LayerKind,
    map: &str,
    name: &str,
    files: &[&str],
    limit: u64,
    input: &mut R,
) -> Result<LayersReply, LayersCommandError>
where
    H: AllocGlobal + FileSystem,
    ensures reply { IfOk result (IsReplyTo
        (trying kind map.now name.now (texts_of_files files.now) limit)
        (layers_run_world H.held H.makes rt.old rt.new (R.remaining input.old))) }
    ensures fault { IfErr result (IsFaultTo
        (trying kind map.now name.now (texts_of_files files.now) limit)
        (layers_run_world H.held H.makes rt.old rt.new (R.remaining input.old))) }
{
    match attempt(rt, kind, name, map, files, limit, input) {
        Ok(answer) => {
            let status = answer.status.code();
            Ok(LayersReply::Text(answer.bytes, status))
        }
        Err(stop) => Err(LayersCommandError::from(stop)),
    }
}

/// Joins files into one, and prints nothing.
fn merge_reply<H>(rt: &mut H, out: &str, files: &[&str]) -> Result<LayersReply, LayersCommandError>
where
    H: AllocGlobal + FileSystem,
    ensures reply { (known : Option (List ℕ)) → IfOk result (IsReplyTo (merging out.now (texts_of_files files.now))
        (layers_run_world H.held H.makes rt.old rt.new known)) }
    ensures fault { (known : Option (List ℕ)) → IfErr result (IsFaultTo (merging out.now (texts_of_files files.now))
        (layers_run_world H.held H.makes rt.old rt.new known)) }
{
    match merge(rt, out, files) {
        Ok(()) => Ok(LayersReply::Text(Vec::new(rt.alloc()), 0)),
        Err(stop) => Err(LayersCommandError::from(stop)),
    }
}

/// Answers a question about the view of files, or about a place of it.
fn ask_reply<H>(
    rt: &H,
    question: SiteQuestion,
    place: Option<&str>,
    files: &[&str],
    limit: u64,
) -> Result<LayersReply, LayersCommandError>
where
    H: AllocGlobal + FileSystem,
    ensures reply { (known : Option (List ℕ)) → IfOk result (IsReplyTo
        (asking question (option_map (λ p. p.now) place.entry) (texts_of_files files.now) limit)
        (layers_run_world H.held H.makes rt.now rt.now known)) }
    ensures fault { (known : Option (List ℕ)) → IfErr result (IsFaultTo
        (asking question (option_map (λ p. p.now) place.entry) (texts_of_files files.now) limit)
        (layers_run_world H.held H.makes rt.now rt.now known)) }
{
    match place {
        Some(path) => place_reply(rt, question, path, files, limit),
        None => match view_of(rt, files, limit) {
            Ok(view) => Ok(LayersReply::Site(question, view)),
            Err(stop) => Err(LayersCommandError::from(stop)),
        },
    }
}

/// Prints a line for each layer of files.
fn list_reply<H>(rt: &H, files: &[&str]) -> Result<LayersReply, LayersCommandError>
where
    H: AllocGlobal + FileSystem,
    ensures reply { (known : Option (List ℕ)) → IfOk result (IsReplyTo (listing (texts_of_files files.now))
        (layers_run_world H.held H.makes rt.now rt.now known)) }
    ensures fault { (known : Option (List ℕ)) → IfErr result (IsFaultTo (listing (texts_of_files files.now))
        (layers_run_world H.held H.makes rt.now rt.now known)) }
{
    match list(rt, files) {
        Ok(text) => Ok(LayersReply::Text(text.into_bytes(), 0)),
        Err(stop) => Err(LayersCommandError::from(stop)),
    }
}

/// Prints what a name says in a file.
fn show_reply<H>(
    rt: &H,
    kind: LayerKind,
    file: &str,
    name: &str,
) -> Result<LayersReply, LayersCommandError>
where
    H: AllocGlobal + FileSystem,
    ensures reply { (known : Option (List ℕ)) → IfOk result (IsReplyTo (showing kind file.now name.now)
        (layers_run_world H.held H.makes rt.now rt.now known)) }
    ensures fault { (known : Option (List ℕ)) → IfErr result (IsFaultTo (showing kind file.now name.now)
        (layers_run_world H.held H.makes rt.now rt.now known)) }
{
    match show(rt, kind, file, name) {
        Ok(Some(site)) => Ok(LayersReply::Site(SiteQuestion::Print, site)),
        Ok(None) => Ok(LayersReply::Text(absence_line(rt.alloc(), name)?, 1)),
        Err(stop) => Err(LayersCommandError::from(stop)),
    }
}
