//! Files that are joined to one map of layers.
ghost use Rattle.std.specs.Prelude.{◌≡◌, ◌↔◌, ◌++◌, ℕ, List, IsTrue, IfOk, IfErr, OnOk, map};
ghost use Rattle.cue_layers.specs.Bytes.{IsLayersBytes, IsLayersRefusal};
ghost use Rattle.cue_layers.specs.Maps.{IsMapOfPuts, put_of};
ghost use Rattle.cue_layers.specs.Puts.{Put};
ghost use Rattle.cue_layers.specs.declared.Layer.{Layer};
ghost use Rattle.cue_program.specs.Files.{known_at, texts_of_files};
ghost use Rattle.cue_layers_program.specs.Answers.{IsJoinedView, IsViewStop};
ghost use Rattle.cue_layers_program.specs.Joined.{ArePutsOf, BeginsLayers, IsFileRefusal};
ghost use Rattle.cue_layers_program.specs.Joined.{IsJoined, IsJoinStop};
ghost use Rattle.cue_layers_program.specs.Merges.{IsMapMerge, IsMapMergeStop};

use crate::map_file::put_map;
use crate::stop::LayersStop;
use cue_layers::{Layers, LayersRefusal};
use cue_program::{FileSystem, Replica, begins_a_state, read_whole, text_of};
use std::alloc::Global;

/// How all layers bytes begin.
const MARK: [u8; 4] = [0xFE, b'L', b'A', b'Y'];

/// The map of these files, each joined to those before it. A file that begins as layers bytes do is
/// a map; what begins with the byte FE (hexadecimal) is a state, and anything else a text, and both
/// belong to the commons.
///
/// # Errors
///
/// `RefusedInput` for the first file that is refused, with its number from 1; `Device`, and
/// `Refused` where memory ran out or a file takes too many reads.
pub fn join_files<H: AllocGlobal + FileSystem>(rt: &H, files: &[&str]) -> Result<Layers, LayersStop>
    ensures joined { IfOk result
        (IsJoined (map (known_at (H.held rt.now)) (texts_of_files files.now))) }
    ensures stop { IfErr result
        (IsJoinStop (map (known_at (H.held rt.now)) (texts_of_files files.now))) }
{
    let mut all = Layers::new(rt.alloc())?;
    let mut number = 0;
    for name in files {
        number += 1;
        let bytes = read_whole(rt, name)?;
        if let Err(why) = take_bytes(rt.alloc(), &mut all, &bytes) {
            return Err(LayersStop::RefusedInput(why, number));
        }
    }
    Ok(all)
}

/// Joins what the bytes of a file say to a map.
fn take_bytes(alloc: Global, all: &mut Layers, bytes: &[u8]) -> Result<(), LayersRefusal>
    ensures joins { (puts : List Put) → IsMapOfPuts puts all.old → OnOk result ((said : List Put)
        × ArePutsOf bytes.now said × IsMapOfPuts (puts ++ said) all.new) }
    ensures refused { IfErr result (IsFileRefusal bytes.now) }
{
    if begins_layers(bytes) {
        return take_layers(alloc, all, bytes);
    }
    if begins_a_state(bytes) {
        return Ok(all.take(bytes)?);
    }
    Ok(all.submit(text_of(bytes)?)?)
}

/// Joins layers bytes to a map.
fn take_layers(alloc: Global, all: &mut Layers, bytes: &[u8]) -> Result<(), LayersRefusal>
    ensures joins { (puts : List Put) → IsMapOfPuts puts all.old → OnOk result
        ((layers : List Layer) × IsLayersBytes bytes.now layers
        × IsMapOfPuts (puts ++ map put_of layers) all.new) }
    ensures refused { IfErr result (IsLayersRefusal bytes.now) }
{
    let other = Layers::read(alloc, bytes)?;
    Ok(all.join(other)?)
}

/// Whether bytes begin as layers bytes do.
fn begins_layers(bytes: &[u8]) -> bool
    ensures { IsTrue result ↔ BeginsLayers bytes.now }
{
    bytes.starts_with(&MARK)
}

/// The view of the map of these files, as a site that answers questions.
///
/// # Errors
///
/// As `joined`, and then `Refused` where the view has more rows than the limit, or memory ran out.
pub fn view_of<H: AllocGlobal + FileSystem>(
    rt: &H,
    files: &[&str],
    limit: u64,
) -> Result<Replica, LayersStop>
    ensures view { IfOk result
        (IsJoinedView limit (map (known_at (H.held rt.now)) (texts_of_files files.now))) }
    ensures stop { IfErr result
        (IsViewStop limit (map (known_at (H.held rt.now)) (texts_of_files files.now))) }
{
    let all = join_files(rt, files)?;
    Ok(all.view(rt.alloc(), limit)?)
}

/// Puts the layers bytes of the map of these files at a name. At no moment less than a whole file
/// stands there.
///
/// # Errors
///
/// As `joined`, and then nothing was written; or `Device`, and want of memory, behind the last file,
/// and then what lay under the name was not touched.
pub fn merge<H: AllocGlobal + FileSystem>(
    rt: &mut H,
    out: &str,
    files: &[&str],
) -> Result<(), LayersStop>
    ensures merges { OnOk result (IsMapMerge H.makes out.now
        (map (known_at (H.held rt.old)) (texts_of_files files.now)) rt.old rt.new) }
    ensures stop { IfErr result (IsMapMergeStop H.makes out.now
        (map (known_at (H.held rt.old)) (texts_of_files files.now)) rt.old rt.new) }
{
    let all = join_files(&*rt, files)?;
    put_map(rt, out, &all)
}
