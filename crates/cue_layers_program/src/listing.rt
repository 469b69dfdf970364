//! What a map has, and what a layer of it says.
ghost use Rattle.std.specs.Prelude.{◌≡◌, ◌++◌, ℕ, List, IfOk, IfErr, OnOk, map, string_bytes};
ghost use Rattle.cue_program.specs.Files.{known_at, texts_of_files};
ghost use Rattle.cue_layers_program.specs.Answers.{title, kind_word, AreLines, HasRowCount, IsLayerLine, IsLayerList};
ghost use Rattle.cue_layers_program.specs.Answers.{IsContent, IsShownOf, IsShowStop};
ghost use Rattle.cue_layers_program.specs.Joined.{IsJoinStop};

use crate::joining::join_files;
use crate::map_file::check_name;
use crate::stop::LayersStop;
use cue_layers::{Layer, LayerKind};
use cue_program::{FileSystem, Memory, Replica};
use itoa::Buffer;
use std::alloc::Global;

/// How many bytes of a state come before the rows: a mark, the version, and the number of the rows.
const HEAD: usize = 13;

/// A line for each layer of the map of these files, in their order: its kind, its name, its revision,
/// and how many rows its state bytes have. The commons has no name.
///
/// # Errors
///
/// As `joined`.
pub fn list<H: AllocGlobal + FileSystem>(rt: &H, files: &[&str]) -> Result<String, LayersStop>
    ensures list { IfOk result (λ text.
        IsLayerList (map (known_at (H.held rt.now)) (texts_of_files files.now)) (string_bytes text)) }
    ensures stop { IfErr result
        (IsJoinStop (map (known_at (H.held rt.now)) (texts_of_files files.now))) }
{
    let all = join_files(rt, files)?;
    Ok(list_of(rt.alloc(), all.entries())?)
}

/// A line for each layer.
fn list_of(alloc: Global, layers: &[Layer]) -> Result<String, Memory>
    ensures { IfOk result (λ text. AreLines layers.now (string_bytes text)) }
{
    let mut text = String::new(alloc);
    for layer in layers {
        push_line(&mut text, layer)?;
    }
    Ok(text)
}

/// Adds the line of a layer.
fn push_line(text: &mut String, layer: &Layer) -> Result<(), Memory>
    ensures { OnOk result ((line : List ℕ) × IsLayerLine layer.now line
        × (string_bytes text.new ≡ string_bytes text.old ++ line)) }
{
    push_title(text, layer)?;
    text.push_str(" ")?;
    text.push_str(Buffer::new().format(layer.revision))?;
    text.push_str(" ")?;
    text.push_str(Buffer::new().format(rows_of(&layer.content)?))?;
    text.push_str("\n")?;
    Ok(())
}

/// Adds the kind of a layer and its name. That without a name is the commons.
fn push_title(text: &mut String, layer: &Layer) -> Result<(), Memory>
    ensures { OnOk result (string_bytes text.new
        ≡ string_bytes text.old ++ title layer.now.kind layer.now.name) }
{
    let name = layer.name.as_str();
    if name.is_empty() {
        text.push_str("commons")?;
        return Ok(());
    }
    text.push_str(kind_word(layer.kind))?;
    text.push_str(name)?;
    Ok(())
}

/// What stands before the name of a layer of this kind.
fn kind_word(kind: LayerKind) -> &'static str
    ensures { result.now ≡ kind_word kind }
{
    match kind {
        LayerKind::Layer => "layer ",
        LayerKind::Policy => "policy ",
    }
}

/// How many rows the state bytes of a site have. It is told by 8 bytes at their head.
fn rows_of(site: &Replica) -> Result<u64, Memory>
    ensures { IfOk result (HasRowCount site.now) }
{
    let mut head = [0u8; HEAD];
    site.state_writer()?.fill(&mut head)?;
    let [_, _, _, _, _, a, b, c, d, e, f, g, h] = head;
    Ok(u64::from_be_bytes([a, b, c, d, e, f, g, h]))
}

/// What a name says in the map of a file. There is nothing where the name was never put, or was
/// removed.
///
/// # Errors
///
/// `BadName`, of no input; and as `joined`.
pub fn show<H: AllocGlobal + FileSystem>(
    rt: &H,
    kind: LayerKind,
    file: &str,
    name: &str,
) -> Result<Option<Replica>, LayersStop>
    ensures shown { IfOk result
        (IsShownOf (known_at (H.held rt.now) file.now) kind name.now) }
    ensures stop { IfErr result (IsShowStop (known_at (H.held rt.now) file.now) name.now) }
{
    check_name(name)?;
    let all = join_files(rt, &[file])?;
    match all.get(kind, name) {
        Some(layer) => Ok(content_of(rt.alloc(), layer)?),
        None => Ok(None),
    }
}

/// What a layer says, where it says something.
fn content_of(alloc: Global, layer: &Layer) -> Result<Option<Replica>, Memory>
    ensures { IfOk result (IsContent layer.now) }
{
    if layer.content.same(&Replica::new(alloc)) {
        return Ok(None);
    }
    Ok(Some(layer.content.copy(alloc)?))
}
