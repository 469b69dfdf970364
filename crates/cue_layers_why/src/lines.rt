//! The lines that say which layers make what is reported.
use crate::naming::{LayerPart, NamedLayer};
use cue_lattice::Memory;
use cue_places::value_text;
use cue_policies::LayerKind;
use cue_row::{Level, Step, push_steps};
use std::alloc::Global;

/// A line for each layer, `layer NAME`, `policy NAME` or `commons`, and below it one for each of its
/// parts: a tab, the path as the layer wrote it, the mark of its level, `: ` and the value.
///
/// # Errors
///
/// `Memory`.
pub fn why_lines(alloc: Global, named: &[NamedLayer]) -> Result<String, Memory> {
    let mut out = String::new(alloc);
    for layer in named {
        push_layer(alloc, &mut out, layer)?;
    }
    Ok(out)
}

/// Writes the lines of a layer.
fn push_layer(alloc: Global, out: &mut String, layer: &NamedLayer) -> Result<(), Memory> {
    push_name(out, layer.kind, layer.name.as_str())?;
    for part in &layer.parts {
        push_part(alloc, out, part)?;
    }
    Ok(())
}

/// Writes the line of a name.
fn push_name(out: &mut String, kind: LayerKind, name: &str) -> Result<(), Memory> {
    out.push_str(kind_word(kind, name))?;
    out.push_str(name)?;
    out.push('\n')?;
    Ok(())
}

/// What is in front of a name.
fn kind_word(kind: LayerKind, name: &str) -> &'static str {
    match kind {
        LayerKind::Policy => "policy ",
        LayerKind::Layer => { if name.is_empty() { "commons" } else { "layer " } }
    }
}

/// Writes the line of a part.
fn push_part(alloc: Global, out: &mut String, part: &LayerPart) -> Result<(), Memory> {
    out.push('\t')?;
    push_steps(out, part.written.steps())?;
    out.push_str(mark(part))?;
    let value = value_text(alloc, &part.table)?;
    out.push_str(value.as_str())?;
    Ok(())
}

/// The mark of the label at the end of a part's path, and what is behind it. An index has none.
fn mark(part: &LayerPart) -> &'static str {
    if !ends_in_label(part.written.steps()) {
        return ": ";
    }
    match part.table.root().row() {
        None => "?: ",
        Some(row) => mark_text(row.level()),
    }
}

/// Whether the last step of a path is a label.
fn ends_in_label(path: &[Step]) -> bool {
    match path.split_last() {
        None => false,
        Some((step, _front)) => matches!(step, Step::Label(_)),
    }
}

/// How a label of a level is marked.
fn mark_text(level: Level) -> &'static str {
    match level {
        Level::Optional => "?: ",
        Level::Required => "!: ",
        Level::Given => ": ",
    }
}
