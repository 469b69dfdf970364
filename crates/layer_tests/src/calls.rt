//! What the tests of maps share.
use cue_layers::{LayerKind, Layers, LayersRefusal, Memory, Piece, Text};
use std::alloc::Global;

/// The pieces of one text.
pub fn piece(alloc: Global, text: &str) -> Result<Vec<Piece>, Memory> {
    let mut pieces = Vec::new(alloc);
    pieces.push(Piece::Text(Text::from_str(alloc, text)?))?;
    Ok(pieces)
}

/// Puts one text.
pub fn put(
    alloc: Global,
    map: &mut Layers,
    kind: LayerKind,
    name: &str,
    text: &str,
) -> Result<u64, LayersRefusal> {
    let pieces = piece(alloc, text)?;
    map.put(kind, name, pieces.as_slice())
}

/// Whether the view of a map prints as this text.
pub fn prints(alloc: Global, map: &Layers, text: &str) -> Result<bool, LayersRefusal> {
    let view = map.view(alloc, 1000)?;
    let printed = view.print(alloc)?;
    Ok(printed.as_str() == text)
}
