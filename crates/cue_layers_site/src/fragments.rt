//! The pieces that a body has.
ghost use Rattle.std.specs.Prelude.{IfOk};
ghost use Rattle.cue_layers.specs.Refusals.{piece_of_refusal};
ghost use Rattle.cue_layers_site.specs.Answering.{IsBodyPiece};

use cue_lattice::{Kind, Refusal, Text};
use cue_layers::{LayersRefusal, Memory, Piece};
use std::alloc::Global;
use std::str;

/// The piece that a body is: state bytes, or a text.
///
/// # Errors
///
/// `BadCharacter` where a text is no UTF-8, and want of memory.
pub(crate) fn piece_in(alloc: Global, body: &[u8]) -> Result<Piece, LayersRefusal>
    ensures { IfOk result (λ piece. IsBodyPiece body.now (piece_of_refusal piece)) }
{
    if body.starts_with(b"\xfeCUE") {
        let bytes = Vec::from_slice(alloc, body).map_err(Memory::from)?;
        return Ok(Piece::State(bytes));
    }
    match str::from_utf8(body) {
        Ok(text) => Ok(Piece::Text(Text::from_str(alloc, text)?)),
        Err(error) => Err(LayersRefusal::InPiece {
            index: 0,
            why: Refusal::at(Kind::BadCharacter, error.valid_up_to()),
        }),
    }
}
