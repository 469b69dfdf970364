ghost use Rattle.std.specs.Prelude.{◌⊎◌, ◌≡◌, ◌≢◌, List, [], ◌∷◌, map, IfOk, IfErr, OnOk, OnErr};
ghost use Rattle.std.specs.List.{AllByRecursion};
ghost use Rattle.cue_lattice.specs.Refusal.{memory};
ghost use Rattle.cue_lattice.specs.World.{IsUnified, pieces_refuse};
ghost use Rattle.cue_replica.specs.Accepted.{IsAcceptable};
ghost use Rattle.cue_replica.specs.Language.{language};
ghost use Rattle.cue_replica.specs.Replica.{AddsRefusals};
ghost use Rattle.cue_layers.specs.Refusals.{piece_of_refusal, out_of_memory, IsPieceFault, IsPiecesRefusal};

use crate::refusal::LayersRefusal;
use cue_lattice::{Kind, Refusal, Text};
use cue_replica::Replica;
use std::alloc::Global;

/// What a put may be made of.
#[derive(Debug, Drop)]
pub enum Piece {
    /// A text of the language.
    Text(Text),
    /// State bytes.
    State(Vec<u8>),
}

/// Hands a piece to a site.
fn accept(replica: &mut Replica, piece: &Piece) -> Result<(), Refusal>
    ensures acceptable { OnOk result (IsAcceptable (piece_of_refusal piece.now)) }
    ensures ok { OnOk result
        (AddsRefusals replica.old (pieces_refuse language (piece_of_refusal piece.now ∷ [])) replica.new) }
    ensures valid { language.IsValid replica.new }
    ensures refused { IfErr result (λ why.
        IsPieceFault (piece_of_refusal piece.now) why ⊎ (why ≡ memory)) }
{
    match piece {
        Piece::Text(text) => replica.submit(text.as_str()),
        Piece::State(bytes) => replica.take(bytes.as_slice()),
    }
}

/// A site that has accepted just these pieces.
pub fn unify_pieces(alloc: Global, pieces: &[Piece]) -> Result<Replica, LayersRefusal>
    ensures acceptable { OnOk result (AllByRecursion IsAcceptable (map piece_of_refusal pieces.now)) }
    ensures unified { IfOk result (λ content.
        IsUnified language content (map piece_of_refusal pieces.now)) }
    ensures refused { IfErr result (IsPiecesRefusal (map piece_of_refusal pieces.now)) }
{
    let mut content = Replica::new(alloc);
    for (i, piece) in pieces.iter().enumerate() {
        if let Err(why) = accept(&mut content, piece) {
            return Err(piece_refusal(i, why));
        }
    }
    Ok(content)
}

/// The refusal of a piece; out of memory is of none.
fn piece_refusal(index: usize, why: Refusal) -> LayersRefusal
    ensures memory { why ≡ memory → result ≡ out_of_memory }
    ensures other { why ≢ memory → result ≡ LayersRefusal.InPiece index why }
{
    if why == Refusal::at(Kind::Memory, 0) {
        return LayersRefusal::Store(why);
    }
    LayersRefusal::InPiece {
        index: index as u64,
        why,
    }
}
