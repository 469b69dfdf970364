ghost use Rattle.std.specs.Prelude.{◌≡◌, ◌∷◌, ◌++◌, [], ℤ, ◌&&◌, IfOk, IfSome};
ghost use Rattle.cue_sets.specs.Kept.{pieces_of_set};
ghost use Rattle.cue_sets.specs.Pieces.{is_member, IsCanonical};

use cue_lattice::Memory;
use std::alloc::Global;
use std::slice;

/// The pieces of a set as they are kept. One piece lies in the value itself, and only several take
/// memory.
#[derive(Debug, Drop)]
pub(crate) enum PieceList {
    /// One piece.
    One((i64, i64)),
    /// A list of pieces. That of none takes no memory.
    Many(Vec<(i64, i64)>),
}

impl PieceList {
    /// One piece. This takes no memory.
    pub(crate) fn one(first: i64, last: i64) -> PieceList
        ensures { pieces_of_set result ≡ (first, last) ∷ [] }
    {
        PieceList::One((first, last))
    }

    /// The numbers that both pieces have. This takes no memory.
    pub(crate) fn intersect(alloc: Global, left: (i64, i64), right: (i64, i64)) -> PieceList
        ensures canonical { IsCanonical (pieces_of_set result) }
        ensures members { (n : ℤ) → is_member (pieces_of_set result) n
            ≡ (is_member (left ∷ []) n && is_member (right ∷ []) n) }
    {
        let (first, last) = (left.0.max(right.0), left.1.min(right.1));
        if last < first {
            return PieceList::none(alloc);
        }
        PieceList::one(first, last)
    }

    /// No piece. This takes no memory.
    pub(crate) fn none(alloc: Global) -> PieceList
        ensures { pieces_of_set result ≡ [] }
    {
        PieceList::Many(Vec::new(alloc))
    }

    /// These pieces. A single one is put into the value. This takes no memory.
    pub(crate) fn of(pieces: Vec<(i64, i64)>) -> PieceList
        ensures { pieces_of_set result ≡ pieces.items }
    {
        match pieces.as_slice() {
            [(first, last)] => PieceList::one(*first, *last),
            _ => PieceList::Many(pieces),
        }
    }

    /// These pieces, and then those of another list.
    pub(crate) fn followed_by(self, alloc: Global, later: PieceList) -> Result<PieceList, Memory>
        ensures { IfOk result (λ all. pieces_of_set all ≡ pieces_of_set self ++ pieces_of_set later) }
    {
        let mut pieces = match self {
            PieceList::Many(pieces) => pieces,
            PieceList::One(piece) => {
                let mut pieces = Vec::with_capacity(alloc, 2)?;
                pieces.push(piece)?;
                pieces
            }
        };
        match later {
            PieceList::One(piece) => pieces.push(piece)?,
            PieceList::Many(mut later) => pieces.append(&mut later)?,
        }
        Ok(PieceList::Many(pieces))
    }

    /// The piece, where there is one and no other.
    pub(crate) fn single_piece(&self) -> Option<(i64, i64)>
        ensures some { IfSome result (λ piece. pieces_of_set self.now ≡ piece ∷ []) }
    {
        match self {
            PieceList::One(piece) => Some(*piece),
            PieceList::Many(_) => None,
        }
    }

    /// The pieces.
    pub(crate) fn as_slice(&self) -> &[(i64, i64)]
        ensures { result.now ≡ pieces_of_set self.now }
    {
        match self {
            PieceList::One(piece) => slice::from_ref(piece),
            PieceList::Many(pieces) => pieces.as_slice(),
        }
    }

    /// The same pieces. One piece takes no memory.
    pub(crate) fn copy(&self, alloc: Global) -> Result<PieceList, Memory>
        ensures { IfOk result (λ copied. pieces_of_set copied ≡ pieces_of_set self.now) }
    {
        match self {
            PieceList::One(piece) => Ok(PieceList::One(*piece)),
            PieceList::Many(pieces) => Ok(PieceList::Many(Vec::from_slice(
                alloc,
                pieces.as_slice(),
            )?)),
        }
    }
}
