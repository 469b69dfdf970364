ghost use Rattle.std.specs.Prelude.{◌≡◌, ℕ, List, [], ◌∷◌, ◌++◌, map, IfErr, OnOk, OnErr};
ghost use Rattle.cue_lattice.specs.World.{Piece, piece_refuses};
ghost use Rattle.cue_replica.specs.Accepted.{IsAcceptable, IsOfPieces};
ghost use Rattle.cue_replica.specs.Language.{language};
ghost use Rattle.cue_replica.specs.Replica.{AddsRefusals};
ghost use Rattle.cue_service.specs.Entries.{piece_of_entry, pieces_of};
ghost use Rattle.cue_service.specs.Refusals.{IsRefusalOf};
ghost use Rattle.cue_service.specs.Requests.{piece_of_bytes};

use crate::route::PieceKind;
use cue_lattice::{Kind, Refusal};
use cue_replica::Replica;
use std::str;

/// Hands the entries of a journal to a site: those that begin with 0 are texts, all others states.
///
/// # Errors
///
/// Those of the site, of which only `Memory` comes where the entries are those of a journal.
pub fn add_entries(board: &mut Replica, entries: &[Vec<u8>]) -> Result<(), Refusal>
    ensures { OnOk result ((pieces : List Piece) → IsOfPieces board.old pieces
        → IsOfPieces board.new (pieces ++ pieces_of (map (λ v. v.items) entries.now))) }
{
    for entry in entries {
        add_entry(board, entry)?;
    }
    Ok(())
}

fn add_entry(board: &mut Replica, entry: &[u8]) -> Result<(), Refusal>
    ensures { OnOk result ((pieces : List Piece) → IsOfPieces board.old pieces
        → IsOfPieces board.new (pieces ++ piece_of_entry entry.now ∷ [])) }
{
    let (hand, bytes) = parts_of(entry);
    submit_piece(board, hand, bytes)
}

/// What an entry hands over: what stands behind its first byte. One without any is an empty text.
pub(crate) fn parts_of(entry: &[u8]) -> (PieceKind, &[u8])
    ensures { piece_of_bytes result.0 result.1.now ≡ piece_of_entry entry.now }
{
    match entry.split_first() {
        Some((first, rest)) => (piece_kind(*first), rest),
        None => (PieceKind::Text, &[]),
    }
}

/// What an entry is that begins with this byte.
fn piece_kind(first: u8) -> PieceKind
    ensures { (rest : List ℕ) → piece_of_bytes result rest ≡ piece_of_entry (first ∷ rest) }
{
    match first {
        0 => PieceKind::Text,
        1..=u8::MAX => PieceKind::State,
    }
}

/// How many bytes the snapshot has with which a journal of these entries begins: a state in its first
/// entry; 0 where there is none.
pub fn snapshot_in(entries: &[Vec<u8>]) -> usize {
    match entries.first() {
        Some(entry) => match parts_of(entry) {
            (PieceKind::State, bytes) => bytes.len(),
            (PieceKind::Text, _) => 0,
        },
        None => 0,
    }
}

/// Hands a piece to a site: bytes that are no text are refused where they begin not to be.
pub(crate) fn submit_piece(site: &mut Replica, hand: PieceKind, bytes: &[u8]) -> Result<(), Refusal>
    ensures acceptable { OnOk result (IsAcceptable (piece_of_bytes hand bytes.now)) }
    ensures adds { OnOk result (AddsRefusals site.old (piece_refuses language (piece_of_bytes hand bytes.now))
        site.new) }
    ensures valid { OnOk result (language.IsValid site.new) }
    ensures refused { IfErr result (IsRefusalOf (piece_of_bytes hand bytes.now)) }
    ensures err { OnErr result (site.new ≡ site.old) }
{
    match hand {
        PieceKind::State => site.take(bytes),
        PieceKind::Text => match str::from_utf8(bytes) {
            Ok(text) => site.submit(text),
            Err(error) => Err(Refusal::at(Kind::BadCharacter, error.valid_up_to())),
        },
    }
}
