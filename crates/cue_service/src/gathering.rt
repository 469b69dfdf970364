ghost use Rattle.std.specs.Prelude.{◌≡◌, [], ◌∷◌, ℕ, List, map, false, IfOk, IfErr, IsTrue, OnOk, OnErr};
ghost use Rattle.std.specs.List.{Contains};
ghost use Rattle.cue_lattice.specs.World.{Piece};
ghost use Rattle.cue_replica.specs.Accepted.{IsAcceptable};
ghost use Rattle.cue_journal.specs.Blocks.{recovered_pieces};
ghost use Rattle.cue_service.specs.Answering.{IsSame, GathersPiece, GathersPieces};
ghost use Rattle.cue_service.specs.Entries.{piece_of_entry, pieces_of};
ghost use Rattle.cue_service.specs.Pulls.{CoversPiece, CoversAll, IsOfListed};
ghost use Rattle.cue_service.specs.Refusals.{IsLeftOut};

use crate::desk::SiteCore;
use crate::entries::{parts_of, submit_piece};
use crate::route::PieceKind;
use cue_journal::entries_in;
use cue_lattice::{Kind, Memory, Refusal};
use cue_replica::Replica;

/// How many bytes an entry has at most that a journal takes.
const LONGEST: usize = u32::MAX as usize;

impl SiteCore {
    /// Takes pieces that another site accepted, in its order, unless they bring nothing, and passes
    /// over what is refused. Answers whether the bytes were those of pieces, and memory sufficed.
    pub(crate) fn gather_pieces(&mut self, bytes: &[u8]) -> bool
        ensures gathers { GathersPieces (pieces_of (recovered_pieces bytes.now)) self.old self.new }
        ensures brings { IsTrue result → IsOfListed self.old
            → CoversAll self.new.board (pieces_of (recovered_pieces bytes.now)) }
    {
        match self.take_pieces(bytes) {
            Ok(taken) => taken,
            Err(why) => {
                self.standing.refuse(why.kind, why.place);
                false
            }
        }
    }

    /// Takes pieces. Answers whether memory sufficed for each, and none was too long.
    ///
    /// # Errors
    ///
    /// `BadRequest` where the bytes are not those of pieces, and `Memory`. Nothing changes.
    fn take_pieces(&mut self, bytes: &[u8]) -> Result<bool, Refusal>
        ensures ok { OnOk result (GathersPieces (pieces_of (recovered_pieces bytes.now)) self.old self.new) }
        ensures brings { IfOk result (λ well. IsTrue well → IsOfListed self.old
            → CoversAll self.new.board (pieces_of (recovered_pieces bytes.now))) }
        ensures err { OnErr result (IsSame self.old self.new) }
    {
        let Some(entries) = entries_in(self.alloc, bytes).map_err(Memory::from)? else {
            return Err(Refusal::at(Kind::BadRequest, 0));
        };
        if self.may_bring(&entries)? {
            return Ok(self.gather_entries(&entries));
        }
        Ok(true)
    }

    /// Takes pieces one after the other. Answers whether memory sufficed for each, and none was too
    /// long.
    fn gather_entries(&mut self, entries: &[Vec<u8>]) -> bool
        ensures gathers { GathersPieces (pieces_of (map (λ entry. entry.items) entries.now)) self.old self.new }
        ensures brings { IsTrue result → IsOfListed self.old
            → CoversAll self.new.board (pieces_of (map (λ entry. entry.items) entries.now)) }
    {
        let mut sufficed = true;
        for entry in entries {
            sufficed &= self.gather_entry(entry);
        }
        sufficed
    }

    /// Takes a piece, unless it is known. Answers whether memory sufficed, and it was not too long.
    fn gather_entry(&mut self, entry: &[u8]) -> bool
        ensures gathers { GathersPiece (piece_of_entry entry.now) self.old self.new }
        ensures brings { IsTrue result → IsOfListed self.old → IsAcceptable (piece_of_entry entry.now)
            → CoversPiece self.new.board (piece_of_entry entry.now) }
    {
        let taken = match self.take_entry(entry) {
            Ok(taken) => taken,
            Err(why) => {
                self.standing.refuse(why.kind, why.place);
                return why.kind != Kind::Memory && entry.len() <= LONGEST;
            }
        };
        if taken {
            self.standing.note_gathered_piece();
        }
        true
    }

    /// Takes a text, unless it is known, and a state, unless it brings nothing.
    fn take_entry(&mut self, entry: &[u8]) -> Result<bool, Refusal>
        ensures ok { OnOk result (GathersPiece (piece_of_entry entry.now) self.old self.new) }
        ensures brings { OnOk result (IsOfListed self.old → IsAcceptable (piece_of_entry entry.now)
            → CoversPiece self.new.board (piece_of_entry entry.now)) }
        ensures left_out { IfErr result (IsLeftOut (piece_of_entry entry.now)) }
        ensures err { OnErr result (IsSame self.old self.new) }
    {
        let (hand, bytes) = parts_of(entry);
        match hand {
            PieceKind::State => self.take_over(bytes),
            PieceKind::Text => {
                if self.contains_entry(entry)? {
                    return Ok(false);
                }
                self.accept(PieceKind::Text, bytes)?;
                Ok(true)
            }
        }
    }

    /// Whether an entry is found among those that were accepted.
    fn contains_entry(&self, entry: &[u8]) -> Result<bool, Memory>
        ensures { IfOk result (λ known. IsTrue known → Contains self.now.pieces.kept entry.now) }
    {
        Ok(self.pieces.contains_entry(entry)?)
    }

    /// Whether these may bring something. As long as all are known that were accepted, each that is
    /// not known may; from then on what they say together is looked at, so that no pieces go round
    /// among sites that have given them up.
    ///
    /// # Errors
    ///
    /// `Memory`.
    fn may_bring(&self, entries: &[Vec<u8>]) -> Result<bool, Refusal>
        ensures { IfOk result (λ may. may ≡ false
            → CoversAll self.now.board (pieces_of (map (λ entry. entry.items) entries.now))) }
    {
        if self.pieces.is_whole() {
            return Ok(true);
        }
        let mut all = self.board.table().copy(self.alloc)?;
        for entry in entries {
            offer(&mut all, entry)?;
        }
        Ok(!all.same(self.board.table()))
    }
}

/// Hands an entry to a site. It is passed over where no site accepts it.
///
/// # Errors
///
/// `Memory`.
fn offer(site: &mut Replica, entry: &[u8]) -> Result<(), Refusal>
    ensures keeps { OnOk result ((piece : Piece) → CoversPiece site.old piece → CoversPiece site.new piece) }
    ensures brings { OnOk result (IsAcceptable (piece_of_entry entry.now)
        → CoversPiece site.new (piece_of_entry entry.now)) }
{
    let (hand, bytes) = parts_of(entry);
    match submit_piece(site, hand, bytes) {
        Ok(()) => Ok(()),
        Err(why) => {
            if why.kind == Kind::Memory {
                return Err(why);
            }
            Ok(())
        }
    }
}
