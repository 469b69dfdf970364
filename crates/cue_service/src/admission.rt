//! Pieces that are posted: none is accepted with which an answer would have more bytes than the limit.
ghost use Rattle.std.specs.Prelude.{◌≡◌, IfOk, IfErr, IfSome, OnOk, OnErr};
ghost use Rattle.cue_lattice.specs.Question.{SameAnswers};
ghost use Rattle.cue_lattice.specs.World.{piece_refuses};
ghost use Rattle.cue_replica.specs.Accepted.{IsAcceptable};
ghost use Rattle.cue_replica.specs.Language.{language};
ghost use Rattle.cue_service.specs.Answering.{IsPieceTaken, IsSame};
ghost use Rattle.cue_service.specs.Inner.Admissions.{IsAdmitted};
ghost use Rattle.cue_service.specs.Limits.{IsOverLimit};
ghost use Rattle.cue_service.specs.Refusals.{IsLeftOut, IsRefusalOf};
ghost use Rattle.cue_service.specs.Requests.{piece_of_bytes};

use crate::bounds::AnswerBounds;
use crate::desk::{SiteCore, queue};
use crate::entries::submit_piece;
use crate::limits::answer_within;
use crate::route::PieceKind;
use cue_lattice::{Memory, Refusal};
use cue_replica::{Replica, SiteQuestion};
use std::alloc::Global;

/// The questions, that first whose answer is as long as a table has places: where it is within a limit
/// the others take no longer to be counted than that limit lets them.
const QUESTIONS: [SiteQuestion; 4] = [
    SiteQuestion::Print,
    SiteQuestion::State,
    SiteQuestion::Report,
    SiteQuestion::Export,
];

/// What comes of a piece that is posted.
#[derive(Clone, Copy)]
pub(crate) enum Admission {
    /// It is accepted, or known.
    Accepted,
    /// With it the answer to this question would have more bytes than the limit.
    OverLimit(SiteQuestion),
}

/// The table of a piece alone.
///
/// # Errors
///
/// Those of a site.
fn piece_alone(alloc: Global, hand: PieceKind, bytes: &[u8]) -> Result<Replica, Refusal>
    ensures acceptable { OnOk result (IsAcceptable (piece_of_bytes hand bytes.now)) }
    ensures alone { IfOk result (λ site. SameAnswers (language.table_refuses site)
        (piece_refuses language (piece_of_bytes hand bytes.now))) }
    ensures refused { IfErr result (IsRefusalOf (piece_of_bytes hand bytes.now)) }
{
    let mut site = Replica::new(alloc);
    submit_piece(&mut site, hand, bytes)?;
    Ok(site)
}

/// Which answer about a site, with these bounds, has more bytes than a limit.
///
/// # Errors
///
/// `Memory`.
fn find_over_limit(
    alloc: Global,
    site: &Replica,
    bounds: &AnswerBounds,
    limit: usize,
) -> Result<Option<SiteQuestion>, Memory>
    ensures { IfOk result (λ found. IfSome found (λ question. IsOverLimit limit question site.now)) }
{
    if bounds.are_within(limit as u64) {
        return Ok(None);
    }
    for question in QUESTIONS {
        if answer_within(alloc, question, site, limit)?.is_none() {
            return Ok(Some(question));
        }
    }
    Ok(None)
}

impl SiteCore {
    /// Accepts a piece that is posted, which then waits to reach the disk, unless an answer would have
    /// more bytes than the limit.
    ///
    /// # Errors
    ///
    /// Those of the site. Nothing changes.
    pub(crate) fn admit(&mut self, hand: PieceKind, bytes: &[u8]) -> Result<Admission, Refusal>
        ensures ok { IfOk result (λ admission. IsAdmitted IsSame (piece_of_bytes hand bytes.now) admission self.old self.new) }
        ensures left_out { IfErr result (IsLeftOut (piece_of_bytes hand bytes.now)) }
        ensures err { OnErr result (IsSame self.old self.new) }
    {
        let piece = piece_alone(self.alloc, hand, bytes)?;
        let bounds = AnswerBounds::of(&piece);
        let limit = self.rules.limit as u64;
        if self.board.stays_within(&bounds, limit) {
            self.add_alone(hand, bytes, piece, &bounds)?;
            return Ok(Admission::Accepted);
        }
        self.admit_measured(hand, bytes, piece)
    }

    /// Unifies the table with a piece, which then waits to reach the disk.
    ///
    /// # Errors
    ///
    /// Those of the site. Nothing changes.
    fn add_alone(
        &mut self,
        hand: PieceKind,
        bytes: &[u8],
        piece: Replica,
        bounds: &AnswerBounds,
    ) -> Result<(), Refusal>
        requires acceptable { IsAcceptable (piece_of_bytes hand bytes.now) }
        requires alone { SameAnswers (language.table_refuses piece)
            (piece_refuses language (piece_of_bytes hand bytes.now)) }
        ensures ok { OnOk result (IsPieceTaken (piece_of_bytes hand bytes.now) self.old self.new) }
        ensures left_out { IfErr result (IsLeftOut (piece_of_bytes hand bytes.now)) }
        ensures err { OnErr result (IsSame self.old self.new) }
    {
        let waiting = self.batch.len();
        queue(&mut self.batch, &mut self.pieces, hand, bytes)?;
        match self.board.unify(piece, bounds) {
            Ok(()) => {
                self.pieces.trim();
                Ok(())
            }
            Err(error) => {
                self.batch.cut(waiting);
                self.pieces.take_back();
                Err(Refusal::from(error))
            }
        }
    }

    /// Unifies a copy of the table with a piece, and puts it in the place of the table where no answer
    /// has more bytes than the limit.
    ///
    /// # Errors
    ///
    /// Those of the site. Nothing changes.
    fn admit_measured(
        &mut self,
        hand: PieceKind,
        bytes: &[u8],
        piece: Replica,
    ) -> Result<Admission, Refusal>
        requires acceptable { IsAcceptable (piece_of_bytes hand bytes.now) }
        requires alone { SameAnswers (language.table_refuses piece)
            (piece_refuses language (piece_of_bytes hand bytes.now)) }
        ensures ok { IfOk result (λ admission. IsAdmitted IsSame (piece_of_bytes hand bytes.now) admission self.old self.new) }
        ensures left_out { IfErr result (IsLeftOut (piece_of_bytes hand bytes.now)) }
        ensures err { OnErr result (IsSame self.old self.new) }
    {
        let mut next = self.board.table().copy(self.alloc)?;
        next.unify(piece)?;
        let bounds = AnswerBounds::of(&next);
        if let Some(question) = find_over_limit(self.alloc, &next, &bounds, self.rules.limit)? {
            return Ok(Admission::OverLimit(question));
        }
        queue(&mut self.batch, &mut self.pieces, hand, bytes)?;
        self.board.replace_measured(next, bounds);
        self.pieces.trim();
        Ok(Admission::Accepted)
    }
}
