ghost use Rattle.std.specs.Prelude.{◌≡◌, ℕ, List, IfOk, IfErr, OnOk, OnErr};
ghost use Rattle.cue_lattice.specs.World.{piece_refuses};
ghost use Rattle.cue_replica.specs.Accepted.{IsAcceptable};
ghost use Rattle.cue_replica.specs.Language.{language};
ghost use Rattle.cue_replica.specs.Replica.{AddsRefusals};
ghost use Rattle.cue_service.specs.Refusals.{IsRefusalOf};
ghost use Rattle.cue_service.specs.Requests.{piece_of_bytes};
ghost use Rattle.cue_service.specs.Tags.{tag_of};

use crate::bounds::AnswerBounds;
use crate::counts::TableCounts;
use crate::entries::submit_piece;
use crate::kept::{AnswerCache, CachedAnswer, KeptAnswer};
use crate::limits::answer_within;
use crate::route::PieceKind;
use crate::sizes::AnswerSizes;
use crate::tag::tag_text;
use bytes::Bytes;
use cue_lattice::{Memory, Refusal};
use cue_replica::{Replica, SiteQuestion};
use http::HeaderValue;
use std::alloc::Global;
use std::marker::Model;

/// A table, with its tag and what was told of it since it changed last. Contracts see the table: so
/// what is kept is told of the table that the board holds, and of no other.
#[derive(Drop)]
pub struct CachedTable {
    table: Replica,
    kept: AnswerCache,
    alloc: Global,
    /// Another number for each time that the table was put in or added to.
    changes: u64,
    /// Bounds on the answers, unless they are to be counted anew.
    bounds: Option<AnswerBounds>,
    sizes: AnswerSizes,
    /// What was counted last, and which change it was counted behind.
    counted: Option<(u64, TableCounts)>,
}

impl Model for CachedTable {
    ghost use Rattle.std.specs.Coded.{codes};
    ghost use Rattle.cue_table.specs.Code.{tree_code};
    ghost use Rattle.cue_replica.specs.Language.{Table};

    ghost Value = { Table };

    ghost coded = { tree_code (Prim.hlevel codes) };

    ghost view = { λ board. board.table };

    ghost use Rattle.cue_service.specs.Kept.{AreAnswersKept};

    ghost invariant = { λ board. AreAnswersKept board.table board.kept };
}

impl CachedTable {
    ghost use Rattle.cue_service.specs.Kept.{IsFoundWithin};

    /// A board of this table, of which nothing was told yet.
    pub fn new(alloc: Global, table: Replica) -> CachedTable
        ensures { result ≡ table }
    {
        let kept = AnswerCache::none();
        CachedTable {
            table,
            kept,
            alloc,
            changes: 0,
            bounds: None,
            sizes: AnswerSizes::none(),
            counted: None,
        }
    }

    /// The table.
    pub fn table(&self) -> &Replica
        ensures { result.now ≡ self.now }
    {
        &self.table
    }

    pub(crate) fn alloc(&self) -> Global {
        self.alloc
    }

    /// A number that is another one once the table is another one.
    pub(crate) fn changes(&self) -> u64 {
        self.changes
    }

    /// The answer to a question about the table, where it has no more bytes than a limit. It is made
    /// where it was not asked for since the table changed.
    pub(crate) fn answer_within(
        &mut self,
        question: SiteQuestion,
        limit: usize,
    ) -> Result<Option<KeptAnswer>, Memory>
        ensures found { IfOk result (IsFoundWithin limit question self.old) }
        ensures same { self.new ≡ self.old }
    {
        if let Some(found) = self.kept.find_answer(question) {
            if found.is_over(limit) {
                return Ok(None);
            }
            if let CachedAnswer::Whole(told) = found {
                return Ok(Some(told.share()?));
            }
        }
        self.make_answer(question, limit)
    }

    /// Makes the answer, where it has no more bytes than a limit, and keeps what it came to.
    fn make_answer(
        &mut self,
        question: SiteQuestion,
        limit: usize,
    ) -> Result<Option<KeptAnswer>, Memory>
        ensures found { IfOk result (IsFoundWithin limit question self.old) }
        ensures same { self.new ≡ self.old }
    {
        match answer_within(self.alloc, question, &self.table, limit)? {
            Some(answer) => {
                let told = KeptAnswer::of(answer)?;
                let shared = told.share()?;
                self.sizes.set(question, shared.bytes.len() as u64);
                self.kept.keep(question, CachedAnswer::Whole(told));
                Ok(Some(shared))
            }
            None => {
                self.sizes.set(question, (limit as u64).saturating_add(1));
                self.kept.keep(question, CachedAnswer::LongerThan(limit));
                Ok(None)
            }
        }
    }

    /// The tag of the table.
    pub fn tag(&mut self) -> Result<HeaderValue, Memory>
        ensures tag { IfOk result (λ tag. tag.bytes ≡ tag_of self.old) }
        ensures same { self.new ≡ self.old }
    {
        if let Some(tag) = &self.kept.tag {
            return Ok(tag.clone()?);
        }
        let Some(state) = self.answer_within(SiteQuestion::State, usize::MAX)? else {
            return Err(Memory::too_many(u64::MAX, 1));
        };
        let tag = tag_text(self.alloc, state.bytes.as_slice())?;
        let shared = tag.clone()?;
        self.kept.keep_tag(tag);
        Ok(shared)
    }

    /// How many bytes the answers had that were made last.
    pub(crate) fn sizes(&self) -> &AnswerSizes {
        &self.sizes
    }

    /// What is counted of the table. Where that takes a walk over a table of many places, it is what was
    /// counted last.
    pub(crate) fn counts(&mut self, limit: usize) -> Result<TableCounts, Memory>
        ensures same { self.new ≡ self.old }
    {
        if let Some((changes, counts)) = self.counted {
            if changes == self.changes || !(self.kept.is_full() || self.bounds().are_few()) {
                return Ok(counts);
            }
        }
        let counts = TableCounts::of(self, limit)?;
        self.counted = Some((self.changes, counts));
        Ok(counts)
    }

    /// Whether no answer is longer than a limit once the table is unified with a piece, as far as
    /// bounds tell that need no walk over the table.
    pub(crate) fn stays_within(&mut self, piece: &AnswerBounds, limit: u64) -> bool
        ensures { self.new ≡ self.old }
    {
        let bounds = self.bounds();
        match bounds.with(piece) {
            Some(both) => both.are_within(limit),
            None => false,
        }
    }

    /// Bounds on the answers about the table.
    fn bounds(&mut self) -> AnswerBounds
        ensures { self.new ≡ self.old }
    {
        match self.bounds {
            Some(bounds) => bounds,
            None => {
                let bounds = AnswerBounds::of(&self.table);
                self.bounds = Some(bounds);
                bounds
            }
        }
    }

    /// Unifies the table with a piece, which has these bounds.
    ///
    /// # Errors
    ///
    /// `Memory`. Nothing changes.
    pub(crate) fn unify(&mut self, piece: Replica, bounds: &AnswerBounds) -> Result<(), Memory>
        ensures adds { OnOk result (AddsRefusals self.old (language.table_refuses piece) self.new) }
        ensures valid { OnOk result (language.IsValid self.new) }
        ensures err { OnErr result (self.new ≡ self.old) }
    {
        let both = match &self.bounds {
            Some(own) => own.with(bounds),
            None => None,
        };
        self.table.unify(piece)?;
        let kept = AnswerCache::none();
        self.kept = kept;
        self.changes = self.changes.wrapping_add(1);
        self.bounds = both;
        Ok(())
    }

    /// Accepts a piece.
    ///
    /// # Errors
    ///
    /// Those of the table. Nothing changes.
    pub(crate) fn accept(&mut self, hand: PieceKind, bytes: &[u8]) -> Result<(), Refusal>
        ensures acceptable { OnOk result (IsAcceptable (piece_of_bytes hand bytes.now)) }
        ensures adds { OnOk result (AddsRefusals self.old (piece_refuses language (piece_of_bytes hand bytes.now))
            self.new) }
        ensures valid { OnOk result (language.IsValid self.new) }
        ensures refused { IfErr result (IsRefusalOf (piece_of_bytes hand bytes.now)) }
        ensures err { OnErr result (self.new ≡ self.old) }
    {
        submit_piece(&mut self.table, hand, bytes)?;
        let kept = AnswerCache::none();
        self.kept = kept;
        self.bounds = None;
        self.changes = self.changes.wrapping_add(1);
        Ok(())
    }

    /// Puts another table in the place of this one, which has these bounds.
    pub(crate) fn replace_measured(&mut self, table: Replica, bounds: AnswerBounds)
        ensures { self.new ≡ table }
    {
        self.replace(table);
        self.bounds = Some(bounds);
    }

    /// Puts another table in the place of this one.
    pub(crate) fn replace(&mut self, table: Replica)
        ensures { self.new ≡ table }
    {
        let kept = AnswerCache::none();
        self.table = table;
        self.kept = kept;
        self.bounds = None;
        self.changes = self.changes.wrapping_add(1);
    }
}
