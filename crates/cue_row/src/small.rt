//! Rows that lie in the value itself.
ghost use Rattle.std.specs.Prelude.{◌≡◌, ◌∷◌, [], ◌||◌, false, IfOk, IfSome, IsTrue};
ghost use Rattle.cue_sets.specs.Pieces.{IsCanonical};
ghost use Rattle.cue_sets.specs.Texts.{IsAscending};
ghost use Rattle.cue_row.specs.Seen.{set_of};
ghost use Rattle.cue_row.specs.declared.level.Level.{Level as Levels};
ghost use Rattle.cue_row.specs.Kept.{few_set, integers_set, text_set, small_parts, IsSmallRow};
ghost use Rattle.cue_row.specs.Inner.Kept.{IsMetSmall};
ghost use Rattle.cue_row.specs.Made.{lone_row};

use crate::{LabelSet, Level, RowParts, Scalars};
use cue_lattice::{Memory, Narrow, Text};
use cue_scalars::ScalarSet;
use cue_sets::{IntSet, TextSet};
use std::alloc::Global;
use std::slice;

/// Some of null, false and true, with all texts or none.
#[derive(Clone, Copy, Debug, PartialEq, Eq)]
pub(crate) struct Few {
    pub(crate) null: bool,
    pub(crate) no: bool,
    pub(crate) yes: bool,
    pub(crate) texts: bool,
}

/// What most places say beside their level. It takes no memory but for a long text.
#[derive(Debug, Drop)]
pub(crate) enum Small {
    /// Anything may stand.
    Anything,
    /// A struct alone, with any labels.
    Struct,
    /// These scalars alone, all of them usual.
    Few(Few),
    /// The integers from a first to a last one alone, all of them usual.
    Integers((i64, i64)),
    /// One text alone.
    Text(Text),
}

impl Small {
    /// What a place says where these scalars alone may stand and all are usual, where that is
    /// small.
    #[inline(always)]
    pub(crate) fn of_scalars(alloc: Global, set: &ScalarSet) -> Result<Option<Small>, Memory>
        ensures parts { IfOk result (λ found. IfSome found (λ small. (level : Levels) →
            small_parts level small ≡ lone_row level set.now)) }
        ensures small { IfOk result (λ found. IfSome found IsSmallRow) }
    {
        let (all_but, texts) = set.texts.listed();
        match (set.ints.pieces(), texts) {
            ([], []) => Ok(Some(Small::Few(Few {
                null: set.null,
                no: set.no,
                yes: set.yes,
                texts: all_but,
            }))),
            ([piece], []) if !all_but && !has_plain(set) => Ok(Some(Small::Integers(*piece))),
            ([], [text]) if !all_but && !has_plain(set) => Ok(Some(Small::Text(text.copy(alloc)?))),
            _ => Ok(None),
        }
    }

    /// The unification, where it is small and found without parts.
    pub(crate) fn meet(&self, alloc: Global, other: &Small) -> Result<Option<Small>, Memory>
        requires left { IsSmallRow self.now }
        requires right { IsSmallRow other.now }
        ensures met { IfOk result (λ found. IfSome found (IsMetSmall self.now other.now)) }
        ensures small { IfOk result (λ found. IfSome found IsSmallRow) }
    {
        if self.same(other) {
            return Ok(Some(self.copy(alloc)?));
        }
        if self.is_anything() {
            return Ok(Some(other.copy(alloc)?));
        }
        if other.is_anything() {
            return Ok(Some(self.copy(alloc)?));
        }
        match (self, other) {
            (Small::Few(few), Small::Text(_)) if few.texts => Ok(Some(other.copy(alloc)?)),
            (Small::Text(_), Small::Few(few)) if few.texts => Ok(Some(self.copy(alloc)?)),
            _ => self.meet_scalars(alloc, other),
        }
    }

    /// The unification, where scalars alone may stand at both places.
    fn meet_scalars(&self, alloc: Global, other: &Small) -> Result<Option<Small>, Memory>
        requires left { IsSmallRow self.now }
        requires right { IsSmallRow other.now }
        ensures met { IfOk result (λ found. IfSome found (IsMetSmall self.now other.now)) }
        ensures small { IfOk result (λ found. IfSome found IsSmallRow) }
    {
        let (Some(left), Some(right)) = (self.set(alloc)?, other.set(alloc)?) else {
            return Ok(None);
        };
        let met = Narrow::meet(&left, alloc, &right)?;
        Small::of_scalars(alloc, &met)
    }

    /// The scalars that alone may stand, all of which are usual, where scalars stand.
    fn set(&self, alloc: Global) -> Result<Option<ScalarSet>, Memory>
        requires { IsSmallRow self.now }
        ensures { IfOk result (λ found. IfSome found (λ set. (level : Levels) →
            small_parts level self.now ≡ lone_row level set)) }
    {
        match self {
            Small::Anything | Small::Struct => Ok(None),
            Small::Few(few) => Ok(Some(few.set(alloc))),
            Small::Integers(piece) => Ok(Some(of_piece(alloc, *piece))),
            Small::Text(text) => Ok(Some(of_text(alloc, text)?)),
        }
    }

    /// Whether both are told to be the same at a glance.
    pub(crate) fn same(&self, other: &Small) -> bool
        ensures { IsTrue result → self.now ≡ other.now }
    {
        match (self, other) {
            (Small::Anything, Small::Anything) | (Small::Struct, Small::Struct) => true,
            (Small::Few(left), Small::Few(right)) => *left == *right,
            (Small::Integers(left), Small::Integers(right)) => *left == *right,
            (Small::Text(left), Small::Text(right)) => left.same(right),
            _ => false,
        }
    }

    /// The scalars that may stand, all of which are usual.
    pub(crate) fn scalars(&self) -> Scalars
        requires { IsSmallRow self.now }
        ensures value { (level : Levels) → result ≡ (small_parts level self.now).value }
        ensures usual { (level : Levels) → result ≡ (small_parts level self.now).usual }
    {
        match self {
            Small::Anything => Scalars::all(),
            Small::Struct => Scalars::none(),
            Small::Few(few) => Scalars {
                null: few.null,
                no: few.no,
                yes: few.yes,
                pieces: &[],
                all_but: few.texts,
                texts: &[],
            },
            Small::Integers(piece) => scalars_of(slice::from_ref(piece), &[]),
            Small::Text(text) => scalars_of(&[], slice::from_ref(text)),
        }
    }

    /// The same once more.
    pub(crate) fn copy(&self, alloc: Global) -> Result<Small, Memory>
        ensures { IfOk result (λ copied. copied ≡ self.now) }
    {
        match self {
            Small::Anything => Ok(Small::Anything),
            Small::Struct => Ok(Small::Struct),
            Small::Few(few) => Ok(Small::Few(*few)),
            Small::Integers(piece) => Ok(Small::Integers(*piece)),
            Small::Text(text) => Ok(Small::Text(text.copy(alloc)?)),
        }
    }
}

impl Small {
    /// All that a place of this level says. It takes memory only for a text.
    pub(crate) fn parts(&self, alloc: Global, level: Level) -> Result<RowParts, Memory>
        requires { IsSmallRow self.now }
        ensures { IfOk result (λ parts. parts ≡ small_parts level self.now) }
    {
        match self {
            Small::Anything => Ok(RowParts::of_anything(alloc, level)),
            Small::Struct => {
                let labels = LabelSet::all(alloc);
                Ok(RowParts::of_struct(alloc, level, labels))
            }
            Small::Few(few) => {
                let (value, usual) = (few.set(alloc), few.set(alloc));
                Ok(RowParts::of_scalars(alloc, level, value, usual))
            }
            Small::Integers(piece) => {
                let (value, usual) = (of_piece(alloc, *piece), of_piece(alloc, *piece));
                Ok(RowParts::of_scalars(alloc, level, value, usual))
            }
            Small::Text(text) => {
                let (value, usual) = (of_text(alloc, text)?, of_text(alloc, text)?);
                Ok(RowParts::of_scalars(alloc, level, value, usual))
            }
        }
    }
}

impl Few {
    /// The set of these scalars. This takes no memory.
    fn set(self, alloc: Global) -> ScalarSet
        ensures { result ≡ few_set self }
    {
        ScalarSet {
            null: self.null,
            no: self.no,
            yes: self.yes,
            ints: IntSet::empty(alloc),
            texts: if self.texts {
                TextSet::all(alloc)
            } else {
                TextSet::none(alloc)
            },
        }
    }
}

/// The integers of some pieces, and some texts.
fn scalars_of<'a>(pieces: &'a [(i64, i64)], texts: &'a [Text]) -> Scalars<'a>
    requires pieces { IsCanonical pieces.now }
    requires texts { IsAscending texts.now }
    ensures { result ≡ set_of (false, false, false) pieces.now (false, texts.now) }
{
    Scalars {
        null: false,
        no: false,
        yes: false,
        pieces,
        all_but: false,
        texts,
    }
}

/// Whether null or a truth value is a member.
fn has_plain(set: &ScalarSet) -> bool
    ensures { result ≡ (set.now.null || set.now.no || set.now.yes) }
{
    set.null || set.no || set.yes
}

/// The set of the integers of a piece. This takes no memory.
fn of_piece(alloc: Global, piece: (i64, i64)) -> ScalarSet
    requires { IsCanonical (piece ∷ []) }
    ensures { result ≡ integers_set piece }
{
    ScalarSet {
        null: false,
        no: false,
        yes: false,
        ints: IntSet::between(piece.0, piece.1),
        texts: TextSet::none(alloc),
    }
}

/// The set of one text.
fn of_text(alloc: Global, text: &Text) -> Result<ScalarSet, Memory>
    ensures { IfOk result (λ set. set ≡ text_set text.now) }
{
    Ok(ScalarSet {
        null: false,
        no: false,
        yes: false,
        ints: IntSet::empty(alloc),
        texts: TextSet::one(alloc, text.as_str())?,
    })
}
