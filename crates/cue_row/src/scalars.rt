ghost use Rattle.std.specs.Prelude.{◌≡◌, ◌↔◌, [], false, IsTrue};
ghost use Rattle.cue_sets.specs.Pieces.{IsCanonical};
ghost use Rattle.cue_sets.specs.Texts.{IsAscending};
ghost use Rattle.cue_row.specs.Kinds.{IsEmptySet, IsFullSet};
ghost use Rattle.cue_row.specs.Made.{empty_set, full_set};

use cue_lattice::{Narrow, Text};
use cue_scalars::ScalarSet;
use cue_sets::are_same;
use std::marker::Model;

/// The piece of all integers of 64 bits.
const ALL_INTEGERS: [(i64, i64); 1] = [(i64::MIN, i64::MAX)];

/// A set of scalars, read where it is kept. Contracts see it as the set.
#[derive(Debug, Drop)]
pub struct Scalars<'a> {
    pub(crate) null: bool,
    pub(crate) no: bool,
    pub(crate) yes: bool,
    pub(crate) pieces: &'a [(i64, i64)],
    pub(crate) all_but: bool,
    pub(crate) texts: &'a [Text],
}

impl<'a> Model for Scalars<'a> {
    ghost use Rattle.cue_scalars.specs.declared.scalar_set.ScalarSet.{ScalarSet};
    ghost use Rattle.cue_scalars.specs.Scalars.{IsScalarSet};
    ghost use Rattle.cue_row.specs.Seen.{set_of};

    ghost Value = { ScalarSet };

    ghost view = { λ seen. set_of (seen.null, seen.no, seen.yes) seen.pieces.now
        (seen.all_but, seen.texts.now) };

    ghost invariant = { λ seen. IsScalarSet (set_of (seen.null, seen.no, seen.yes) seen.pieces.now
        (seen.all_but, seen.texts.now)) };
}

impl<'a> Scalars<'a> {
    /// No scalar.
    pub(crate) fn none() -> Scalars<'a>
        ensures { result ≡ empty_set }
    {
        Scalars {
            null: false,
            no: false,
            yes: false,
            pieces: &[],
            all_but: false,
            texts: &[],
        }
    }

    /// All scalars.
    pub(crate) fn all() -> Scalars<'a>
        ensures { result ≡ full_set }
    {
        Scalars {
            null: true,
            no: true,
            yes: true,
            pieces: &ALL_INTEGERS,
            all_but: true,
            texts: &[],
        }
    }

    /// The scalars of a set.
    pub fn of(set: &'a ScalarSet) -> Scalars<'a>
        ensures { result ≡ set.now }
    {
        set.known();
        let (all_but, texts) = set.texts.listed();
        Scalars {
            null: set.null,
            no: set.no,
            yes: set.yes,
            pieces: set.ints.pieces(),
            all_but,
            texts,
        }
    }

    /// Whether null is a member.
    pub fn null(&self) -> bool
        ensures { result ≡ self.now.null }
    {
        self.null
    }

    /// Whether false is a member.
    pub fn no(&self) -> bool
        ensures { result ≡ self.now.no }
    {
        self.no
    }

    /// Whether true is a member.
    pub fn yes(&self) -> bool
        ensures { result ≡ self.now.yes }
    {
        self.yes
    }

    /// The integers: pieces with a first and a last number, ascending, with at least one number
    /// left out between neighbours.
    pub fn pieces(&self) -> &'a [(i64, i64)]
        ensures list { result.now ≡ self.now.ints }
        ensures canonical { IsCanonical self.now.ints }
    {
        self.pieces
    }

    /// Whether the set has all texts but the listed ones, and the listed texts, strictly ascending
    /// by their bytes.
    pub fn texts(&self) -> (bool, &'a [Text])
        ensures all_but { result.0 ≡ self.now.texts.0 }
        ensures texts { result.1.now ≡ self.now.texts.1 }
        ensures ascending { IsAscending self.now.texts.1 }
    {
        (self.all_but, self.texts)
    }

    /// Whether both are one set.
    pub fn same(&self, other: &Scalars) -> bool
        ensures { IsTrue result ↔ (self.now ≡ other.now) }
    {
        if !self.has_plain_of(other) {
            return false;
        }
        if !self.has_pieces_of(other) {
            return false;
        }
        self.has_texts_of(other)
    }

    /// Whether no scalar is a member.
    pub(crate) fn is_empty(&self) -> bool
        ensures { IsTrue result ↔ IsEmptySet self.now }
    {
        // A field is looked at, so that the proof has the type's invariant.
        let _ = &self.null;
        if !self.lacks_plain() {
            return false;
        }
        if !self.lacks_integers() {
            return false;
        }
        self.lacks_texts()
    }

    /// Whether each scalar is a member.
    pub(crate) fn is_full(&self) -> bool
        ensures { IsTrue result ↔ IsFullSet self.now }
    {
        // A field is looked at, so that the proof has the type's invariant.
        let _ = &self.null;
        self.same(&Scalars::all())
    }

    /// Whether neither null nor a truth value is a member.
    fn lacks_plain(&self) -> bool
        ensures { IsTrue result
            ↔ ((self.now.null ≡ false) × (self.now.no ≡ false) × (self.now.yes ≡ false)) }
    {
        !self.null() && !self.no() && !self.yes()
    }

    /// Whether no integer is a member.
    fn lacks_integers(&self) -> bool
        ensures { IsTrue result ↔ (self.now.ints ≡ []) }
    {
        self.pieces().is_empty()
    }

    /// Whether no text is a member.
    fn lacks_texts(&self) -> bool
        ensures { IsTrue result ↔ (self.now.texts ≡ (false, [])) }
    {
        let (all_but, texts) = self.texts();
        !all_but && texts.is_empty()
    }

    /// Whether both have the same integers.
    fn has_pieces_of(&self, other: &Scalars) -> bool
        ensures { IsTrue result ↔ (self.now.ints ≡ other.now.ints) }
    {
        self.pieces() == other.pieces()
    }

    /// Whether both have the same texts.
    fn has_texts_of(&self, other: &Scalars) -> bool
        ensures { IsTrue result ↔ (self.now.texts ≡ other.now.texts) }
    {
        let (all_but, texts) = self.texts();
        let (other_all_but, other_texts) = other.texts();
        all_but == other_all_but && are_same(texts, other_texts)
    }

    /// Whether null and the truth values are members of both or of none.
    fn has_plain_of(&self, other: &Scalars) -> bool
        ensures { IsTrue result ↔ ((self.now.null ≡ other.now.null)
            × (self.now.no ≡ other.now.no) × (self.now.yes ≡ other.now.yes)) }
    {
        self.null() == other.null() && self.no() == other.no() && self.yes() == other.yes()
    }
}
