ghost use Rattle.std.specs.Prelude.{◌≡◌};
ghost use Rattle.cue_layers.specs.Refusals.{reason_name_at, number_of_reason, place_of_refusal, index_of};

use cue_lattice::{Memory, Refusal};
use cue_policies::ViewError;
use std::fmt;

/// Why a call on layers was refused. The numbers go on where those of texts and states end.
#[derive(Clone, Copy, Debug, PartialEq, Eq)]
pub enum LayersRefusal {
    /// As for texts and states, with their numbers and places.
    Store(Refusal),
    /// A piece of a put is refused. Pieces are counted from 0.
    InPiece { index: u64, why: Refusal },
    /// The bytes are no layers.
    NotLayers,
    /// No name. The place is the length of the longest beginning with which some name begins.
    BadName(u64),
    /// A policy has a pattern where none may be.
    NotWellFormed,
    /// The name has had the last revision.
    RevisionsUsed,
    /// The view has more rows than its limit.
    ViewTooLarge,
}

impl LayersRefusal {
    /// The number of the reason.
    pub fn number(&self) -> u8
        ensures { result ≡ number_of_reason self.now }
    {
        match self {
            LayersRefusal::Store(why) => why.kind.number(),
            LayersRefusal::InPiece { index: _, why } => why.kind.number(),
            LayersRefusal::NotLayers => 26,
            LayersRefusal::BadName(_) => 27,
            LayersRefusal::NotWellFormed => 28,
            LayersRefusal::RevisionsUsed => 29,
            LayersRefusal::ViewTooLarge => 30,
        }
    }

    /// The name of the reason.
    pub fn name(&self) -> &'static str
        ensures { reason_name_at (number_of_reason self.now) ≡ Some result.now }
    {
        match self {
            LayersRefusal::Store(why) => why.kind.name(),
            LayersRefusal::InPiece { index: _, why } => why.kind.name(),
            LayersRefusal::NotLayers => "NotLayers",
            LayersRefusal::BadName(_) => "BadName",
            LayersRefusal::NotWellFormed => "NotWellFormed",
            LayersRefusal::RevisionsUsed => "RevisionsUsed",
            LayersRefusal::ViewTooLarge => "ViewTooLarge",
        }
    }

    /// The byte of the text or of the name. It is 0 where the refusal is of neither.
    pub fn place(&self) -> u64
        ensures { result ≡ place_of_refusal self.now }
    {
        match self {
            LayersRefusal::Store(why) => why.place,
            LayersRefusal::InPiece { index: _, why } => why.place,
            LayersRefusal::BadName(place) => *place,
            _ => 0,
        }
    }

    /// The piece of a put that is refused, counted from 0.
    pub fn index(&self) -> Option<u64>
        ensures { result ≡ index_of self.now }
    {
        match self {
            LayersRefusal::InPiece { index, why: _ } => Some(*index),
            _ => None,
        }
    }
}

impl From<Refusal> for LayersRefusal {
    ghost use Rattle.cue_layers.specs.declared.refusal.LayersRefusal.TheVariants.{Store};

    ghost from_gives = { λ why refusal. refusal ≡ Store why };

    fn from(why: Refusal) -> LayersRefusal {
        LayersRefusal::Store(why)
    }
}

impl From<Memory> for LayersRefusal {
    ghost use Rattle.cue_layers.specs.Refusals.{out_of_memory};

    ghost from_gives = { λ _ refusal. refusal ≡ out_of_memory };

    fn from(memory: Memory) -> LayersRefusal {
        LayersRefusal::Store(Refusal::from(memory))
    }
}

impl From<ViewError> for LayersRefusal {
    ghost use Rattle.cue_layers.specs.Refusals.{refusal_of};

    ghost from_gives = { λ error refusal. refusal ≡ refusal_of error };

    fn from(error: ViewError) -> LayersRefusal {
        match error {
            ViewError::Memory(memory) => LayersRefusal::from(memory),
            ViewError::TooLarge => LayersRefusal::ViewTooLarge,
        }
    }
}

impl fmt::Display for LayersRefusal {
    fn fmt<W: fmt::Write>(&self, f: &mut fmt::Formatter<W>) -> fmt::Result {
        write!(
            f,
            "refused {} {} at {}",
            self.number(),
            self.name(),
            self.place()
        )?;
        match self.index() {
            Some(index) => write!(f, " in {}", u128::from(index) + 1),
            None => Ok(()),
        }
    }
}
