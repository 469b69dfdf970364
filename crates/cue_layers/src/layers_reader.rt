//! Layers bytes read in pieces.
ghost use Rattle.std.specs.Prelude.{◌≡◌, ℕ, List, [], IfOk, IfErr, IfSome, IsErrOf, OnOk};
ghost use Rattle.cue_layers.specs.Bytes.{IsLayersBytes, IsLayersFault};
ghost use Rattle.cue_layers.specs.Pieces.{so_far, IsTakenIn, IsNotTakenIn, HasTakenIn, HasFaultAt};
ghost use Rattle.cue_layers.specs.declared.refusal.LayersRefusal.{LayersRefusal as Refusals};

use crate::layers::Layers;
use crate::refusal::LayersRefusal;
use crate::stage::Stage;
use cue_lattice::{Kind, Refusal};
use std::alloc::Global;
use std::marker::Model;
use std::mem;

/// A reader that is handed layers bytes piece by piece, cut wherever they are cut. It keeps the
/// layers that were read, the rows that were read of the next one, and the bytes of one row that is
/// unfinished, with some of those behind it. Contracts see what it has taken in.
#[derive(Drop)]
pub struct LayersReader {
    alloc: Global,
    stage: Stage,
}

impl Model for LayersReader {
    ghost use Rattle.cue_layers.specs.Pieces.{LayersIntake};

    ghost Value = { LayersIntake };

    ghost use Rattle.cue_layers.specs.Inner.Stages.{intake_of, IsSound};

    ghost view = { λ reader. intake_of reader.stage };

    ghost invariant = { λ reader. IsSound reader.stage };
}

impl LayersReader {
    /// A reader that was handed nothing. This takes no memory.
    pub fn new(alloc: Global) -> LayersReader
        ensures { result ≡ so_far [] }
    {
        LayersReader {
            alloc,
            stage: Stage::Front(0),
        }
    }

    /// Takes in the bytes that come next. `finish` reports a fault that no continuation can mend;
    /// once such a fault is found, the reader drops what it has kept and all further pieces.
    ///
    /// # Errors
    ///
    /// `Memory` where memory ran out, and from then on `Failed`, for good.
    pub fn feed(&mut self, piece: &[u8]) -> Result<(), Kind>
        ensures ok { OnOk result (IsTakenIn self.old piece.now self.new) }
        ensures err { IfErr result (λ kind. IsNotTakenIn self.old kind self.new) }
    {
        let stage = mem::replace(&mut self.stage, Stage::Failed);
        self.stage = stage.more(self.alloc, piece)?;
        Ok(())
    }

    /// A fault that stands already, whatever follows, so that nothing more has to be sent. One in the
    /// state of a layer may be found only where that state ends.
    pub fn fault(&self) -> Option<LayersRefusal>
        ensures { IfSome result (HasFaultAt self.now) }
    {
        match &self.stage {
            Stage::OtherVersion => Some(LayersRefusal::Store(Refusal::at(Kind::Version, 0))),
            Stage::NoLayers => Some(LayersRefusal::NotLayers),
            Stage::Failed => Some(LayersRefusal::Store(Refusal::at(Kind::Failed, 0))),
            _ => None,
        }
    }

    /// The map whose layers bytes were taken in: the one that `Layers::read` answers for all of them,
    /// or the same refusal, however they were cut. This takes no memory.
    ///
    /// # Errors
    ///
    /// `Version` and `NotLayers`, as those of `Layers::read`; and `Failed` where memory ran out
    /// before.
    pub fn finish(self) -> Result<Layers, LayersRefusal>
        ensures ok { (bytes : List ℕ) → HasTakenIn self bytes
            → IfOk result (IsLayersBytes bytes) }
        ensures refused { (bytes : List ℕ) → HasTakenIn self bytes
            → IfErr result (IsLayersFault bytes) }
        ensures fault { (why : Refusals) → HasFaultAt self why → IsErrOf result why }
    {
        let LayersReader { alloc, stage } = self;
        match stage {
            Stage::Whole(layers) => Ok(Layers::of_entries(alloc, layers)),
            Stage::OtherVersion => Err(LayersRefusal::Store(Refusal::at(Kind::Version, 0))),
            Stage::Failed => Err(LayersRefusal::Store(Refusal::at(Kind::Failed, 0))),
            _ => Err(LayersRefusal::NotLayers),
        }
    }
}
