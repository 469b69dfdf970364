ghost use Rattle.std.specs.Prelude.{◌≡◌, ◌++◌, ◌∷◌, ◌<◌, ◌^◌, [], ℕ, List, length, map, IfOk, IfErr, OnOk, OnErr, IsTrue};
ghost use Rattle.cue_journal.specs.Batches.{batch_bytes};
ghost use Rattle.cue_journal.specs.Pairs.{IsPairReady, HasSameEntries, entries_of_pair};
ghost use Rattle.cue_journal.specs.Blocks.{recovered_pieces};
ghost use Rattle.cue_journal.specs.Settled.{IsBatch};
ghost use Rattle.cue_layers.specs.Extracts.{IsExtract};
ghost use Rattle.cue_layers.specs.Join.{IsOnePut};
ghost use Rattle.cue_layers.specs.Layers.{key};
ghost use Rattle.cue_layers.specs.Refusals.{piece_of_refusal};
ghost use Rattle.cue_layers_site.specs.Entries.{StandForMap};
ghost use Rattle.cue_layers_site.specs.Inner.Changes.{IsChangeOf, IsNameReason};

use crate::entries::LAYERS;
use crate::refusal::ChangeRefusal;
use cue_journal::{Batch, BlockError, JournalPair, Room};
use cue_layers::{LayerKind, Layers, LayersRefusal, Memory, Piece};
use cue_service::Snapshots;
use sqlite_disk::Disk;
use std::alloc::{AllocError, Global};
use std::io;
use std::io::ErrorKind;

/// An entry takes no more bytes in a journal beside its own, with the frame of its round.
const BESIDE: usize = 64;

/// A map of layers, and two journals in which all that is put into it stands once a round has settled.
#[derive(Drop)]
pub struct LayersStore<D: Disk> {
    pub(crate) alloc: Global,
    pub(crate) map: Layers,
    pub(crate) batch: Batch,
    pub(crate) files: JournalPair<D>,
    snapshots: Snapshots,
    /// How often the map changed.
    changes: u64,
    /// Why a round did not settle.
    fault: Option<io::Error>,
}

/// A change of a map: the map that it leaves, and what was joined for it.
#[derive(Drop)]
pub(crate) struct MapChange {
    pub(crate) next: Layers,
    pub(crate) more: Layers,
}

/// Has an entry of layers bytes wait for the disk.
fn queue(batch: &mut Batch, bytes: &[u8]) -> Result<(), ChangeRefusal>
    ensures ok { OnOk result (IsBatch (batch_bytes batch.old) → IsBatch (batch_bytes batch.new)
        × (recovered_pieces (batch_bytes batch.new)
        ≡ recovered_pieces (batch_bytes batch.old) ++ (2 ∷ bytes.now) ∷ [])) }
    ensures refused { IfErr result IsNameReason }
    ensures err { OnErr result (batch_bytes batch.new ≡ batch_bytes batch.old) }
{
    match batch.push(LAYERS, bytes) {
        Ok(()) => Ok(()),
        Err(BlockError::TooLong) => Err(ChangeRefusal::TooLong),
        Err(BlockError::OutOfMemory(error)) => Err(ChangeRefusal::from(Memory::from(error))),
    }
}

/// Whether an error says that a disk has no room, or takes no file of that length.
fn is_want_of_room(error: io::Error) -> bool {
    matches!(
        error.kind(),
        ErrorKind::StorageFull | ErrorKind::QuotaExceeded | ErrorKind::FileTooLarge
    )
}

/// Why a call failed.
fn fault_of<T>(answer: &io::Result<T>) -> Option<io::Error> {
    match answer {
        Ok(_) => None,
        Err(error) => Some(*error),
    }
}

/// Notes what came of a snapshot of so many bytes.
fn note(snapshots: &mut Snapshots, size: usize, condensed: &io::Result<Room>) {
    if let Ok(Room::Enough) = condensed {
        snapshots.note_written(size);
    }
}

impl<D: Disk> LayersStore<D> {
    ghost use Rattle.cue_layers_site.specs.Stores.{IsStoreSame, IsStoreStill, IsAdded, IsKept, SettlesLayers};
    ghost use Rattle.cue_layers_site.specs.Inner.Rounds.{IsCommittedBy, IsCondensedBy};

    /// A store over journals that were recovered, of which the one that grows begins with a snapshot of
    /// so many bytes, with the map of their entries.
    pub fn new(alloc: Global, files: JournalPair<D>, snapshot: usize, map: Layers) -> LayersStore<D>
        ensures kept { IsPairReady D.Disk.seen D.Disk.may_leave files
            → StandForMap (entries_of_pair D.Disk.seen files) map
            → IsKept D.Disk.seen D.Disk.may_leave result map }
        ensures map { result.map ≡ map }
        ensures files { result.files ≡ files }
    {
        LayersStore {
            alloc,
            map,
            batch: Batch::new(alloc),
            files,
            snapshots: Snapshots::new(snapshot),
            changes: 0,
            fault: None,
        }
    }

    /// The map.
    pub fn map(&self) -> &Layers
        ensures { result.now ≡ self.now.map }
    {
        &self.map
    }

    /// How often the map changed.
    pub fn changes(&self) -> u64 {
        self.changes
    }

    /// Makes room for an entry of so many bytes. Answers why the disk has none. Any other failure the
    /// commit will find out.
    fn make_room(&mut self, bytes: usize) -> Option<io::Error>
        ensures { IsStoreSame D.Disk.seen D.Disk.may_leave self.old self.new }
    {
        let wanted = self
            .batch
            .len()
            .saturating_add(bytes)
            .saturating_add(BESIDE);
        match self.files.make_room(self.alloc, wanted) {
            Room::Refused(error) if is_want_of_room(error) => Some(error),
            _ => None,
        }
    }

    /// What a put leaves, as `Layers::put`.
    ///
    /// # Errors
    ///
    /// Those of `Layers::put`.
    pub(crate) fn prepare_put(
        &self,
        kind: LayerKind,
        name: &str,
        pieces: &[Piece],
    ) -> Result<MapChange, LayersRefusal>
        ensures put { IfOk result (λ change. (revision : ℕ) × IsOnePut self.now.map kind name.now
            (map piece_of_refusal pieces.now) change.next revision) }
        ensures change { IfOk result (IsChangeOf self.now.map) }
        ensures extract { IfOk result (λ change. IsExtract change.next (key kind name.now) change.more) }
    {
        let mut next = self.map.copy(self.alloc)?;
        next.put(kind, name, pieces)?;
        match next.extract(self.alloc, kind, name)? {
            Some(more) => Ok(MapChange { next, more }),
            None => Err(LayersRefusal::from(Memory::from(AllocError))),
        }
    }

    /// What the join of another map leaves.
    ///
    /// # Errors
    ///
    /// `Memory`.
    pub(crate) fn prepare_join(&self, more: Layers) -> Result<MapChange, Memory>
        ensures change { IfOk result (IsChangeOf self.now.map) }
        ensures more { IfOk result (λ change. change.more ≡ more) }
    {
        let mut next = self.map.copy(self.alloc)?;
        next.join(more.copy(self.alloc)?)?;
        Ok(MapChange { next, more })
    }

    /// Puts a map that was changed in the place of this one, and has what was joined wait for the disk.
    ///
    /// # Errors
    ///
    /// `TooLong`, `NoRoom`, and want of memory. The map is as it was.
    pub(crate) fn apply(&mut self, change: MapChange) -> Result<(), ChangeRefusal>
        requires { IsChangeOf self.old.map change }
        ensures map { OnOk result (self.new.map ≡ change.next) }
        ensures ok { OnOk result (IsAdded D.Disk.seen D.Disk.may_leave change.more self.old self.new) }
        ensures refused { IfErr result IsNameReason }
        ensures err { OnErr result (IsStoreSame D.Disk.seen D.Disk.may_leave self.old self.new) }
    {
        let MapChange { next, more } = change;
        let bytes = more.write(self.alloc)?;
        if let Some(error) = self.make_room(bytes.len()) {
            return Err(ChangeRefusal::NoRoom(error));
        }
        queue(&mut self.batch, &bytes)?;
        self.map = next;
        self.changes = self.changes.wrapping_add(1);
        Ok(())
    }

    /// Has what waits reach the disk. Answers whether it did.
    fn commit(&mut self) -> bool
        ensures { IsCommittedBy D.Disk.seen D.Disk.may_leave self.old result self.new }
    {
        let LayersStore {
            files,
            batch,
            fault,
            ..
        } = self;
        let done = files.commit(batch);
        *fault = fault_of(&done);
        done.is_ok()
    }

    /// Puts the map in the place of a journal that has become long since the last one: as long as
    /// the last one itself. Where it can't be written the journal stays as it is. Answers whether
    /// nothing failed.
    fn condense(&mut self) -> bool
        ensures { IsCondensedBy D.Disk.seen D.Disk.may_leave self.old result self.new }
    {
        let LayersStore {
            alloc,
            map,
            batch,
            files,
            snapshots,
            changes,
            fault,
        } = self;
        let grown = files.journal_length();
        if !snapshots.is_due(grown, *changes) {
            return true;
        }
        snapshots.refuse(grown, *changes);
        let Ok(bytes) = map.write(*alloc) else {
            return true;
        };
        if batch.push(LAYERS, &bytes).is_err() {
            return true;
        }
        let condensed = files.condense(batch);
        *fault = fault_of(&condensed);
        note(snapshots, bytes.len(), &condensed);
        condensed.is_ok()
    }

    /// Ends a round: has what waits reach the disk. Answers whether it did.
    pub fn settle(&mut self) -> bool
        ensures { SettlesLayers D.Disk.seen D.Disk.may_leave self.old result self.new }
    {
        if !self.commit() {
            return false;
        }
        self.condense()
    }

    /// Why the last round did not settle.
    pub fn take_fault(&mut self) -> Option<io::Error>
        ensures { IsStoreStill self.old self.new }
    {
        self.fault.take()
    }
}
