ghost use Rattle.std.specs.Prelude.{◌≡◌, ◌≤◌, ◌++◌, ℕ, List, [], true, false, IfOk, OnOk, OnErr};
ghost use Rattle.cue_journal.specs.Blocks.{recovered_pieces};
ghost use Rattle.cue_journal.specs.Frames.{file_entries};
ghost use Rattle.cue_journal.specs.Settled.{IsBatch};
ghost use Rattle.cue_journal.specs.Batches.{batch_bytes};

use crate::blocks::Batch;
use crate::journal::{Journal, Room};
use sqlite_disk::Disk;
use std::alloc::Global;
use std::io;
use std::io::ErrorKind;

/// Two journals: one that grows, and a spare one that a snapshot of all entries goes to. The spare
/// one then grows, and the other is the spare one, with no entry.
#[derive(Drop)]
pub struct JournalPair<D: Disk> {
    growing: Journal<D>,
    spare: Journal<D>,
}

impl<D: Disk> JournalPair<D> {
    ghost use Rattle.cue_journal.specs.Journals.{IsJournalReady, disk_of, end_of};
    ghost use Rattle.cue_journal.specs.Pairs.{growing_of, spare_of, is_whole, entries_of_pair};
    ghost use Rattle.cue_journal.specs.Pairs.{IsPairReady, HasSameEntries, MayLeave, IsCommitted, IsCondensed, LeaveSound};
    ghost use Rattle.cue_journal.specs.Journals.{IsEnough, room_of};

    /// Two journals that were recovered.
    pub fn new(growing: Journal<D>, spare: Journal<D>) -> JournalPair<D>
        ensures growing { growing_of result ≡ growing }
        ensures spare { spare_of result ≡ spare }
    {
        JournalPair { growing, spare }
    }

    /// How many bytes the journal that grows has.
    pub fn journal_length(&self) -> usize
        ensures { result ≡ end_of (growing_of self.now) }
    {
        self.growing.len()
    }

    /// Adds the entries of a batch, all of them or none. At `Ok` each crash leaves them from then
    /// on. The batch is empty afterwards.
    ///
    /// # Errors
    ///
    /// From then on each call fails.
    pub fn commit(&mut self, batch: &mut Batch) -> io::Result<()>
        ensures acknowledged { OnOk result (IsPairReady D.Disk.seen D.Disk.may_leave self.old
            → IsBatch (batch_bytes batch.old)
            → IsPairReady D.Disk.seen D.Disk.may_leave self.new
            × (entries_of_pair D.Disk.seen self.new
            ≡ entries_of_pair D.Disk.seen self.old ++ recovered_pieces (batch_bytes batch.old))) }

        // A crash at this moment leaves the entries from before, with those of the batch or
        // without.
        ensures crash { IsPairReady D.Disk.seen D.Disk.may_leave self.old
            → IsBatch (batch_bytes batch.old)
            → (left : List (List ℕ)) → MayLeave D.Disk.may_leave self.new left
            → IsCommitted (entries_of_pair D.Disk.seen self.old) (recovered_pieces (batch_bytes batch.old))
            left }
        ensures sound { IsPairReady D.Disk.seen D.Disk.may_leave self.old → LeaveSound D.Disk.may_leave self.new }
        ensures whole { OnOk result ((is_whole self.old ≡ true) × (is_whole self.new ≡ true)) }
        ensures broken { OnErr result (is_whole self.new ≡ false) }
        ensures empty { batch_bytes batch.new ≡ [] }
    {
        if !self.spare.is_open() {
            batch.clear();
            return Err(ErrorKind::Other.into());
        }
        self.growing.commit(batch)
    }

    /// Has the journal that grows have so many bytes behind what counts, so that a commit of a batch of as
    /// many, with its frame, wants no more room. Answers whether there was room.
    pub fn make_room(&mut self, alloc: Global, wanted: usize) -> Room
        ensures same { HasSameEntries D.Disk.seen D.Disk.may_leave self.old self.new }
        ensures room { IsEnough result → wanted ≤ room_of (growing_of self.new) }
    {
        self.growing.make_room(alloc, wanted)
    }

    /// Puts the entries of a batch, which stand for all there are, in the place of those of the
    /// journal that grows, which then is the spare one. The batch is empty afterwards. Where the disk
    /// refuses room for it all stays as it was.
    ///
    /// # Errors
    ///
    /// From then on each call fails.
    pub fn condense(&mut self, batch: &mut Batch) -> io::Result<Room>
        ensures condensed { IfOk result (λ room. IsEnough room
            → IsPairReady D.Disk.seen D.Disk.may_leave self.old
            → IsBatch (batch_bytes batch.old)
            → IsPairReady D.Disk.seen D.Disk.may_leave self.new
            × (entries_of_pair D.Disk.seen self.new
            ≡ file_entries (D.Disk.seen (disk_of (spare_of self.old)))
            ++ recovered_pieces (batch_bytes batch.old))) }

        // The two change places: the spare one has no entry then.
        ensures changed { IfOk result (λ room. IsEnough room
            → IsPairReady D.Disk.seen D.Disk.may_leave self.old
            → file_entries (D.Disk.seen (disk_of (spare_of self.new))) ≡ []) }
        ensures kept { IfOk result (λ room. ¬ IsEnough room
            → IsPairReady D.Disk.seen D.Disk.may_leave self.old
            → IsPairReady D.Disk.seen D.Disk.may_leave self.new
            × (entries_of_pair D.Disk.seen self.new ≡ entries_of_pair D.Disk.seen self.old)) }

        // A crash at this moment leaves the entries from before, or the batch in the place of those
        // of the journal that grew, or both.
        ensures crash { IsPairReady D.Disk.seen D.Disk.may_leave self.old
            → IsBatch (batch_bytes batch.old)
            → (left : List (List ℕ)) → MayLeave D.Disk.may_leave self.new left
            → IsCondensed (file_entries (D.Disk.seen (disk_of (spare_of self.old))))
            (file_entries (D.Disk.seen (disk_of (growing_of self.old))))
            (recovered_pieces (batch_bytes batch.old)) left }
        ensures sound { IsPairReady D.Disk.seen D.Disk.may_leave self.old → LeaveSound D.Disk.may_leave self.new }
        ensures whole { OnOk result ((is_whole self.old ≡ true) × (is_whole self.new ≡ true)) }
        ensures broken { OnErr result (is_whole self.new ≡ false) }
        ensures empty { batch_bytes batch.new ≡ [] }
    {
        if !self.growing.is_open() {
            batch.clear();
            return Err(ErrorKind::Other.into());
        }
        match self.spare.reserve(batch) {
            Ok(Room::Enough) => {}
            Ok(refused) => {
                batch.clear();
                return Ok(refused);
            }
            Err(error) => {
                batch.clear();
                return Err(error);
            }
        }
        self.spare.commit(batch)?;
        self.growing.clear()?;
        std::mem::swap(&mut self.growing, &mut self.spare);
        Ok(Room::Enough)
    }
}
