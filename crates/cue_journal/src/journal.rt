ghost use Rattle.std.specs.Prelude.{◌≡◌, ◌≢◌, ◌⊎◌, ◌+◌, ◌<◌, ◌≤◌, ◌^◌, ◌++◌, [], ◌∷◌, ℕ, List};
ghost use Rattle.std.specs.Prelude.{length, map, true, false, IsTrue, IfOk, IfErr, OnOk, OnErr};
ghost use Rattle.sqlite_disk.specs.Disk.{Only};
ghost use Rattle.cue_journal.specs.Blocks.{recovered_pieces};
ghost use Rattle.cue_journal.specs.Frames.{file_head, file_entries, IsSound};
ghost use Rattle.cue_journal.specs.Settled.{IsJournalSettled, IsBatch, IsBeforeOrAfter, IsKeptOrCleared, LeavesSound};
ghost use Rattle.cue_journal.specs.Settled.{EndsAt, IsStaged};
ghost use Rattle.cue_journal.specs.Batches.{batch_bytes};
ghost use Rattle.cue_journal.specs.Damage.{IsDamage};

use crate::blocks::Batch;
use crate::frames::{HEAD, OPEN, Unread, read_file};
use sqlite_disk::Disk;
use std::alloc::Global;
use std::io;
use std::io::ErrorKind;

/// What a new file has: the head, and a closed gate.
const FIRST: &[u8] = b"cuestore journal 2\n\0";

/// No file of a journal is longer.
const MOST: usize = 1 << 40;

/// A file grows by so many bytes at least.
const STEP: usize = 256 * 1024;

/// A gate, the length and the checksum of a batch.
pub(crate) const FRAME: usize = 17;

/// A file of blocks, of which those that count are on the disk.
#[derive(Drop)]
pub struct Journal<D: Disk> {
    disk: D,
    end: usize,
    open: bool,
    /// So many bytes the file has behind the gate: a commit of as many wants no room.
    room: usize,
}

/// Writes blocks behind the closed gate, and has them reach the disk. Till then, and after, they
/// don't count.
fn stage<D: Disk>(disk: &mut D, end: usize, bytes: &[u8]) -> io::Result<()>
    requires usable { IsTrue (D.is_usable disk.old) }
    requires end { end ≤ MOST }
    requires some { 0 < length bytes.now }
    ensures crash { (s : IsJournalSettled (D.seen disk.old) (D.may_leave disk.old) end) → (c : List ℕ)
        → D.may_leave disk.new c → file_entries c ≡ file_entries (D.seen disk.old) }
    ensures sound { IsJournalSettled (D.seen disk.old) (D.may_leave disk.old) end → LeavesSound (D.may_leave disk.new) }
    ensures ok { OnOk result ((s : IsJournalSettled (D.seen disk.old) (D.may_leave disk.old) end)
        → IsStaged (D.seen disk.new) (D.may_leave disk.new) end (file_head ++ s.ends.frames) bytes.now) }
    ensures usable { OnOk result (IsTrue (D.is_usable disk.new)) }
{
    disk.write_at(end + 1, bytes)?;
    disk.sync()?;
    Ok(())
}

/// Whether a disk had room for what was written behind a gate.
#[derive(Clone, Copy, Debug)]
pub enum Room {
    Enough,
    /// The write failed, with this error, and changed nothing that counts.
    Refused(io::Error),
}

/// Writes bytes behind the closed gate, where they don't count, and has the disk keep whatever came
/// of it.
///
/// # Errors
///
/// Those of the sync.
fn fill<D: Disk>(disk: &mut D, end: usize, bytes: &[u8]) -> io::Result<Room>
    requires usable { IsTrue (D.is_usable disk.old) }
    requires end { end ≤ MOST }
    ensures crash { (s : IsJournalSettled (D.seen disk.old) (D.may_leave disk.old) end) → (c : List ℕ)
        → D.may_leave disk.new c → file_entries c ≡ file_entries (D.seen disk.old) }
    ensures sound { IsJournalSettled (D.seen disk.old) (D.may_leave disk.old) end → LeavesSound (D.may_leave disk.new) }
    ensures ok { OnOk result (IsJournalSettled (D.seen disk.old) (D.may_leave disk.old) end
        → IsJournalSettled (D.seen disk.new) (D.may_leave disk.new) end
        × (file_entries (D.seen disk.new) ≡ file_entries (D.seen disk.old))) }
{
    match disk.write_at(end + 1, bytes) {
        Ok(()) => {
            disk.sync()?;
            Ok(Room::Enough)
        }
        Err(error) => {
            // What was written of it takes room that others may need.
            let _cut = disk.set_len(end + 1);
            disk.sync()?;
            Ok(Room::Refused(error))
        }
    }
}

/// Writes bytes behind the closed gate, where they don't count, so that the file has them. Where the disk
/// refuses that, the file keeps so many bytes behind the gate as it had.
fn extend<D: Disk>(disk: &mut D, end: usize, had: usize, ahead: &[u8]) -> Room
    requires usable { IsTrue (D.is_usable disk.old) }
    requires end { end ≤ MOST }
    requires had { had ≤ MOST }
    ensures same { IsJournalSettled (D.seen disk.old) (D.may_leave disk.old) end
        → IsJournalSettled (D.seen disk.new) (D.may_leave disk.new) end
        × (file_entries (D.seen disk.new) ≡ file_entries (D.seen disk.old)) }
    ensures usable { IsTrue (D.is_usable disk.new) }
{
    match disk.write_at(end + 1, ahead) {
        Ok(()) => Room::Enough,
        Err(error) => {
            let _cut = disk.set_len(end + 1 + had);
            Room::Refused(error)
        }
    }
}

/// Opens the gate, and has it reach the disk: from then on the blocks behind it count.
fn open_gate<D: Disk>(disk: &mut D, end: usize) -> io::Result<()>
    requires usable { IsTrue (D.is_usable disk.old) }
    ensures crash { (front bytes : List ℕ) → (s : IsStaged (D.seen disk.old) (D.may_leave disk.old) end front bytes)
        → (c : List ℕ) → D.may_leave disk.new c → (gate : ℕ) × (c ≡ front ++ gate ∷ (bytes ++ s.junk)) }
    ensures ok { OnOk result ((front bytes : List ℕ)
        → (s : IsStaged (D.seen disk.old) (D.may_leave disk.old) end front bytes)
        → (D.seen disk.new ≡ front ++ 255 ∷ (bytes ++ s.junk)) × Only (D.seen disk.new) (D.may_leave disk.new)) }
{
    disk.write_at(end, &[OPEN])?;
    disk.sync()?;
    Ok(())
}

/// Closes the gate of the first block, and has it reach the disk: from then on no block counts.
fn close_first<D: Disk>(disk: &mut D) -> io::Result<()>
    requires usable { IsTrue (D.is_usable disk.old) }
    ensures crash { (end : ℕ) → IsJournalSettled (D.seen disk.old) (D.may_leave disk.old) end → 19 < end
        → (c : List ℕ) → D.may_leave disk.new c → IsKeptOrCleared (file_entries (D.seen disk.old)) c }
    ensures sound { (end : ℕ) → IsJournalSettled (D.seen disk.old) (D.may_leave disk.old) end → 19 < end
        → LeavesSound (D.may_leave disk.new) }
    ensures ok { OnOk result ((end : ℕ)
        → IsJournalSettled (D.seen disk.old) (D.may_leave disk.old) end → 19 < end
        → IsJournalSettled (D.seen disk.new) (D.may_leave disk.new) 19
        × (file_entries (D.seen disk.new) ≡ [])) }
{
    disk.write_at(HEAD.len(), &[0])?;
    disk.sync()?;
    Ok(())
}

impl<D: Disk> Journal<D> {
    ghost use Rattle.cue_journal.specs.Journals.{disk_of, end_of, room_of, is_journal_open, IsEnough, IsJournalReady};

    /// Adds the pieces of a batch, all of them or none. At `Ok` they are acknowledged: from then on
    /// each crash leaves a file that has them. At `Err` the journal is to be opened again. The
    /// batch is empty afterwards.
    pub fn commit(&mut self, batch: &mut Batch) -> io::Result<()>
        ensures acknowledged { OnOk result (IsJournalReady D.Disk.seen D.Disk.may_leave self.old → IsBatch (batch_bytes batch.old)
            → IsJournalReady D.Disk.seen D.Disk.may_leave self.new
            × (file_entries (D.Disk.seen (disk_of self.new)) ≡ file_entries (D.Disk.seen (disk_of self.old)) ++ recovered_pieces (batch_bytes batch.old))) }

        // A crash at this moment leaves the pieces from before, with those of the batch or without.
        ensures crash { IsJournalReady D.Disk.seen D.Disk.may_leave self.old → IsBatch (batch_bytes batch.old)
            → (c : List ℕ) → D.Disk.may_leave (disk_of self.new) c
            → IsBeforeOrAfter (file_entries (D.Disk.seen (disk_of self.old))) (recovered_pieces (batch_bytes batch.old)) c }
        ensures sound { IsJournalReady D.Disk.seen D.Disk.may_leave self.old → LeavesSound (D.Disk.may_leave (disk_of self.new)) }
        ensures open { OnOk result ((is_journal_open self.old ≡ true) × (is_journal_open self.new ≡ true)) }
        ensures closed { OnErr result (is_journal_open self.new ≡ false) }
        ensures empty { batch_bytes batch.new ≡ [] }
    {
        let done = self.write(batch);
        batch.clear();
        done
    }

    /// Has no entry count any longer.
    ///
    /// # Errors
    ///
    /// The journal is to be opened again.
    pub fn clear(&mut self) -> io::Result<()>
        ensures cleared { OnOk result (IsJournalReady D.Disk.seen D.Disk.may_leave self.old
            → IsJournalReady D.Disk.seen D.Disk.may_leave self.new
            × (file_entries (D.Disk.seen (disk_of self.new)) ≡ [])) }

        // A crash at this moment leaves the entries as they were, or none.
        ensures crash { IsJournalReady D.Disk.seen D.Disk.may_leave self.old
            → (c : List ℕ) → D.Disk.may_leave (disk_of self.new) c
            → IsKeptOrCleared (file_entries (D.Disk.seen (disk_of self.old))) c }
        ensures sound { IsJournalReady D.Disk.seen D.Disk.may_leave self.old → LeavesSound (D.Disk.may_leave (disk_of self.new)) }
        ensures open { OnOk result ((is_journal_open self.old ≡ true) × (is_journal_open self.new ≡ true)) }
        ensures closed { OnErr result (is_journal_open self.new ≡ false) }
    {
        let was_open = self.open;
        self.open = false;
        if !was_open || !self.disk.may_be_used() {
            return Err(ErrorKind::Other.into());
        }
        if self.end <= HEAD.len() {
            self.open = true;
            return Ok(());
        }
        close_first(&mut self.disk)?;
        self.room = self.room.saturating_add(self.end - HEAD.len());
        self.end = HEAD.len();
        self.open = true;
        Ok(())
    }

    /// Has the disk allot room for a batch behind the blocks that count, by writing it there, where
    /// it doesn't count. Answers whether there was room.
    ///
    /// # Errors
    ///
    /// The journal is to be opened again.
    pub fn reserve(&mut self, batch: &Batch) -> io::Result<Room>
        ensures same { OnOk result (IsJournalReady D.Disk.seen D.Disk.may_leave self.old
            → IsJournalReady D.Disk.seen D.Disk.may_leave self.new
            × (file_entries (D.Disk.seen (disk_of self.new)) ≡ file_entries (D.Disk.seen (disk_of self.old)))) }

        // A crash at this moment leaves the entries as they were.
        ensures crash { IsJournalReady D.Disk.seen D.Disk.may_leave self.old
            → (c : List ℕ) → D.Disk.may_leave (disk_of self.new) c
            → file_entries c ≡ file_entries (D.Disk.seen (disk_of self.old)) }
        ensures sound { IsJournalReady D.Disk.seen D.Disk.may_leave self.old → LeavesSound (D.Disk.may_leave (disk_of self.new)) }
        ensures open { OnOk result ((is_journal_open self.old ≡ true) × (is_journal_open self.new ≡ true)) }
        ensures closed { OnErr result (is_journal_open self.new ≡ false) }
        ensures len { end_of self.new ≡ end_of self.old }
    {
        let was_open = self.open;
        self.open = false;
        if !was_open || !self.disk.may_be_used() || self.end > MOST {
            return Err(ErrorKind::Other.into());
        }
        self.room = 0;
        let room = fill(&mut self.disk, self.end, &batch.bytes)?;
        self.open = true;
        Ok(room)
    }

    /// Has the file have so many bytes behind what counts, so that a commit of a batch of as many, with
    /// its frame, wants no more room. They don't count, and need not have reached the disk.
    pub fn make_room(&mut self, alloc: Global, wanted: usize) -> Room
        // No entry changes, nor what a crash leaves.
        ensures same { IsJournalReady D.Disk.seen D.Disk.may_leave self.old
            → IsJournalReady D.Disk.seen D.Disk.may_leave self.new
            × (file_entries (D.Disk.seen (disk_of self.new)) ≡ file_entries (D.Disk.seen (disk_of self.old))) }
        ensures open { is_journal_open self.new ≡ is_journal_open self.old }
        ensures len { end_of self.new ≡ end_of self.old }
        ensures room { IsEnough result → wanted ≤ room_of self.new }
    {
        if wanted <= self.room {
            return Room::Enough;
        }
        if !self.disk.may_be_used() || self.end > MOST || self.room > MOST {
            return Room::Refused(ErrorKind::Other.into());
        }
        let zeros = match vec![in alloc; 0; wanted.max(STEP)] {
            Ok(zeros) => zeros,
            Err(error) => return Room::Refused(io::Error::from(error)),
        };
        if let Room::Enough = self.lengthen(&zeros) {
            return Room::Enough;
        }
        self.lengthen(&zeros[..wanted])
    }

    /// Has the file have these bytes behind what counts.
    fn lengthen(&mut self, bytes: &[u8]) -> Room
        requires usable { IsTrue (D.Disk.is_usable (disk_of self.old)) }
        requires end { end_of self.old ≤ MOST }
        requires had { room_of self.old ≤ MOST }
        ensures same { IsJournalReady D.Disk.seen D.Disk.may_leave self.old
            → IsJournalReady D.Disk.seen D.Disk.may_leave self.new
            × (file_entries (D.Disk.seen (disk_of self.new)) ≡ file_entries (D.Disk.seen (disk_of self.old))) }
        ensures open { is_journal_open self.new ≡ is_journal_open self.old }
        ensures len { end_of self.new ≡ end_of self.old }
        ensures enough { IsEnough result → room_of self.new ≡ length bytes.now }
        ensures refused { ¬ IsEnough result → room_of self.new ≡ room_of self.old }
        ensures usable { IsTrue (D.Disk.is_usable (disk_of self.new)) }
    {
        match extend(&mut self.disk, self.end, self.room, bytes) {
            Room::Enough => {
                self.room = bytes.len();
                Room::Enough
            }
            refused => refused,
        }
    }

    /// How many bytes the blocks that count have.
    pub fn len(&self) -> usize
        ensures { result ≡ end_of self.now }
    {
        self.end
    }

    /// Whether no call has failed.
    pub fn is_open(&self) -> bool
        ensures { result ≡ is_journal_open self.now }
    {
        self.open
    }

    fn write(&mut self, batch: &mut Batch) -> io::Result<()>
        ensures acknowledged { OnOk result (IsJournalReady D.Disk.seen D.Disk.may_leave self.old → IsBatch (batch_bytes batch.old)
            → IsJournalReady D.Disk.seen D.Disk.may_leave self.new
            × (file_entries (D.Disk.seen (disk_of self.new)) ≡ file_entries (D.Disk.seen (disk_of self.old)) ++ recovered_pieces (batch_bytes batch.old))) }
        ensures crash { IsJournalReady D.Disk.seen D.Disk.may_leave self.old → IsBatch (batch_bytes batch.old)
            → (c : List ℕ) → D.Disk.may_leave (disk_of self.new) c
            → IsBeforeOrAfter (file_entries (D.Disk.seen (disk_of self.old))) (recovered_pieces (batch_bytes batch.old)) c }
        ensures sound { IsJournalReady D.Disk.seen D.Disk.may_leave self.old → LeavesSound (D.Disk.may_leave (disk_of self.new)) }
        ensures open { OnOk result ((is_journal_open self.old ≡ true) × (is_journal_open self.new ≡ true)) }
        ensures closed { OnErr result (is_journal_open self.new ≡ false) }
    {
        let was_open = self.open;
        self.open = false;
        if !was_open || !self.disk.may_be_used() || self.end > MOST || batch.bytes.len() > MOST {
            return Err(ErrorKind::Other.into());
        }
        if batch.bytes.is_empty() {
            self.open = true;
            return Ok(());
        }
        let size = batch.bytes.len();
        batch.seal()?;
        stage(&mut self.disk, self.end, &batch.bytes)?;
        open_gate(&mut self.disk, self.end)?;
        self.end += size + FRAME;
        self.room = self.room.saturating_sub(size + FRAME);
        self.open = true;
        Ok(())
    }
}

/// All bytes of a file.
pub(crate) fn read_all<D: Disk>(alloc: Global, disk: &mut D) -> io::Result<Vec<u8>>
    requires { IsTrue (D.is_usable disk.old) }
    ensures bytes { IfOk result (λ bytes. IsTrue (D.is_clean disk.new) → bytes.items ≡ D.seen disk.old) }
    ensures seen { D.seen disk.new ≡ D.seen disk.old }
    ensures crash { (c : List ℕ) → D.may_leave disk.new c → D.may_leave disk.old c }
    ensures usable { IsTrue (D.is_usable disk.new) }
{
    let size = disk.len()?;
    let mut bytes = vec![in alloc; 0; size]?;
    disk.read_at(0, &mut bytes)?;
    Ok(bytes)
}

/// Writes the head of a file that never had it whole, and a closed gate behind it, and has them reach
/// the disk.
fn create<D: Disk>(disk: &mut D) -> io::Result<()>
    requires usable { IsTrue (D.is_usable disk.old) }
    requires short { IsTrue (D.is_clean disk.old) → length (D.seen disk.old) ≤ 20 }
    ensures crash { Only (D.seen disk.old) (D.may_leave disk.old) → IsTrue (D.is_clean disk.new)
        → (c : List ℕ) → D.may_leave disk.new c → length c ≤ 20 }
    ensures ok { OnOk result (IsTrue (D.is_clean disk.new)
        → IsJournalSettled (D.seen disk.new) (D.may_leave disk.new) 19
        × (file_entries (D.seen disk.new) ≡ [])) }
    ensures clean { D.is_clean disk.new ≡ D.is_clean disk.old }
{
    disk.write_at(0, FIRST)?;
    disk.sync()?;
    Ok(())
}

/// Reads the entries of a file that a crash may have left, and where a journal goes on in it, and has
/// what was read reach the disk. It may crash too.
///
/// # Errors
///
/// `Damaged` for a file that no crash leaves, and those of the disk. Nothing was written of a file
/// that is damaged.
pub fn recover<D: Disk>(alloc: Global, disk: &mut D) -> Result<(usize, Vec<Vec<u8>>), Unread>
    requires usable { IsTrue (D.is_usable disk.old) }
    ensures entries { IfOk result (λ r. IsTrue (D.is_clean disk.new)
        → (map (λ v. v.items) r.1.items ≡ file_entries (D.seen disk.old))
        × IsJournalSettled (D.seen disk.new) (D.may_leave disk.new) r.0
        × (file_entries (D.seen disk.new) ≡ file_entries (D.seen disk.old))) }

    // A damaged file is refused, and no other is refused as damaged.
    ensures sound { OnOk result (IsTrue (D.is_clean disk.new) → IsSound (D.seen disk.old)) }
    ensures damaged { IfErr result (λ why. IsDamage why → IsTrue (D.is_clean disk.new)
        → ¬ IsSound (D.seen disk.old)) }
    ensures same { IfErr result (λ why. IsDamage why → D.seen disk.new ≡ D.seen disk.old) }

    // A crash at this moment leaves the same entries, and no damage where there was none.
    ensures crash { IsTrue (D.is_clean disk.new) → Only (D.seen disk.old) (D.may_leave disk.old)
        → (c : List ℕ) → D.may_leave disk.new c
        → (file_entries c ≡ file_entries (D.seen disk.old)) × (IsSound (D.seen disk.old) → IsSound c) }
{
    let bytes = read_all(alloc, disk)?;
    if bytes.len() <= HEAD.len() + 1 {
        create(disk)?;
        return Ok((HEAD.len(), Vec::new(alloc)));
    }
    let found = read_file(alloc, &bytes)?;
    disk.sync()?;
    Ok(found)
}

impl<D: Disk> Journal<D> {
    ghost use Rattle.cue_journal.specs.Journals.{disk_of, end_of, IsJournalReady};

    /// A journal over a file that was recovered, from where it goes on.
    pub fn new(disk: D, end: usize) -> Journal<D>
        ensures disk { disk_of result ≡ disk }
        ensures end { end_of result ≡ end }
        ensures ready { IsJournalSettled (D.Disk.seen disk) (D.Disk.may_leave disk) end → IsJournalReady D.Disk.seen D.Disk.may_leave result }
    {
        Journal {
            disk,
            end,
            open: true,
            room: 0,
        }
    }

    /// The disk that it is kept on.
    pub fn into_disk(self) -> D
        ensures { result ≡ disk_of self }
    {
        self.disk
    }
}
