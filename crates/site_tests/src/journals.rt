//! Journals over disks in memory, also over one that fails at a call.

use cue_journal::{
    Batch, BlockError, Journal, JournalPair, Room, Unread, inspect, read_file, read_pieces,
    recover, start_pair,
};
use sqlite_disk::{Disk, Fuse, Memory};
use std::alloc::Global;
use std::io;
use std::test::Fail;

/// A batch of one entry.
fn batch_of(alloc: Global, first: u8, rest: &[u8]) -> Result<Batch, BlockError> {
    let mut batch = Batch::new(alloc);
    batch.push(first, rest)?;
    Ok(batch)
}

#[test]
fn a_batch_is_read_back(rt: HostRuntime) -> Result<(), Fail> {
    let mut batch = batch_of(rt.alloc(), 0, b"one")?;
    assert!(rt; !batch.is_empty());
    let length = batch.len();
    batch.push(1, b"two")?;
    batch.cut(length);
    assert_eq!(rt; batch.len(), length);
    let (entries, end) = read_pieces(rt.alloc(), b"\x01\0\0\0\x04\0one\x01\0\0\0\x09cut")?;
    assert_eq!(rt; entries.len(), 1);
    assert_eq!(rt; end, length);
    assert_eq!(rt; entries[0].as_slice(), b"\0one".as_slice());
    batch.clear();
    assert!(rt; batch.is_empty());
    Ok(())
}

/// A new journal over a disk.
pub(crate) fn journal_on<D: Disk + Drop>(alloc: Global, mut disk: D) -> io::Result<Journal<D>> {
    if !disk.may_be_used() {
        return Err(io::ErrorKind::Other.into());
    }
    match recover(alloc, &mut disk) {
        Ok((end, _)) => Ok(Journal::new(disk, end)),
        Err(Unread::System(error)) => Err(error),
        Err(Unread::Damaged(_)) => Err(io::ErrorKind::InvalidData.into()),
    }
}

/// The entries of a file, and where a journal goes on in it. A file without a head is damaged.
fn entries_in(alloc: Global, bytes: &[u8]) -> Result<(usize, Vec<Vec<u8>>), Unread> {
    if bytes.len() <= 20 {
        return Err(Unread::Damaged(0));
    }
    read_file(alloc, bytes)
}

#[test]
fn a_journal_is_recovered(rt: HostRuntime) -> Result<(), Fail> {
    let mut journal = journal_on(rt.alloc(), Memory::new(rt.alloc()))?;
    assert_eq!(rt; journal.len(), 19);
    let mut batch = batch_of(rt.alloc(), 0, b"one")?;
    batch.push(1, b"two")?;
    journal.commit(&mut batch)?;
    assert_eq!(rt; journal.len(), 19 + 17 + 18);
    let disk = journal.into_disk();
    assert_eq!(rt;
        disk.bytes().get(..19),
        Some(b"cuestore journal 2\n".as_slice())
    );
    let (end, entries) = entries_in(rt.alloc(), disk.bytes())?;
    assert_eq!(rt; end, 54);
    assert_eq!(rt; entries.len(), 2);
    let mut journal = journal_on(rt.alloc(), disk)?;
    assert_eq!(rt; journal.len(), 54);
    journal.clear()?;
    assert_eq!(rt; journal.len(), 19);
    assert!(rt; journal.is_open());
    Ok(())
}

/// The bytes of a journal of six entries, one batch each.
fn six(alloc: Global) -> Result<Vec<u8>, Fail> {
    let mut journal = journal_on(alloc, Memory::new(alloc))?;
    for number in 0..6u8 {
        let mut batch = batch_of(alloc, number % 2, &[b'a', b':', b' ', b'0' + number])?;
        journal.commit(&mut batch)?;
    }
    Ok(Vec::from_slice(alloc, journal.into_disk().bytes())?)
}

#[test]
fn each_bit_that_turns_is_reported_or_changes_nothing(rt: HostRuntime) -> Result<(), Fail> {
    let mut bytes = six(rt.alloc())?;
    let (end, entries) = entries_in(rt.alloc(), &bytes)?;
    assert_eq!(rt; entries.len(), 6);
    assert_eq!(rt; end.saturating_add(1), bytes.len());
    let mut reported = 0usize;
    for at in 0..bytes.len() {
        for bit in 0..8u32 {
            turn(&mut bytes, at, bit);
            match entries_in(rt.alloc(), &bytes) {
                Ok((same_end, same)) => {
                    assert_eq!(rt; same_end, end);
                    assert!(rt; same == entries);
                }
                Err(Unread::Damaged(place)) => {
                    assert!(rt; place <= at);
                    reported = reported.saturating_add(1);
                }
                Err(Unread::System(error)) => return Err(error.into()),
            }
            turn(&mut bytes, at, bit);
        }
    }
    // All but the bits of the six gates and of the closed one behind them.
    assert_eq!(rt; reported, bytes.len().saturating_sub(7).saturating_mul(8));
    Ok(())
}

/// A disk with these bytes.
fn disk_of(alloc: Global, bytes: &[u8]) -> io::Result<Memory> {
    let mut disk = Memory::new(alloc);
    if disk.may_be_used() {
        disk.write_at(0, bytes)?;
    }
    Ok(disk)
}

#[test]
fn damage_is_told_with_what_stands_behind_it(rt: HostRuntime) -> Result<(), Fail> {
    let mut bytes = six(rt.alloc())?;
    let mut disk = disk_of(rt.alloc(), &bytes)?;
    if disk.may_be_used() {
        let found = inspect(rt.alloc(), &mut disk)?;
        assert!(rt; found.damage.is_none() && found.behind.is_empty());
        assert_eq!(rt; (found.length, found.entries.len()), (bytes.len(), 6));
    }
    // Each frame has 27 bytes: this bit is in the third entry.
    turn(&mut bytes, 19 + 27 + 27 + 25, 0);
    let mut disk = disk_of(rt.alloc(), &bytes)?;
    if disk.may_be_used() {
        let found = inspect(rt.alloc(), &mut disk)?;
        assert_eq!(rt; found.damage, Some(19 + 27 + 27));
        assert_eq!(rt; (found.entries.len(), found.behind.len()), (2, 3));
    }
    Ok(())
}

#[test]
fn room_changes_no_entry(rt: HostRuntime) -> Result<(), Fail> {
    let one = journal_on(rt.alloc(), Memory::new(rt.alloc()))?;
    let other = journal_on(rt.alloc(), Memory::new(rt.alloc()))?;
    let mut pair = JournalPair::new(one, other);
    assert!(rt; matches!(pair.make_room(rt.alloc(), 1000), Room::Enough));
    assert_eq!(rt; pair.journal_length(), 19);
    pair.commit(&mut batch_of(rt.alloc(), 0, b"one")?)?;
    assert_eq!(rt; pair.journal_length(), 19 + 17 + 9);
    assert!(rt; matches!(pair.make_room(rt.alloc(), 300_000), Room::Enough));
    pair.commit(&mut batch_of(rt.alloc(), 0, b"two")?)?;
    assert_eq!(rt; pair.journal_length(), 19 + 2 * (17 + 9));
    // Over a disk that fails at its next call there is no room, and the journal goes on.
    let mut journal = journal_on(rt.alloc(), Fuse::new(Memory::new(rt.alloc()), 4))?;
    assert!(rt; matches!(journal.make_room(rt.alloc(), 10), Room::Refused(_)));
    assert!(rt; journal.is_open() && journal.len() == 19);
    Ok(())
}

#[test]
fn two_files_are_started(rt: HostRuntime) -> Result<(), Fail> {
    let bytes = six(rt.alloc())?;
    let (one, other) = (disk_of(rt.alloc(), &bytes)?, Memory::new(rt.alloc()));
    if !one.may_be_used() || !other.may_be_used() {
        return Ok(());
    }
    let Ok(started) = start_pair(rt.alloc(), one, other) else {
        return Err(io::Error::from(io::ErrorKind::InvalidData).into());
    };
    assert_eq!(rt; (started.spare.len(), started.growing.len()), (0, 6));
    assert_eq!(rt;
        started.files.journal_length().saturating_add(1),
        bytes.len()
    );
    Ok(())
}

/// Turns a bit of the byte there, if there is one.
fn turn(bytes: &mut [u8], at: usize, bit: u32) {
    if let Some(byte) = bytes.get_mut(at) {
        *byte ^= 1u8.wrapping_shl(bit);
    }
}

/// Two entries, and then a snapshot in their place, over disks that fail behind so many calls: how
/// many bytes the growing journal then has.
fn condensed(alloc: Global, calls: u64) -> io::Result<usize> {
    let one = Fuse::new(Memory::new(alloc), calls);
    let other = Fuse::new(Memory::new(alloc), calls);
    let mut pair = JournalPair::new(journal_on(alloc, one)?, journal_on(alloc, other)?);
    let mut batch = Batch::new(alloc);
    if batch.push(0, b"one").is_err() {
        return Err(io::ErrorKind::OutOfMemory.into());
    }
    pair.commit(&mut batch)?;
    if batch.push(1, b"all").is_err() {
        return Err(io::ErrorKind::OutOfMemory.into());
    }
    match pair.condense(&mut batch)? {
        Room::Enough => Ok(pair.journal_length()),
        Room::Refused(error) => Err(error),
    }
}

#[test]
fn a_snapshot_takes_the_place(rt: HostRuntime) -> Result<(), Fail> {
    assert_eq!(rt; condensed(rt.alloc(), 100)?, 19 + 17 + 9);
    for calls in 0..10u64 {
        assert!(rt; condensed(rt.alloc(), calls).is_err());
    }
    Ok(())
}
