ghost use Rattle.std.specs.Prelude.{◌≡◌, ◌≤◌, map, IsTrue, IfOk};
ghost use Rattle.cue_journal.specs.Journals.{disk_of, end_of};
ghost use Rattle.cue_journal.specs.Pairs.{growing_of, spare_of};
ghost use Rattle.cue_journal.specs.Inner.Starts.{IsReadOf};
ghost use Rattle.cue_journal.specs.Starts.{IsStarted};

use crate::frames::Unread;
use crate::journal::{Journal, recover};
use crate::pair::JournalPair;
use sqlite_disk::Disk;
use std::alloc::Global;

/// Two journals that were read, and the entries of both.
#[derive(Drop)]
pub struct StartedPair<D: Disk> {
    pub files: JournalPair<D>,
    /// The entries of the spare journal.
    pub spare: Vec<Vec<u8>>,
    /// The entries of the journal that grows, which come behind those.
    pub growing: Vec<Vec<u8>>,
}

/// One of two files.
#[derive(Clone, Copy, Debug, PartialEq, Eq)]
pub enum FileNumber {
    First,
    Second,
}

/// A file that was read, the entries in it, and where a journal goes on in it.
#[derive(Drop)]
struct ReadFile<D: Disk> {
    disk: D,
    end: usize,
    entries: Vec<Vec<u8>>,
}

/// Reads a file.
fn read_disk<D: Disk + Drop>(alloc: Global, mut disk: D) -> Result<ReadFile<D>, Unread>
    requires { IsTrue (D.Disk.is_usable disk) }
    ensures { IfOk result (λ r. IsTrue (D.Disk.is_clean r.disk)
        → IsReadOf D.Disk.seen D.Disk.may_leave disk r.disk r.end (map (λ v. v.items) r.entries.items)) }
{
    match recover(alloc, &mut disk) {
        Ok((end, entries)) => Ok(ReadFile { disk, end, entries }),
        Err(why) => Err(why),
    }
}

/// Two journals over files that were read.
fn pair_of<D: Disk>(growing: ReadFile<D>, spare: ReadFile<D>) -> StartedPair<D>
    ensures growing { disk_of (growing_of result.files) ≡ growing.disk }
    ensures spare { disk_of (spare_of result.files) ≡ spare.disk }
    ensures started { spare.end ≤ growing.end → (first second : D)
        → IsReadOf D.seen D.may_leave first growing.disk growing.end (map (λ v. v.items) growing.entries.items)
        → IsReadOf D.seen D.may_leave second spare.disk spare.end (map (λ v. v.items) spare.entries.items)
        → IsStarted D.seen D.may_leave second first result.files
        (map (λ v. v.items) result.spare.items) (map (λ v. v.items) result.growing.items) }
{
    StartedPair {
        files: JournalPair::new(
            Journal::new(growing.disk, growing.end),
            Journal::new(spare.disk, spare.end),
        ),
        spare: spare.entries,
        growing: growing.entries,
    }
}

/// Reads the two files of a pair of journals, which a crash may have left. The longer one grows.
///
/// # Errors
///
/// Those of `recover`, and which file it was.
pub fn start_pair<D: Disk + Drop>(
    alloc: Global,
    first: D,
    second: D,
) -> Result<StartedPair<D>, (FileNumber, Unread)>
    requires first { IsTrue (D.Disk.is_usable first) }
    requires second { IsTrue (D.Disk.is_usable second) }
    ensures { IfOk result (λ r. IsTrue (D.Disk.is_clean (disk_of (spare_of r.files)))
        → IsTrue (D.Disk.is_clean (disk_of (growing_of r.files)))
        → IsStarted D.Disk.seen D.Disk.may_leave first second r.files
        (map (λ v. v.items) r.spare.items) (map (λ v. v.items) r.growing.items)) }
{
    let one = match read_disk(alloc, first) {
        Ok(one) => one,
        Err(why) => return Err((FileNumber::First, why)),
    };
    let other = match read_disk(alloc, second) {
        Ok(other) => other,
        Err(why) => return Err((FileNumber::Second, why)),
    };
    if one.end >= other.end {
        return Ok(pair_of(one, other));
    }
    Ok(pair_of(other, one))
}
