ghost use Rattle.std.specs.Prelude.{◌++◌, map, IsTrue, IfOk};
ghost use Rattle.cue_replica.specs.Accepted.{IsOfPieces};
ghost use Rattle.cue_service.specs.Entries.{pieces_of};
ghost use Rattle.cue_service.specs.Starts.{IsCleanSite, IsStartedSite};

use crate::entries::{add_entries, snapshot_in};
use crate::rules::SiteRules;
use crate::site::Site;
use crate::standing::Standing;
use cue_journal::{FileNumber, StartedPair, Unread, start_pair};
use cue_lattice::Refusal;
use cue_replica::Replica;
use sqlite_disk::Disk;
use std::alloc::Global;

/// Why a site did not start.
#[derive(Clone, Copy)]
pub enum StartError {
    /// A file was not read.
    File(FileNumber, Unread),
    /// An entry was refused: memory ran out, or a journal is damaged.
    Entry(Refusal),
}

/// The table of the entries of two journals.
fn table_of(alloc: Global, spare: &[Vec<u8>], growing: &[Vec<u8>]) -> Result<Replica, Refusal>
    ensures { IfOk result (λ table. IsOfPieces table
        (pieces_of (map (λ v. v.items) spare.now ++ map (λ v. v.items) growing.now))) }
{
    let mut table = Replica::new(alloc);
    add_entries(&mut table, spare)?;
    add_entries(&mut table, growing)?;
    Ok(table)
}

/// The site that two files keep, which a crash may have left: it has accepted just what they have.
///
/// # Errors
///
/// Why it did not start, and which file it was.
pub fn start_site<D: Disk + Drop>(
    alloc: Global,
    first: D,
    second: D,
    rules: SiteRules,
    standing: Standing,
    run: u64,
) -> Result<Site<D>, StartError>
    requires first { IsTrue (D.Disk.is_usable first) }
    requires second { IsTrue (D.Disk.is_usable second) }
    ensures { IfOk result (λ site. IsCleanSite D.Disk.is_clean site
        → IsStartedSite D.Disk.seen D.Disk.may_leave first second rules run site) }
{
    let StartedPair {
        files,
        spare,
        growing,
    } = match start_pair(alloc, first, second) {
        Ok(started) => started,
        Err((file, why)) => return Err(StartError::File(file, why)),
    };
    let table = match table_of(alloc, &spare, &growing) {
        Ok(table) => table,
        Err(why) => return Err(StartError::Entry(why)),
    };
    let snapshot = snapshot_in(&growing);
    Ok(Site::new(alloc, files, snapshot, table, rules, standing, run))
}
