ghost use Rattle.std.specs.Prelude.{◌++◌, map, IsTrue, IfOk};
ghost use Rattle.cue_layers_site.specs.Entries.{StandForMap};
ghost use Rattle.cue_layers_site.specs.Starts.{IsCleanStore, IsStartedStore};

use crate::entries::{add_layers, layers_snapshot_in};
use crate::store::LayersStore;
use cue_journal::{FileNumber, StartedPair, Unread, start_pair};
use cue_layers::{Layers, LayersRefusal};
use sqlite_disk::Disk;
use std::alloc::Global;

/// Why a store did not start.
#[derive(Clone, Copy)]
pub enum LayersStartError {
    /// A file was not read.
    File(FileNumber, Unread),
    /// An entry was refused: memory ran out, or a journal is damaged.
    Entry(LayersRefusal),
}

/// The map of the entries of two journals.
fn map_of(alloc: Global, spare: &[Vec<u8>], growing: &[Vec<u8>]) -> Result<Layers, LayersRefusal>
    ensures { IfOk result (StandForMap (map (λ v. v.items) spare.now ++ map (λ v. v.items) growing.now)) }
{
    let mut map = Layers::new(alloc)?;
    add_layers(alloc, &mut map, spare)?;
    add_layers(alloc, &mut map, growing)?;
    Ok(map)
}

/// The store that two files keep, which a crash may have left: its map is the join of just the entries
/// that they have.
///
/// # Errors
///
/// Why it did not start, and which file it was.
pub fn start_layers<D: Disk + Drop>(
    alloc: Global,
    first: D,
    second: D,
) -> Result<LayersStore<D>, LayersStartError>
    requires first { IsTrue (D.Disk.is_usable first) }
    requires second { IsTrue (D.Disk.is_usable second) }
    ensures { IfOk result (λ store. IsCleanStore D.Disk.is_clean store
        → IsStartedStore D.Disk.seen D.Disk.may_leave first second store) }
{
    let StartedPair {
        files,
        spare,
        growing,
    } = match start_pair(alloc, first, second) {
        Ok(started) => started,
        Err((file, why)) => return Err(LayersStartError::File(file, why)),
    };
    let map = match map_of(alloc, &spare, &growing) {
        Ok(map) => map,
        Err(why) => return Err(LayersStartError::Entry(why)),
    };
    let snapshot = layers_snapshot_in(&growing);
    Ok(LayersStore::new(alloc, files, snapshot, map))
}
