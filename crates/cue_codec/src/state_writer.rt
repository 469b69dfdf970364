//! State bytes written in pieces.

ghost use Rattle.std.specs.Prelude.{◌≡◌, ◌⊎◌, ◌≤◌, ◌++◌, [], length, drop, IfOk, OnErr, OnOk};
ghost use Rattle.cue_codec.specs.Inner.Walks.{walk_bytes, IsWalk};
ghost use Rattle.cue_codec.specs.Pieces.{IsFilled};
ghost use Rattle.cue_codec.specs.State.{table_bytes};
ghost use Rattle.cue_table.specs.Valid.{IsValidTable};

use crate::encoding::begin;
use crate::row_walk::RowWalk;
use cue_lattice::Memory;
use cue_row::Row;
use cue_table::Table;
use std::alloc::Global;
use std::marker::Model;

/// A writer that hands out the state bytes of a table piece by piece. It holds no more of them than
/// a room that it is given takes, and one row. Contracts see the bytes that are left.
#[derive(Drop)]
pub struct StateWriter<'a> {
    /// Bytes that were written ahead.
    ready: Vec<u8>,
    /// How many of them were handed out.
    taken: usize,
    walk: RowWalk<'a>,
}

impl<'a> Model for StateWriter<'a> {
    ghost use Rattle.std.specs.Prelude.{List, ℕ, ◌≤◌, ◌++◌, drop, length};
    ghost use Rattle.cue_codec.specs.Inner.Walks.{walk_bytes, IsWalk};

    ghost Value = { List ℕ };

    ghost view = { λ writer. drop writer.taken writer.ready.items ++ walk_bytes writer.walk };

    ghost invariant = { λ writer. (writer.taken ≤ length writer.ready.items)
        × IsWalk writer.walk };
}

/// Drops the first bytes, so many.
pub fn drop_front(bytes: &mut Vec<u8>, count: usize)
    requires { count ≤ length bytes.old.items }
    ensures { bytes.new.items ≡ drop count bytes.old.items }
{
    let left = bytes.len() - count;
    bytes.copy_within(count.., 0);
    bytes.truncate(left);
}

/// Writes rows until there are so many bytes, or no row is left.
fn write_ahead(ready: &mut Vec<u8>, walk: &mut RowWalk<'_>, wanted: usize) -> Result<(), Memory>
    requires { IsWalk walk.old }
    ensures walk { IsWalk walk.new }
    ensures same { ready.new.items ++ walk_bytes walk.new
        ≡ ready.old.items ++ walk_bytes walk.old }
    ensures enough { OnOk result
        ((wanted ≤ length ready.new.items) ⊎ (walk_bytes walk.new ≡ [])) }
{
    while ready.len() < wanted {
        if !walk.write_next(ready)? {
            return Ok(());
        }
    }
    Ok(())
}

/// Writes rows until so many bytes are ready that were not handed out, or no row is left. Those
/// that were handed out make room for them.
fn make_ready(
    ready: &mut Vec<u8>,
    taken: &mut usize,
    walk: &mut RowWalk<'_>,
    wanted: usize,
) -> Result<(), Memory>
    requires within { taken.old ≤ length ready.old.items }
    requires walk { IsWalk walk.old }
    ensures within { taken.new ≤ length ready.new.items }
    ensures walk { IsWalk walk.new }
    ensures same { drop taken.new ready.new.items ++ walk_bytes walk.new
        ≡ drop taken.old ready.old.items ++ walk_bytes walk.old }
    ensures enough { OnOk result ((wanted ≤ length (drop taken.new ready.new.items))
        ⊎ (walk_bytes walk.new ≡ [])) }
{
    if wanted <= ready.len() - *taken {
        return Ok(());
    }
    drop_front(ready, *taken);
    *taken = 0;
    write_ahead(ready, walk, wanted)
}

impl<'a> StateWriter<'a> {
    /// A writer of the state bytes of a valid table, in the version that is written.
    pub fn new(alloc: Global, table: &'a Table<Row>) -> Result<StateWriter<'a>, Memory>
        requires { IsValidTable table.now }
        ensures { IfOk result (λ writer. writer ≡ table_bytes table.now) }
    {
        let (ready, walk) = begin(alloc, table)?;
        Ok(StateWriter {
            ready,
            taken: 0,
            walk,
        })
    }

    /// Writes as many of the bytes that are left as there is room for, and says how many: fewer
    /// than the room has only where no more are left. After an error, which says that memory ran
    /// out, all is as it was.
    pub fn fill(&mut self, room: &mut [u8]) -> Result<usize, Memory>
        ensures ok { IfOk result (λ count. IsFilled self.old room.old count self.new room.new) }
        ensures err { OnErr result ((self.new ≡ self.old) × (room.new ≡ room.old)) }
    {
        make_ready(&mut self.ready, &mut self.taken, &mut self.walk, room.len())?;
        let rest = &self.ready[self.taken..];
        let count = rest.len().min(room.len());
        room[..count].copy_from_slice(&rest[..count]);
        self.taken += count;
        Ok(count)
    }
}
