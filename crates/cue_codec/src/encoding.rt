//! Tables as state bytes.

ghost use Rattle.std.specs.Prelude.{◌≡◌, ◌<◌, ◌++◌, ◌∷◌, ◌^◌, [], length, IfOk, OnOk};
ghost use Rattle.std.specs.Int.{w64, to_be_bytes};
ghost use Rattle.cue_table.specs.Valid.{IsValidTable};
ghost use Rattle.cue_codec.specs.Inner.Walks.{walk_bytes, IsWalk};
ghost use Rattle.cue_codec.specs.Entry.{entries_of};
ghost use Rattle.cue_codec.specs.State.{state_mark, table_bytes};
ghost use Rattle.cue_codec.specs.Version.{written_version};

use crate::branches::row_count;
use crate::row_walk::RowWalk;
use crate::version::Version;
use cue_lattice::Memory;
use cue_row::Row;
use cue_table::Table;
use std::alloc::Global;

/// How every state begins.
pub const MARK: [u8; 4] = [0xfe, 0x43, 0x55, 0x45];

/// What stands before the rows of a state that has so many of them: the mark, the version that is
/// written, and the count.
fn put_head(out: &mut Vec<u8>, count: u64) -> Result<(), Memory>
    ensures { OnOk result (out.new.items ≡ out.old.items
        ++ (state_mark ++ (2 ∷ to_be_bytes w64 count))) }
{
    out.extend_from_slice(&MARK)?;
    out.push(Version::WRITTEN.byte())?;
    out.extend_from_slice(&count.to_be_bytes())?;
    Ok(())
}

/// Begins the state bytes of a valid table, in the version that is written: those before its rows
/// and those of the row at the root, and the walk that writes the others. An error says that
/// memory ran out. A table of more rows than 64 bits tell, which no memory holds, is not begun.
pub fn begin<'a>(alloc: Global, table: &'a Table<Row>) -> Result<(Vec<u8>, RowWalk<'a>), Memory>
    requires { IsValidTable table.now }
    ensures few { IfOk result (λ begun. length (entries_of written_version table.now) < 2 ^ 64) }
    ensures walk { IfOk result (λ begun. IsWalk begun.1) }
    ensures bytes { IfOk result (λ begun. begun.0.items ++ walk_bytes begun.1
        ≡ table_bytes table.now) }
{
    let root = table.root();
    let count = row_count(&root)?;
    let mut out = Vec::new(alloc);
    put_head(&mut out, count)?;
    if root.row().is_none() {
        return Ok((out, RowWalk::new(alloc)));
    }
    let walk = RowWalk::begin(alloc, &root, &mut out)?;
    Ok((out, walk))
}

/// The state bytes of a valid table, in the version that is written. They are written a row at a
/// time, branch by branch. An error says that memory ran out.
pub fn encode(alloc: Global, table: &Table<Row>) -> Result<Vec<u8>, Memory>
    requires { IsValidTable table.now }
    ensures { IfOk result (λ bytes. bytes.items ≡ table_bytes table.now) }
{
    let (mut out, mut walk) = begin(alloc, table)?;
    while walk.write_next(&mut out)? {}
    Ok(out)
}
