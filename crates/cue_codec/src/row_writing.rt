//! What a row says, as bytes. Where memory runs out, what stood there before still begins the
//! bytes.

ghost use Rattle.std.specs.Prelude.{◌≡◌, ◌<◌, ◌^◌, ◌++◌, OnErr, OnOk};
ghost use Rattle.cue_row.specs.Begun.{StillBegins};
ghost use Rattle.cue_codec.specs.RowBytes.{row_part_bytes, parts_of_row, scalars_bytes, left_out_bytes};
ghost use Rattle.cue_codec.specs.RowBytes.{IsShortRow};
ghost use Rattle.cue_codec.specs.Version.{written_version};

use crate::rows::is_empty;
use crate::writing::{put_labels, put_lengths, put_set};
use cue_lattice::Memory;
use cue_row::Row;

/// Writes some scalar, and the usual ones.
#[tactic(auto, unfolding(crate::specs::RowBytes::scalars_bytes))]
fn put_scalars(out: &mut Vec<u8>, row: &Row) -> Result<(), Memory>
    requires { IsShortRow row.now }
    ensures written { OnOk result (out.new.items ≡ out.old.items
        ++ scalars_bytes (row.now.value, row.now.usual)) }
    ensures kept { OnErr result (StillBegins out.old.items out.new.items) }
{
    put_set(out, &row.value())?;
    put_set(out, &row.usual())
}

/// Writes the labels and the lengths that are left out.
#[tactic(auto, unfolding(crate::specs::RowBytes::left_out_bytes))]
fn put_left_out(out: &mut Vec<u8>, row: &Row, fixed: u64) -> Result<(), Memory>
    requires short { IsShortRow row.now }
    requires fixed { fixed < 2 ^ 32 }
    ensures written { OnOk result (out.new.items ≡ out.old.items
        ++ left_out_bytes written_version (row.now.labels, (row.now.least, row.now.most, fixed))) }
    ensures kept { OnErr result (StillBegins out.old.items out.new.items) }
{
    put_labels(out, row.labels())?;
    put_lengths(out, row.least(), row.most(), fixed)
}

/// Writes the kind of a row, and what it leaves open, where its elements are alike from an index
/// on.
#[tactic(auto, unfolding(crate::specs::RowBytes::row_part_bytes))]
pub fn put_parts(out: &mut Vec<u8>, row: &Row, fixed: u64) -> Result<(), Memory>
    requires short { IsShortRow row.now }
    requires fixed { fixed < 2 ^ 32 }
    ensures written { OnOk result (out.new.items ≡ out.old.items
        ++ row_part_bytes written_version (parts_of_row row.now fixed)) }
    ensures kept { OnErr result (StillBegins out.old.items out.new.items) }
{
    match (row.struct_ok(), row.list_ok()) {
        (true, true) => {
            out.push(0)?;
            Ok(())
        }
        (true, false) => {
            out.push(2)?;
            put_labels(out, row.labels())
        }
        (false, true) => {
            out.push(3)?;
            put_lengths(out, row.least(), row.most(), fixed)
        }
        (false, false) => {
            if is_empty(&row.value()) {
                out.push(4)?;
                return put_left_out(out, row, fixed);
            }
            out.push(1)?;
            put_scalars(out, row)
        }
    }
}
