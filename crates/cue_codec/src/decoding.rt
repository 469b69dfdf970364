//! State bytes as tables.

ghost use Rattle.std.specs.Prelude.{◌≡◌, ◌↔◌, ◌<◌, ◌^◌, [], ◌∷◌, ◌++◌, ℕ, List, IfOk, IfErr, IsOk};
ghost use Rattle.std.specs.Prelude.{IfSome};
ghost use Rattle.std.specs.Prelude.{IfNone, IsTrue};
ghost use Rattle.std.specs.Int.{w64, to_be_bytes};
ghost use Rattle.cue_table.specs.Valid.{IsValidTable};
ghost use Rattle.cue_codec.specs.State.{state_mark, table_bytes_in, IsTableBytes};
ghost use Rattle.cue_codec.specs.declared.version.Version.{Version as Versions};
ghost use Rattle.cue_table.specs.Tree.{empty};
ghost use Rattle.cue_codec.specs.Decoding.{HasStateHead, IsUndecoded, IsRejected};
ghost use Rattle.cue_codec.specs.Version.{version_byte};

use crate::drafting::Drafting;
use crate::reading::u64_at;
use crate::version::Version;
use cue_lattice::Kind;
use cue_row::Row;
use cue_table::Table;
use std::alloc::Global;

/// What stands after this byte.
fn after(byte: u8, bytes: &[u8]) -> Option<&[u8]>
    ensures some { IfSome result (λ rest. bytes.now ≡ byte ∷ rest.now) }
    ensures none { IfNone result ((rest : List ℕ) → ¬ (bytes.now ≡ byte ∷ rest)) }
{
    let (first, rest) = bytes.split_first()?;
    if *first != byte {
        return None;
    }
    Some(rest)
}

/// What stands after the bytes with which every state begins.
fn after_mark(bytes: &[u8]) -> Option<&[u8]>
    ensures some { IfSome result (λ rest. bytes.now ≡ state_mark ++ rest.now) }
    ensures none { IfNone result ((rest : List ℕ) → ¬ (bytes.now ≡ state_mark ++ rest)) }
{
    let rest = after(0xfe, bytes)?;
    let rest = after(0x43, rest)?;
    let rest = after(0x55, rest)?;
    after(0x45, rest)
}

/// The version, how many rows there are, and the bytes after the head.
pub fn head_at(bytes: &[u8]) -> Result<(Version, u64, &[u8]), Kind>
    ensures ok { IfOk result (λ x. bytes.now
        ≡ state_mark ++ (version_byte x.0 ∷ (to_be_bytes w64 x.1 ++ x.2.now))) }
    ensures small { IfOk result (λ x. x.1 < 2 ^ 64) }
    ensures refused { IfErr result (IsRejected bytes.now) }
    ensures begun { IfErr result (λ kind. ¬ HasStateHead bytes.now) }
{
    let Some(rest) = after_mark(bytes) else {
        return Err(Kind::NotState);
    };
    let Some((byte, rest)) = rest.split_first() else {
        return Err(Kind::NotState);
    };
    let Some(version) = Version::from_byte(*byte) else {
        return Err(Kind::Version);
    };
    let Some((count, rest)) = u64_at(rest) else {
        return Err(Kind::NotState);
    };
    Ok((version, count, rest))
}

/// Whether so many rows of these bytes are none.
fn are_none(count: u64, bytes: &[u8]) -> bool
    ensures { IsTrue result ↔ ((count ≡ 0) × (bytes.now ≡ [])) }
{
    count == 0 && bytes.is_empty()
}

/// The valid table whose state bytes these are, in whichever version. They are refused as `Version`
/// exactly where they begin with the mark and a version that is not known; else as `NotState` where
/// no valid table has them, and as `Memory` where memory ran out, which it does only where mark,
/// version and count stand. Room is made only for what was read, never for what a count claims: the
/// state without rows takes no memory.
pub fn decode(alloc: Global, bytes: &[u8]) -> Result<Table<Row>, Kind>
    ensures valid { IfOk result IsValidTable }
    ensures bytes { IfOk result (IsTableBytes bytes.now) }
    ensures refused { IfErr result (IsUndecoded bytes.now) }
    ensures opening { (version : Versions) → bytes.now ≡ table_bytes_in version empty → IsOk result }
{
    let (version, count, rest) = head_at(bytes)?;
    if are_none(count, rest) {
        return Ok(Table::new(alloc));
    }
    let table = Drafting::new(alloc, version, count).finish(rest)?;
    if !table.is_valid() {
        return Err(Kind::NotState);
    }
    Ok(table)
}
