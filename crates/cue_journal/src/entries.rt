ghost use Rattle.std.specs.Prelude.{◌≡◌, ℕ, List, map, IfOk, IfSome, IsSome};
ghost use Rattle.std.specs.List.{AllByRecursion};
ghost use Rattle.cue_journal.specs.Blocks.{recovered_pieces, FitsInBlock, StandsFor};
ghost use Rattle.cue_journal.specs.Lists.{blocks};

use crate::read_pieces;
use std::alloc::{AllocError, Global};

/// The entries of bytes that are whole blocks, as those of a journal.
pub fn entries_in(alloc: Global, bytes: &[u8]) -> Result<Option<Vec<Vec<u8>>>, AllocError>
    ensures read { IfOk result (λ found. IfSome found (λ entries.
        map (λ entry. entry.items) entries.items ≡ recovered_pieces bytes.now)) }
    // Nothing else stands behind the last block: what follows would be read behind it.
    ensures whole { IfOk result (λ found. IfSome found (λ entries.
        StandsFor bytes.now (map (λ entry. entry.items) entries.items))) }
    // What is written is read.
    ensures written { (entries : List (List ℕ)) → AllByRecursion FitsInBlock entries → bytes.now ≡ blocks entries
        → IfOk result IsSome }
{
    let (entries, end) = read_pieces(alloc, bytes)?;
    if end < bytes.len() {
        return Ok(None);
    }
    Ok(Some(entries))
}
