ghost use Rattle.std.specs.Prelude.{◌≡◌, ℕ, List, [], length, map, drop, All, IsTrue, IfOk, IfSome, IfNone};
ghost use Rattle.cue_journal.specs.Found.{IsInFrame};
ghost use Rattle.cue_journal.specs.Frames.{file_entries, IsSound};

use crate::blocks::read_pieces;
use crate::frames::{HEAD, Unread, first_batch, read_file, read_frames};
use crate::journal::read_all;
use sqlite_disk::Disk;
use std::alloc::{AllocError, Global};
use std::io;

/// What a file of a journal has, sound or damaged.
#[derive(Drop)]
pub struct Inspection {
    /// How many bytes the file has.
    pub length: usize,
    /// The entries that count.
    pub entries: Vec<Vec<u8>>,
    /// Where the file is damaged, in bytes from its start.
    pub damage: Option<usize>,
    /// The entries of frames behind the damage that are whole and have their checksum.
    pub behind: Vec<Vec<u8>>,
}

/// The entries of all frames that are whole, open and have their checksum, wherever they stand.
fn scattered_entries(alloc: Global, bytes: &[u8]) -> Result<Vec<Vec<u8>>, AllocError>
    ensures { IfOk result (λ entries. All (IsInFrame bytes.now) (map (λ v. v.items) entries.items)) }
{
    let mut entries = Vec::new(alloc);
    let mut rest = bytes;
    while let Some((_, next)) = rest.split_first() {
        rest = match first_batch(rest) {
            Some((batch, after)) => {
                let (mut more, _) = read_pieces(alloc, batch)?;
                entries.append(&mut more)?;
                after
            }
            None => next,
        };
    }
    Ok(entries)
}

/// The frames of a file, behind its head.
#[tactic(auto, using(std::proofs::lemmas::List::drop_all))]
fn frames_in(bytes: &[u8]) -> &[u8]
    ensures { result.now ≡ drop 19 bytes.now }
{
    if bytes.len() < HEAD.len() {
        return &[];
    }
    let (_, frames) = bytes.split_at(HEAD.len());
    frames
}

/// Where the bytes of a file are damaged.
///
/// # Errors
///
/// Memory is wanting.
fn damage_in(alloc: Global, bytes: &[u8]) -> io::Result<Option<usize>>
    ensures sound { IfOk result (λ damage. IfNone damage (IsSound bytes.now)) }
    ensures damaged { IfOk result (λ damage. IfSome damage (λ _. ¬ IsSound bytes.now)) }
{
    if bytes.len() <= HEAD.len() + 1 {
        return Ok(None);
    }
    match read_file(alloc, bytes) {
        Ok(_) => Ok(None),
        Err(Unread::Damaged(at)) => Ok(Some(at)),
        Err(Unread::System(error)) => Err(error),
    }
}

/// The entries of frames behind the damage, where there is some.
#[tactic(auto, using(crate::proofs::Found::nothing_found))]
fn entries_behind(
    alloc: Global,
    damage: Option<usize>,
    rest: &[u8],
) -> Result<Vec<Vec<u8>>, AllocError>
    ensures each { IfOk result (λ entries. All (IsInFrame rest.now) (map (λ v. v.items) entries.items)) }
    ensures none { IfOk result (λ entries. IfNone damage (entries.items ≡ [])) }
{
    match damage {
        Some(_) => scattered_entries(alloc, rest),
        None => Ok(Vec::new(alloc)),
    }
}

/// Looks at the bytes of a file of a journal.
///
/// # Errors
///
/// Memory is wanting.
fn inspect_bytes(alloc: Global, bytes: &[u8]) -> io::Result<Inspection>
    ensures length { IfOk result (λ found. found.length ≡ length bytes.now) }
    ensures entries { IfOk result (λ found. map (λ v. v.items) found.entries.items ≡ file_entries bytes.now) }
    ensures sound { IfOk result (λ found. IfNone found.damage (IsSound bytes.now)) }
    ensures damaged { IfOk result (λ found. IfSome found.damage (λ _. ¬ IsSound bytes.now)) }
    ensures behind { IfOk result (λ found. All (IsInFrame bytes.now) (map (λ v. v.items) found.behind.items)) }
    ensures none { IfOk result (λ found. IfNone found.damage (found.behind.items ≡ [])) }
{
    let damage = damage_in(alloc, bytes)?;
    let (entries, rest) = read_frames(alloc, frames_in(bytes))?;
    let behind = entries_behind(alloc, damage, rest)?;
    Ok(Inspection {
        length: bytes.len(),
        entries,
        damage,
        behind,
    })
}

/// Reads a file of a journal, sound or damaged, and writes nothing.
///
/// # Errors
///
/// Those of the disk, and memory is wanting.
pub fn inspect<D: Disk>(alloc: Global, disk: &mut D) -> io::Result<Inspection>
    requires usable { IsTrue (D.is_usable disk.old) }
    ensures length { IfOk result (λ found. IsTrue (D.is_clean disk.new) → found.length ≡ length (D.seen disk.old)) }
    ensures entries { IfOk result (λ found. IsTrue (D.is_clean disk.new)
        → map (λ v. v.items) found.entries.items ≡ file_entries (D.seen disk.old)) }

    // Just a damaged file is told as damaged.
    ensures sound { IfOk result (λ found. IsTrue (D.is_clean disk.new) → IfNone found.damage (IsSound (D.seen disk.old))) }
    ensures damaged { IfOk result (λ found. IsTrue (D.is_clean disk.new)
        → IfSome found.damage (λ _. ¬ IsSound (D.seen disk.old))) }

    // What is found behind the damage was written as an entry, in a frame that is whole.
    ensures behind { IfOk result (λ found. IsTrue (D.is_clean disk.new)
        → All (IsInFrame (D.seen disk.old)) (map (λ v. v.items) found.behind.items)) }
    ensures none { IfOk result (λ found. IfNone found.damage (found.behind.items ≡ [])) }

    // The file is as it was, also after a crash.
    ensures seen { D.seen disk.new ≡ D.seen disk.old }
    ensures crash { (c : List ℕ) → D.may_leave disk.new c → D.may_leave disk.old c }
{
    let bytes = read_all(alloc, disk)?;
    inspect_bytes(alloc, &bytes)
}
