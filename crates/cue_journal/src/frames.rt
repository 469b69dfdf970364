ghost use Rattle.std.specs.Prelude.{◌≡◌, ℕ, List, ◌++◌, length, take, drop, map, None, Some, MatchOption, IfOk, IfErr, OnOk, ◌<◌};
ghost use Rattle.std.specs.Str.{bytes_eq};
ghost use Rattle.cue_journal.specs.Frames.{next_batch, is_open_gate, checksum, summed, scan, file_entries, IsSound, IsScannedTo};
ghost use Rattle.cue_journal.specs.Blocks.{split_at};
ghost use Rattle.cue_journal.specs.Damage.{IsDamage};
ghost use Rattle.cue_journal.specs.Settled.{EndsAt};

use crate::blocks::read_pieces;
use sha2::{Digest, Sha256};
use std::alloc::{AllocError, Global};
use std::io;

/// What each file begins with: the name of the format, and its number.
pub(crate) const HEAD: &[u8] = b"cuestore journal 2\n";

/// An open gate. Five of a gate's bits decide, so one that turns changes nothing.
pub(crate) const OPEN: u8 = 0xFF;

/// Whether a gate is open.
pub(crate) fn is_open_gate(gate: u8) -> bool
    ensures { result ≡ is_open_gate gate }
{
    gate.count_ones() > 4
}

/// The checksum of a batch: the first eight bytes of its SHA-256.
#[tactic(auto, unfolding(crate::specs::Frames::checksum))]
pub(crate) fn checksum_of(batch: &[u8]) -> [u8; 8]
    ensures { result ≡ checksum batch.now }
{
    let [a, b, c, d, e, f, g, h, ..] = Sha256::digest(batch);
    [a, b, c, d, e, f, g, h]
}

/// Splits a list of bytes behind the first eight.
#[tactic(auto, using(crate::proofs::Reading::split_whole, crate::proofs::Reading::split_short))]
fn split_sum(rest: &[u8]) -> Option<(&[u8], &[u8])>
    ensures { MatchOption result (split_at 8 rest.now ≡ None)
        (λ found. split_at 8 rest.now ≡ Some (found.0.now, found.1.now)) }
{
    rest.split_at_checked(8)
}

/// The batch of so many bytes behind its checksum, where it is whole and has it, and what follows it.
#[tactic(auto, using(crate::proofs::Reading::split_whole, crate::proofs::Reading::split_short))]
fn batch_behind(size: u64, rest: &[u8]) -> Option<(&[u8], &[u8])>
    ensures { MatchOption result (summed size (split_at 8 rest.now) ≡ None)
        (λ found. summed size (split_at 8 rest.now) ≡ Some (found.0.now, found.1.now)) }
{
    let (sum, rest) = split_sum(rest)?;
    if size > rest.len() as u64 {
        return None;
    }
    let (batch, after) = rest.split_at(size as usize);
    if checksum_of(batch).as_slice() == sum {
        Some((batch, after))
    } else {
        None
    }
}

/// The batch of the first frame, where it counts, and what follows it.
pub(crate) fn first_batch(bytes: &[u8]) -> Option<(&[u8], &[u8])>
    ensures { MatchOption result (next_batch bytes.now ≡ None)
        (λ found. next_batch bytes.now ≡ Some (found.0.now, found.1.now)) }
{
    let [gate, a, b, c, d, e, f, g, h, rest @ ..] = bytes else {
        return None;
    };
    if !is_open_gate(*gate) {
        return None;
    }
    batch_behind(u64::from_be_bytes([*a, *b, *c, *d, *e, *f, *g, *h]), rest)
}

/// The entries of the frames that count, and what stands behind these frames.
pub(crate) fn read_frames<'a>(
    alloc: Global,
    bytes: &'a [u8],
) -> Result<(Vec<Vec<u8>>, &'a [u8]), AllocError>
    ensures entries { IfOk result (λ r. map (λ v. v.items) r.0.items ≡ (scan bytes.now).0) }
    ensures rest { IfOk result (λ r. IsScannedTo bytes.now r.1.now) }
{
    let mut entries = Vec::new(alloc);
    let mut rest = bytes;
    while let Some((batch, after)) = first_batch(rest) {
        let (mut more, _) = read_pieces(alloc, batch)?;
        entries.append(&mut more)?;
        rest = after;
    }
    Ok((entries, rest))
}

/// Why a file of a journal was not read.
#[derive(Clone, Copy, Debug)]
pub enum Unread {
    /// What stands at this offset is damaged: no crash leaves it.
    Damaged(usize),
    /// The system refused something, or memory ran out.
    System(io::Error),
}

impl From<io::Error> for Unread {
    ghost use Rattle.cue_journal.specs.declared.frames.Unread.TheVariants.{System};

    ghost from_gives = { λ error why. why ≡ System error };

    fn from(error: io::Error) -> Unread {
        Unread::System(error)
    }
}

/// The entries of a whole file, and where a journal goes on in it.
///
/// # Errors
///
/// `Damaged` for a file that no crash leaves, and want of memory.
pub fn read_file(alloc: Global, bytes: &[u8]) -> Result<(usize, Vec<Vec<u8>>), Unread>
    requires { 20 < length bytes.now }
    ensures entries { IfOk result (λ r. map (λ v. v.items) r.1.items ≡ file_entries bytes.now) }
    ensures end { IfOk result (λ r. EndsAt bytes.now r.0) }
    ensures sound { OnOk result (IsSound bytes.now) }
    ensures damaged { IfErr result (λ why. IsDamage why → ¬ IsSound bytes.now) }
{
    let Some(frames) = bytes.strip_prefix(HEAD) else {
        return Err(Unread::Damaged(0));
    };
    let (entries, rest) = match read_frames(alloc, frames) {
        Ok(found) => found,
        Err(error) => return Err(Unread::System(io::Error::from(error))),
    };
    let end = bytes.len() - rest.len();
    match rest.split_first() {
        Some((gate, _)) => {
            if is_open_gate(*gate) {
                return Err(Unread::Damaged(end));
            }
        }
        None => return Err(Unread::Damaged(end)),
    }
    Ok((end, entries))
}
