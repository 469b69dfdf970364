ghost use Rattle.std.specs.Prelude.{◌≡◌, ◌<◌, ◌≤◌, ◌+◌, ◌^◌, ℕ, List, length, IfOk, IfErr, OnOk};
ghost use Rattle.std.specs.Prelude.{vec_len};
ghost use Rattle.std.specs.Io.KnownBytes.{ReadConsumes};
ghost use Rattle.cue_program.specs.Stops.{piece_size, read_limit, IsDeviceStop, IsReadFault};
ghost use Rattle.cue_program.specs.inner.Reading.{IsAllRead, IsRestFault, IsRestRead};

use crate::input_reader::InputReader;
use crate::stop::RunError;
use cue_device::Source;
use cue_replica::{Kind, Memory};
use std::alloc::Global;

/// How many bytes one read asks for, and one write hands on at most.
const PIECE: usize = 65_536;

/// How many reads one input may take, with the one that finds its end.
const MAX_READS: usize = 65_536;

/// Room for what one read gives. It serves for one input after the other.
pub fn new_buffer(alloc: Global) -> Result<Vec<u8>, Memory>
    ensures { IfOk result (λ piece. vec_len piece ≡ piece_size) }
{
    Ok(vec![in alloc; 0u8; PIECE]?)
}

/// Reads an input to its end, by reads into this room.
///
/// # Errors
///
/// `Device` where a read fails, `TurnsUsed` where the end isn't found in 65,536 reads, and
/// `Memory`.
pub fn read_all<S: Source, K: InputReader>(
    alloc: Global,
    input: &mut S,
    piece: &mut [u8],
) -> Result<K, RunError>
    requires room { length piece.old ≡ piece_size }
    requires calls { S.called input.old + read_limit < 2 ^ 64 }
    ensures room { length piece.new ≡ length piece.old }
    ensures all { IfOk result (λ kept. IsAllRead (K.keeps kept) (S.to_come input.old)) }
    ensures fault { IfErr result (IsReadFault (S.to_come input.old) (S.called input.old) (S.failed input.old)
        (S.called input.new) (S.failed input.new)) }
{
    let count = read_piece(input, piece)?;
    let mut kept = K::begin(alloc, &piece[..count])?;
    if count == 0 {
        return Ok(kept);
    }
    read_rest(input, piece, &mut kept)?;
    Ok(kept)
}

/// Reads an input to its end of which one piece was read.
fn read_rest<S: Source, K: InputReader>(
    input: &mut S,
    piece: &mut [u8],
    kept: &mut K,
) -> Result<(), RunError>
    requires room { length piece.old ≡ piece_size }
    requires calls { S.called input.old + read_limit ≤ 2 ^ 64 }
    ensures room { length piece.new ≡ length piece.old }
    ensures rest { (front : List ℕ) → 0 < length front → K.keeps kept.old front
        → OnOk result (IsRestRead (K.keeps kept.new) front (S.to_come input.old)) }
    ensures fault { (front : List ℕ) → 0 < length front → K.keeps kept.old front
        → IfErr result (IsRestFault (S.to_come input.old) (S.called input.old)
        (S.failed input.old) (S.called input.new) (S.failed input.new)) }
{
    for _ in 1..MAX_READS {
        let count = read_piece(input, piece)?;
        if count == 0 {
            return Ok(());
        }
        kept.go_on(&piece[..count])?;
    }
    Err(RunError::Refused(Kind::TurnsUsed))
}

/// Reads once, and answers how many bytes that gave: none at the end.
fn read_piece<S: Source>(input: &mut S, piece: &mut [u8]) -> Result<usize, RunError>
    requires { S.called input.old + 1 < 2 ^ 64 }
    ensures room { length piece.new ≡ length piece.old }
    ensures counted { S.called input.new ≡ S.called input.old + 1 }
    ensures failures { OnOk result (S.failed input.new ≡ S.failed input.old) }
    ensures bound { IfOk result (λ count. count ≤ length piece.new) }
    ensures read { ReadConsumes (S.to_come input.old) (S.to_come input.new) result piece.new }
    ensures fault { IfErr result (λ stop. IsDeviceStop stop
        × (S.failed input.old < S.failed input.new)) }
{
    Ok(input.read(piece)?)
}
