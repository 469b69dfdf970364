ghost use Rattle.std.specs.Prelude.{◌≡◌, ◌⊎◌, ◌+◌, ◌-◌, ◌^◌, ◌≤◌, ◌<◌, OnOk, IfOk, IfErr, length};
ghost use Rattle.std.specs.Prelude.{drop};
ghost use Rattle.std.specs.Io.KnownBytes.{WriteAppends, ReadConsumes};
ghost use Rattle.cue_net.specs.Halts.{IsDeviceNetError};
ghost use Rattle.cue_net.specs.Inner.Turns.{IsReadHalt, IsWriteHalt};

use crate::halt::NetError;
use cue_device::{Sink, Source};
use cue_replica::Kind;

/// Reads some bytes, in one turn.
///
/// # Errors
///
/// `TurnsUsed` where no turn is left, and `Device` where the read fails or finds the end.
pub fn read_some<S: Source>(
    source: &mut S,
    into: &mut [u8],
    left: &mut u64,
) -> Result<usize, NetError>
    requires room { 0 < length into.old }
    requires counts { S.called source.old + left.old ≤ 2 ^ 64 - 1 }
    ensures bound { IfOk result (λ n. (0 < n) × (n ≤ length into.new)) }
    ensures room { length into.new ≡ length into.old }
    ensures gives { WriteAppends (S.given source.old) (S.given source.new) result into.new }
    ensures takes { ReadConsumes (S.to_come source.old) (S.to_come source.new) result into.new }
    ensures turns { S.called source.new + left.new ≡ S.called source.old + left.old }
    ensures turn { OnOk result (left.old ≡ left.new + 1) }
    ensures fewer { left.new ≤ left.old }
    ensures idle { IfErr result (λ halt. IsDeviceNetError halt ⊎ (left.new ≡ left.old)) }
    ensures sound { OnOk result (S.failed source.new ≡ S.failed source.old) }
    ensures halt { IfErr result (λ halt. IsReadHalt halt left.new (S.to_come source.new)
        (S.failed source.old) (S.failed source.new)) }
{
    if *left == 0 {
        return Err(NetError::Refused(Kind::TurnsUsed));
    }
    *left -= 1;
    match source.read(into)? {
        0 => Err(NetError::Device),
        count => Ok(count),
    }
}

/// Writes bytes from the front of a slice, in one turn: some, where there are any.
///
/// # Errors
///
/// `TurnsUsed` where no turn is left, and `Device` where the write fails.
pub fn write_some<K: Sink>(sink: &mut K, bytes: &[u8], left: &mut u64) -> Result<usize, NetError>
    requires { K.called sink.old + left.old ≤ 2 ^ 64 - 1 }
    ensures bound { IfOk result (λ n. n ≤ length bytes.now) }
    ensures some { IfOk result (λ n. 0 < length bytes.now → 0 < n) }
    ensures takes { WriteAppends (K.taken sink.old) (K.taken sink.new) result bytes.now }
    ensures turns { K.called sink.new + left.new ≡ K.called sink.old + left.old }
    ensures turn { OnOk result (left.old ≡ left.new + 1) }
    ensures fewer { left.new ≤ left.old }
    ensures idle { IfErr result (λ halt. IsDeviceNetError halt ⊎ (left.new ≡ left.old)) }
    ensures sound { OnOk result (K.failed sink.new ≡ K.failed sink.old) }
    ensures halt { IfErr result (λ halt. IsWriteHalt halt left.new
        (K.failed sink.old) (K.failed sink.new)) }
{
    if *left == 0 {
        return Err(NetError::Refused(Kind::TurnsUsed));
    }
    *left -= 1;
    Ok(sink.write(bytes)?)
}
