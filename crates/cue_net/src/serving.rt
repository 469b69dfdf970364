ghost use Rattle.std.specs.Prelude.{◌≡◌, IfOk, IfErr};
ghost use Rattle.cue_wire.specs.Connections.{moment_of};
ghost use Rattle.cue_net.specs.Doors.{IsServing, IsServingAt, ServesOver};
ghost use Rattle.cue_net.specs.Halts.{IsDeviceOrMemory};
ghost use Rattle.cue_net.specs.Printed.{IsPrintedExport, IsServedExport};

use crate::MAX_TURNS;
use crate::halt::NetError;
use crate::network::{End, Network};
use cue_device::{Sink, Source};
use cue_replica::{Answer, Memory, Replica, SiteQuestion, answer_to, to_printed};
use cue_wire::serve;
use std::alloc::Global;

/// Opens a door at this port of 127.0.0.1, and serves there as `serve_from`. A read or a write
/// waits for its peer for 60 seconds at most.
///
/// # Errors
///
/// `Device` where the port can't be had, and as `serve_from`.
pub fn serve_for<H>(rt: &H, port: u16, count: u16) -> Result<Answer, NetError>
where
    H: AllocGlobal + Network,
    ensures served { IsServingAt (H.opens rt.now port) (H.lets_in rt.now)
        (ServesOver (moment_of H.Input.given H.Input.to_come H.Output.taken H.Input.called
        H.Output.called H.Input.failed H.Output.failed)) (H.fails rt.now) count result }
    ensures export { IfOk result IsServedExport }
    ensures halt { IfErr result IsDeviceOrMemory }
{
    let mut door = rt.open(port)?;
    serve_from(rt, &mut door, count)
}

/// Serves so many connections through this door, one after the other, from one new site, and
/// answers its export, as it is printed. A connection has at most 100,000 turns, each a read or a
/// write. One that ends for a frame that is too long, for its turns, for a device that fails or for
/// want of memory is closed, and the next is served.
///
/// # Errors
///
/// `Device` where it can't accept a connection, and `Memory` where it has none for the export.
pub fn serve_from<H>(rt: &H, door: &mut H::Door, count: u16) -> Result<Answer, NetError>
where
    H: AllocGlobal + Network,
    ensures { IsServing (H.lets_in rt.now) (ServesOver (moment_of H.Input.given H.Input.to_come
        H.Output.taken H.Input.called H.Output.called H.Input.failed H.Output.failed))
        (H.fails rt.now) count door.old door.new result }
{
    let mut site = Replica::new(rt.alloc());
    for _served in 0..count {
        let mut end = rt.accept(door)?;
        serve_one(rt.alloc(), &mut end, &mut site);
    }
    let answer = export_answer(rt.alloc(), &site)?;
    Ok(answer)
}

/// The export of a site, as it is printed.
fn export_answer(alloc: Global, site: &Replica) -> Result<Answer, Memory>
    ensures { IfOk result (IsPrintedExport site.now) }
{
    let told = answer_to(alloc, SiteQuestion::Export, site)?;
    to_printed(SiteQuestion::Export, told)
}

/// Serves one connection to its end, whatever that is: what ends one connection ends no other.
fn serve_one<S: Source, K: Sink>(alloc: Global, end: &mut End<S, K>, site: &mut Replica)
    requires { (S.called end.old.source ≡ 0) × (K.called end.old.sink ≡ 0) }
    ensures { ServesOver (moment_of S.given S.to_come K.taken S.called K.called S.failed K.failed)
        end.old.source end.old.sink end.new.source end.new.sink site.old site.new }
{
    let _ended = serve(alloc, &mut end.source, &mut end.sink, site, MAX_TURNS);
}
