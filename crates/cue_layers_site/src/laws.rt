ghost use Rattle.std.specs.Prelude.{◌≡◌, Bool, List, true, false};
ghost use Rattle.http_server.specs.Exchange.{Call, Chain};
ghost use Rattle.cue_layers_site.specs.declared.site.LayeredSite.{LayeredSite};
ghost use Rattle.cue_layers_site.specs.Promise.{AreLayersHeld, ArePulled, LayersStand, LayersSurvive};
ghost use Rattle.cue_layers_site.specs.Sites.{AnswersLayered};
ghost use Rattle.cue_layers_site.specs.Stores.{SettlesLayers};
ghost use Rattle.cue_layers_site.specs.declared.store.LayersStore.{LayersStore};

use cue_service::ServesCommons;
use http_server::Settle;
use sqlite_disk::Disk;

/// A round of calls and then a `settle`, from any service of layers of which the disk stands for a map.
/// After the calls its map is the join of what it was and of just the layers that were answered with
/// 204. Where the round stands, the disk stands for all of it. Whatever a crash leaves after it,
/// standing or not, stands for the map that was on the disk before, or for the new one. Once a round
/// does not stand, none does that follows it.
///
/// It computes nothing: it states a law.
pub fn layers_keep_their_promise<S: Settle + ServesCommons, D: Disk>()
    ensures held { AreLayersHeld D.Disk.seen D.Disk.may_leave
        (AnswersLayered D.Disk.seen D.Disk.may_leave S.Settle.answers S.ServesCommons.commons S.ServesCommons.lets_write) }
    ensures stand { LayersStand D.Disk.seen D.Disk.may_leave
        (AnswersLayered D.Disk.seen D.Disk.may_leave S.Settle.answers S.ServesCommons.commons S.ServesCommons.lets_write) }
    ensures crash { LayersSurvive D.Disk.seen D.Disk.may_leave
        (AnswersLayered D.Disk.seen D.Disk.may_leave S.Settle.answers S.ServesCommons.commons S.ServesCommons.lets_write) }
    ensures pulled { ArePulled D.Disk.seen D.Disk.may_leave }
    ensures once { (before : LayersStore D) (after called : LayeredSite S D) (new : LayersStore D) (calls : List Call) (verdict : Bool)
        → SettlesLayers D.Disk.seen D.Disk.may_leave before false after.store
        → Chain (AnswersLayered D.Disk.seen D.Disk.may_leave S.Settle.answers S.ServesCommons.commons S.ServesCommons.lets_write) after calls called
        → SettlesLayers D.Disk.seen D.Disk.may_leave called.store verdict new
        → verdict ≡ false }
{}
