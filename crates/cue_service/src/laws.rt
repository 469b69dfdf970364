ghost use Rattle.std.specs.Prelude.{◌≡◌, Bool, List, true, false};
ghost use Rattle.cue_lattice.specs.World.{Piece};
ghost use Rattle.http_server.specs.Exchange.{Call, Chain};
ghost use Rattle.cue_service.specs.declared.site.Site.{Site};
ghost use Rattle.cue_service.specs.Sites.{AnswersAt, Settles};
ghost use Rattle.cue_service.specs.Promise.{AreHeld, AreListedStill, AreGathered, Stands, Survives};
ghost use Rattle.cue_service.specs.Worlds.{AreCallsEvents, AreGathersEvents, AreGatheredPiecesEvents};

use sqlite_disk::Disk;

/// A round of calls and then a `settle`, from any consistent site. After the calls the site has
/// accepted just the pieces from before and those that were answered with 204. Where the round
/// stands, all of these are on the disk. Whatever a crash leaves after it, standing or not, stands
/// for the pieces that were on the disk before, or for all. Once a round does not stand, none does
/// that follows it. The site lists just the pieces that it accepted since its start, and so it does
/// with those that it takes of another site's pieces.
///
/// It computes nothing: it states a law.
pub fn a_round_keeps_its_promise<D: Disk>()
    ensures held { AreHeld D.Disk.seen D.Disk.may_leave }
    ensures listed { AreListedStill D.Disk.seen D.Disk.may_leave }
    ensures gathered { AreGathered D.Disk.seen D.Disk.may_leave }
    ensures stands { Stands D.Disk.seen D.Disk.may_leave }
    ensures crash { Survives D.Disk.seen D.Disk.may_leave }
    ensures once { (before after called new : Site D) (calls : List Call) (verdict : Bool)
        → Settles D.Disk.seen D.Disk.may_leave before false after
        → Chain (AnswersAt D.Disk.seen D.Disk.may_leave) after calls called
        → Settles D.Disk.seen D.Disk.may_leave called verdict new
        → verdict ≡ false }
{}

/// What requests do to a site are events of any world that it is a site of: a piece that is
/// acknowledged is a `Submit`, or a `Deliver` where it is a message and else a `Foreign`, a state that
/// is answered is a `Send`, and all else is none. So is what it takes of another site's answer, its state or its
/// pieces.
///
/// It computes nothing: it states a law.
pub fn calls_are_events<D: Disk>()
    ensures calls { AreCallsEvents D.Disk.seen D.Disk.may_leave }
    ensures gathers { AreGathersEvents D.Disk.seen D.Disk.may_leave }
    ensures pieces { AreGatheredPiecesEvents D.Disk.seen D.Disk.may_leave }
{}
