ghost use Rattle.std.specs.Prelude.{◌≡◌, ◌++◌, [], ℕ, List, map, true, false, IfOk, IfSome, IsTrue};
ghost use Rattle.cue_lattice.specs.World.{Piece, state};
ghost use Rattle.cue_replica.specs.Accepted.{IsOfPieces};
ghost use Rattle.cue_journal.specs.Batches.{batch_bytes};
ghost use Rattle.cue_journal.specs.Blocks.{recovered_pieces};
ghost use Rattle.cue_journal.specs.Pairs.{IsPairReady, HasSameEntries, entries_of_pair, is_whole, MayLeave};
ghost use Rattle.cue_service.specs.Editions.{IsEdition};
ghost use Rattle.cue_service.specs.Entries.{pieces_of};
ghost use Rattle.cue_service.specs.Answering.{IsSame};
ghost use Rattle.cue_service.specs.Listing.{AreListed};
ghost use Rattle.cue_service.specs.Tags.{tag_of};
ghost use Rattle.cue_service.specs.Pulls.{CoversPiece, CoversAll, IsOfListed};

use crate::desk::SiteCore;
use crate::route::{Route, route_of, seconds_in};
use crate::rules::SiteRules;
use crate::snapshots::Snapshots;
use crate::standing::Standing;
use bytes::Bytes;
use cue_journal::{JournalPair, Room};
use cue_replica::Replica;
use cue_rounds::{Gathers, News};
use http::{HeaderValue, Request, StatusCode};
use http_server::{Response, Settle};
use log::Log;
use sqlite_disk::Disk;
use std::alloc::{AllocError, Global};
use std::io;
use std::io::ErrorKind;

/// No entry of a journal has as many bytes.
const LONGEST: u64 = 1 << 32;

/// A piece takes no more bytes in a journal beside its own, with the frame of its round.
const BESIDE: usize = 64;

/// The first byte of an entry of state bytes.
const STATE: u8 = 1;

/// A site whose pieces are in two journals. What it answers stands once its round has settled.
#[derive(Drop)]
pub struct Site<D: Disk> {
    pub(crate) desk: SiteCore,
    files: JournalPair<D>,
    snapshots: Snapshots,
    /// Why a round did not settle, or a pull found no room.
    fault: Option<io::Error>,
}

/// Why a call failed.
fn fault_of<T>(answer: &io::Result<T>) -> Option<io::Error> {
    match answer {
        Ok(_) => None,
        Err(error) => Some(*error),
    }
}

/// Whether an error says that a disk has no room, or takes no file of that length.
fn is_want_of_room(error: io::Error) -> bool {
    matches!(
        error.kind(),
        ErrorKind::StorageFull | ErrorKind::QuotaExceeded | ErrorKind::FileTooLarge
    )
}

/// Notes what came of a snapshot of so many bytes.
fn note(
    snapshots: &mut Snapshots,
    standing: &mut Standing,
    size: usize,
    condensed: &io::Result<Room>,
) {
    match condensed {
        Ok(Room::Enough) => {
            snapshots.note_written(size);
            standing.note_condensed(size);
        }
        Ok(Room::Refused(error)) => standing.note_refused_snapshot(*error),
        Err(_) => {}
    }
}

impl<D: Disk> Site<D> {
    ghost use Rattle.cue_service.specs.Sites.{IsConsistent};
    ghost use Rattle.cue_service.specs.Inner.Rounds.{IsCommittedBy, IsCondensedBy};

    /// A site over journals that were recovered, of which the one that grows begins with a snapshot of
    /// so many bytes, with the table of their entries, and a number that no other run has.
    pub fn new(
        alloc: Global,
        files: JournalPair<D>,
        snapshot: usize,
        board: Replica,
        rules: SiteRules,
        standing: Standing,
        run: u64,
    ) -> Site<D>
        ensures consistent { IsPairReady D.Disk.seen D.Disk.may_leave files
            → (pieces : List Piece) → IsOfPieces board pieces
            → pieces ≡ pieces_of (entries_of_pair D.Disk.seen files)
            → IsConsistent D.Disk.seen D.Disk.may_leave result pieces pieces }
        // It has accepted nothing yet, in the run of this number.
        ensures listed { AreListed [] result.desk.pieces }
        // Its run has the number that it is given.
        ensures run { result.desk.pieces.run ≡ run }
        // And it has the rules that it is given.
        ensures rules { result.desk.rules ≡ rules }
        // Its files are those that it is given.
        ensures files { result.files ≡ files }
    {
        Site {
            desk: SiteCore::new(alloc, board, rules, standing, run),
            files,
            snapshots: Snapshots::new(snapshot),
            fault: None,
        }
    }

    /// Makes room in the journal for all that waits, and for a piece or pieces of so many bytes more.
    /// Answers why the disk has none. Any other failure the commit will find out.
    fn make_room(&mut self, bytes: usize) -> Option<io::Error>
        ensures files { HasSameEntries D.Disk.seen D.Disk.may_leave self.old.files self.new.files }
        ensures desk { self.new.desk ≡ self.old.desk }
    {
        let wanted = self
            .desk
            .batch
            .len()
            .saturating_add(bytes)
            .saturating_add(BESIDE);
        match self.files.make_room(self.desk.alloc, wanted) {
            Room::Refused(error) if is_want_of_room(error) => Some(error),
            _ => None,
        }
    }

    /// Makes room for the piece that a request brings. Answers why the disk has none.
    fn make_room_for(&mut self, request: &Request<Bytes>) -> Option<io::Error>
        ensures files { HasSameEntries D.Disk.seen D.Disk.may_leave self.old.files self.new.files }
        ensures desk { self.new.desk ≡ self.old.desk }
    {
        match route_of(request) {
            Route::Take(_) => self.make_room(request.body().len()),
            _ => None,
        }
    }

    /// Makes room for what another site sent, if anything. Answers whether there is room.
    fn has_room(&mut self, bytes: usize) -> bool
        ensures files { HasSameEntries D.Disk.seen D.Disk.may_leave self.old.files self.new.files }
        ensures same { IsSame self.old.desk self.new.desk }
        ensures desk { IsTrue result → self.new.desk ≡ self.old.desk }
    {
        if bytes == 0 {
            return true;
        }
        match self.make_room(bytes) {
            Some(error) => {
                self.desk.standing.note_no_room(error);
                self.fault = Some(error);
                false
            }
            None => true,
        }
    }

    /// Has what waits reach the disk. Answers whether it did.
    fn commit(&mut self) -> bool
        ensures { IsCommittedBy D.Disk.seen D.Disk.may_leave self.old result self.new }
    {
        let Site {
            desk,
            files,
            fault,
            ..
        } = self;
        let done = files.commit(&mut desk.batch);
        *fault = fault_of(&done);
        done.is_ok()
    }

    /// Puts the state in the place of a journal that has become long since the last one: as long as
    /// the last one itself. Where it can't be written the journal stays as it is, and the site goes
    /// on. Answers whether nothing failed.
    fn condense(&mut self) -> bool
        ensures { IsCondensedBy D.Disk.seen D.Disk.may_leave self.old result self.new }
    {
        let Site {
            desk,
            files,
            snapshots,
            fault,
        } = self;
        let (grown, changes) = (files.journal_length(), desk.board.changes());
        if !snapshots.is_due(grown, changes) {
            return true;
        }
        snapshots.refuse(grown, changes);
        let size = desk.board.table().state_size();
        if size >= LONGEST {
            desk.standing.too_long(size);
            return true;
        }
        let Ok(state) = desk.board.table().state(desk.alloc) else {
            desk.standing
                .note_refused_snapshot(ErrorKind::OutOfMemory.into());
            return true;
        };
        if desk.batch.push(STATE, &state).is_err() {
            desk.standing
                .note_refused_snapshot(ErrorKind::OutOfMemory.into());
            return true;
        }
        let condensed = files.condense(&mut desk.batch);
        *fault = fault_of(&condensed);
        note(snapshots, &mut desk.standing, state.len(), &condensed);
        condensed.is_ok()
    }
}

impl<D: Disk> Settle for Site<D> {
    ghost use Rattle.cue_service.specs.Sites.{AnswersAt, Settles};

    ghost answers = { AnswersAt D.Disk.seen D.Disk.may_leave };

    ghost settles = { Settles D.Disk.seen D.Disk.may_leave };

    fn call(
        &mut self,
        request: &Request<Bytes>,
        response: &mut Response,
    ) -> Result<(), AllocError> {
        let full = self.make_room_for(request);
        self.desk.answer(full, request, response);
        Ok(())
    }

    fn settle(&mut self) -> bool {
        if !self.commit() {
            return false;
        }
        self.condense()
    }
}

impl<D: Disk> Gathers for Site<D> {
    ghost use Rattle.cue_service.specs.Sites.{GathersAt, GathersPiecesAt, IsSiteUntouched};

    ghost pulls_state = { λ old bytes _ new. GathersAt D.Disk.seen D.Disk.may_leave bytes old new };

    ghost pulls_pieces = { λ old bytes _ new.
        GathersPiecesAt D.Disk.seen D.Disk.may_leave (pieces_of (recovered_pieces bytes)) old new };

    ghost pulls_layers = { λ old _ _ new. new ≡ old };

    ghost rests = { IsSiteUntouched };

    /// Takes the state of another site, unless it brings nothing.
    fn pull_state(&mut self, bytes: &[u8]) -> bool
        ensures gathers { GathersAt D.Disk.seen D.Disk.may_leave bytes.now self.old self.new }
        // Where it went well the table refuses all that the state does.
        ensures brings { IsTrue result → CoversPiece self.new.desk.board (state bytes.now) }
    {
        if !self.has_room(bytes.len()) {
            return false;
        }
        self.desk.gather(bytes)
    }

    /// Takes pieces that another site accepted, in its order.
    fn pull_pieces(&mut self, bytes: &[u8]) -> bool
        ensures gathers { GathersPiecesAt D.Disk.seen D.Disk.may_leave (pieces_of (recovered_pieces bytes.now)) self.old self.new }
        // Where it went well the table refuses all that the pieces do which a site accepts.
        ensures brings { IsTrue result → IsOfListed self.old.desk
            → CoversAll self.new.desk.board (pieces_of (recovered_pieces bytes.now)) }
    {
        if !self.has_room(bytes.len()) {
            return false;
        }
        self.desk.gather_pieces(bytes)
    }

    /// It keeps no layers.
    fn has_layers(&self) -> bool {
        false
    }

    /// Joins nothing, since it keeps no layers.
    fn pull_layers(&mut self, _bytes: &[u8]) -> bool {
        false
    }

    /// How many seconds the one waits who asks with `?wait=SECONDS` and has the table.
    fn patience(&self, request: &Request<Bytes>, response: &Response) -> Option<u64>
        // Only an answer that nothing is new waits.
        ensures { IfSome result (λ _. response.now.status ≡ 304) }
    {
        if response.status == StatusCode::NOT_MODIFIED {
            seconds_in(request.uri().query()?)
        } else {
            None
        }
    }

    /// The number goes with the tag of the table.
    fn edition(&mut self) -> u64
        ensures untouched { IsSiteUntouched self.old self.new }
        ensures edition { IsEdition self.old.desk.editions (tag_of self.old.desk.board) result self.new.desk.editions }
    {
        self.desk.edition()
    }

    /// The tag of the table.
    fn tag(&mut self) -> Option<HeaderValue>
        ensures untouched { IsSiteUntouched self.old self.new }
        ensures tag { IfSome result (λ tag. tag.bytes ≡ tag_of self.old.desk.board) }
    {
        self.desk.board.tag().ok()
    }

    /// Why the last round did not settle, or the last pull found no room.
    fn fault(&mut self) -> io::Error
        ensures { IsSiteUntouched self.old self.new }
    {
        match self.fault.take() {
            Some(error) => error,
            None => ErrorKind::Other.into(),
        }
    }

    /// Counts what happened.
    fn note_news(&mut self, news: News)
        ensures { IsSiteUntouched self.old self.new }
    {
        self.desk.standing.note_news(news);
        self.desk.standing.note_grown(self.files.journal_length());
    }

    /// Writes a line for each event since the last call.
    fn report<L: Log>(&mut self, log: &L)
        ensures { IsSiteUntouched self.old self.new }
    {
        self.desk.standing.report(log);
    }
}
