ghost use Rattle.std.specs.Prelude.{◌≡◌, length, IfOk, OnOk, OnErr, true, false};
ghost use Rattle.cue_rounds.specs.Sending.{WritesWhatStands, RoundsWriteWhatStands};
ghost use Rattle.cue_rounds.specs.Standing.{AreEach, Changes, IsOpened, IsRound};

use crate::asked::add_pause;
use crate::peer::is_due;
use crate::peers::{Peers, Taking, take};
use crate::rounds::{Gathers, InRound, News};
use crate::runtime::{Runtime, SourceStream};
use crate::source::{PullSource, SourceFeeds, ask_commons, ask_layers};
use http_server::{Config, Settle};
use log::Log;
use std::alloc::{AllocError, Global};
use std::hash::RandomState;
use std::io;
use std::time::{Duration, Instant};

/// A wait for the system lasts no longer, in milliseconds.
const TICK: u64 = 250;

/// What one process takes on.
#[derive(Clone, Copy, Debug, PartialEq, Eq)]
pub struct Bounds {
    pub config: Config,
    /// A request has to be whole after this time, and an answer taken.
    pub idle: Duration,
    /// The most connections. More are closed as they come.
    pub most: usize,
    /// So many requests wait for a change at most. More are answered at once.
    pub waiting: usize,
    /// Each source is asked for its state each so long.
    pub every: Duration,
}

/// The loop between two waits.
#[derive(Drop)]
pub struct Loop<R: Runtime, S> {
    pub runtime: R,
    alloc: Global,
    peers: Peers<R::Client>,
    asked: Vec<SourceFeeds<R::Source>>,
    service: InRound<S>,
    bounds: Bounds,
    /// What came of taking connections last.
    taking: Taking,
    /// When one that the system refused is taken again.
    again: Instant,
    /// Something can go on without a wait.
    busy: bool,
    /// All rounds so far stand.
    stands: bool,
}

impl<R: Runtime + Drop, S: Settle + Gathers + Drop> Loop<R, S> {
    /// One without a connection, from this moment on.
    pub fn new(
        alloc: Global,
        runtime: R,
        keys: RandomState,
        bounds: Bounds,
        sources: &[PullSource],
        service: S,
        start: Instant,
    ) -> Result<Loop<R, S>, AllocError>
        ensures { IfOk result (λ state. (state.stands ≡ true) × (length state.asked.items ≡ length sources.now)) }
    {
        Ok(Loop {
            runtime,
            alloc,
            peers: Peers::new(alloc, keys, bounds, start),
            asked: ask_sources(alloc, sources, start, &bounds)?,
            service: InRound::new(alloc, service),
            bounds,
            taking: Taking::More,
            again: start,
            busy: true,
            stands: true,
        })
    }

    /// How long a wait for the system may last.
    pub fn wait(&self) -> Duration {
        if self.busy {
            Duration::ZERO
        } else {
            Duration::from_millis(TICK)
        }
    }

    /// A connection may wait at the listener.
    pub fn wake_listener(&mut self)
        ensures { self.new.stands ≡ self.old.stands }
    {
        self.taking = Taking::More;
    }

    /// The connection at this place may have something to read, or room to write.
    pub fn wake(&mut self, place: usize)
        ensures { self.new.stands ≡ self.old.stands }
    {
        self.peers.wake(place);
    }

    /// Writes a line for each event since the last call.
    pub fn report<L: Log>(&mut self, log: &L)
        ensures { self.new.stands ≡ self.old.stands }
    {
        self.service.inner.report(log);
    }

    /// Reads what has come, has it answered and settled, and then sends the answers. So many seconds
    /// have passed since the start.
    ///
    /// # Errors
    ///
    /// Why the round did not settle: nothing was sent.
    pub fn round(&mut self, now: Instant, seconds: u64) -> io::Result<()>
        // Behind a round that did not settle there is none.
        requires { self.old.stands ≡ true }
        ensures ok { OnOk result (IsRound S.Settle.answers (Changes S.Gathers.pulls_state S.Gathers.pulls_pieces S.Gathers.pulls_layers S.Gathers.rests)
            R.Client.written S.Settle.settles true
            self.old.service.inner self.new.service.inner self.old.peers.places.items self.new.peers.places.items) }
        ensures err { OnErr result (IsRound S.Settle.answers (Changes S.Gathers.pulls_state S.Gathers.pulls_pieces S.Gathers.pulls_layers S.Gathers.rests)
            R.Client.written S.Settle.settles false
            self.old.service.inner self.new.service.inner self.old.peers.places.items self.new.peers.places.items) }
        ensures goes_on { OnOk result (self.new.stands ≡ true) }
        ensures ends { OnErr result (self.new.stands ≡ false) }
    {
        self.service.inner.note_news(News::Now(seconds));
        self.take(now);
        self.ask(now);
        self.count();
        self.peers.end_overdue(now);
        self.peers.receive(&mut self.service, now);
        self.peers.answer_waiting(&mut self.service, now);
        // What does not stand must not be told, nor what follows it: a new start reads the files
        // again.
        if !self.service.inner.settle() {
            self.stands = false;
            return Err(self.service.inner.fault());
        }
        self.peers.send(now);
        self.busy = self.peers.close() || self.taking == Taking::More;
        Ok(())
    }

    /// Takes the connections that wait, where some may.
    fn take(&mut self, now: Instant)
        ensures opens { AreEach (IsOpened R.Client.written) self.old.peers.places.items self.new.peers.places.items }
        ensures service { self.new.service ≡ self.old.service }
        ensures stands { self.new.stands ≡ self.old.stands }
    {
        let is_due = match self.taking {
            Taking::All => false,
            Taking::More => true,
            Taking::Refused => is_due(now, self.again),
        };
        if is_due {
            self.taking = take(&mut self.runtime, &mut self.peers, now);
            self.again = add_pause(now, Duration::from_millis(TICK));
        }
    }

    /// Asks each source in turn, where it is time, and goes on with what was asked.
    fn ask(&mut self, now: Instant)
        ensures changes { Changes S.Gathers.pulls_state S.Gathers.pulls_pieces S.Gathers.pulls_layers S.Gathers.rests self.old.service.inner self.new.service.inner }
        ensures peers { self.new.peers ≡ self.old.peers }
        ensures stands { self.new.stands ≡ self.old.stands }
    {
        ask_all(
            &mut self.runtime,
            self.alloc,
            &mut self.asked,
            now,
            &self.bounds,
            &mut self.service.inner,
        );
    }

    /// Has the service note how many connections there are.
    fn count(&mut self)
        ensures changes { Changes S.Gathers.pulls_state S.Gathers.pulls_pieces S.Gathers.pulls_layers S.Gathers.rests self.old.service.inner self.new.service.inner }
        ensures peers { self.new.peers ≡ self.old.peers }
        ensures stands { self.new.stands ≡ self.old.stands }
    {
        let (open, waiting, turned_away) = self.peers.counts();
        self.service.inner.note_news(News::Connections {
            open,
            waiting,
            turned_away,
        });
    }
}

fn ask_sources<L: SourceStream + Drop>(
    alloc: Global,
    sources: &[PullSource],
    now: Instant,
    bounds: &Bounds,
) -> Result<Vec<SourceFeeds<L>>, AllocError>
    ensures { IfOk result (λ asked. length asked.items ≡ length sources.now) }
{
    let mut asked = Vec::new(alloc);
    for (number, source) in sources.iter().enumerate() {
        asked.push(SourceFeeds::new(alloc, number, source.clone()?, now, bounds))?;
    }
    Ok(asked)
}

/// Asks each source in turn, where it is time, and goes on with what was asked.
fn ask_all<R: Runtime, S: Gathers>(
    runtime: &mut R,
    alloc: Global,
    asked: &mut Vec<SourceFeeds<R::Source>>,
    now: Instant,
    bounds: &Bounds,
    service: &mut S,
)
    ensures { Changes S.pulls_state S.pulls_pieces S.pulls_layers S.rests service.old service.new }
{
    let has_layers = service.has_layers();
    for source in asked {
        ask_commons(runtime, alloc, source, now, bounds, service);
        ask_layers(runtime, alloc, source, has_layers, now, bounds, service);
    }
}

/// Over any number of rounds: all that was written to a client are answers of calls that stand, of its
/// connections one after the other.
///
/// It computes nothing: it states a law.
pub fn writes_what_stands<R: Runtime>()
    ensures { WritesWhatStands R.Client.written }
{}

/// Over any list of rounds, from a start without a connection: behind rounds that all stand, what was
/// written to each client are answers of calls that stand. In a round that does not stand nothing is
/// written.
///
/// It computes nothing: it states a law.
pub fn rounds_write_what_stands<R: Runtime, S: Settle + Gathers>()
    ensures { RoundsWriteWhatStands R.Client.written S.Settle.answers (Changes S.Gathers.pulls_state S.Gathers.pulls_pieces S.Gathers.pulls_layers S.Gathers.rests) S.Settle.settles }
{}
