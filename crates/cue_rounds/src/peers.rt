ghost use Rattle.std.specs.Prelude.{◌≡◌, ◌+◌, ◌≤◌, [], List, length, max};
ghost use Rattle.http_server.specs.Connection.{history};
ghost use Rattle.http_server.specs.Exchange.{Call, Chain};
ghost use Rattle.http_server.specs.History.{new_history};
ghost use Rattle.cue_rounds.specs.Standing.{AtPlace, Works, Lives, Sends, Each, AreEach, AreAtWork, IsBlank, IsOpened, IsClosed, Changes, Stays};

use crate::asked::add_pause;
use crate::event_loop::Bounds;
use crate::peer::{Peer, is_due};
use crate::rounds::{Gathers, InRound};
use crate::runtime::{Accepted, ClientStream, Runtime};
use crate::wait::Wait;
use http_server::{Connection, Settle};
use std::alloc::{AllocError, Global};
use std::hash::RandomState;
use std::mem;
use std::time::{Duration, Instant};

/// The most connections that are taken in one round.
const MOST_NEW: usize = 64;

/// Those whose time is over are looked for so often, in milliseconds.
const TICK: u64 = 250;

/// What came of taking the connections that wait.
#[derive(Clone, Copy, Debug, PartialEq, Eq)]
pub(crate) enum Taking {
    /// None waits: the listener wakes the loop when one does.
    All,
    /// More may wait.
    More,
    /// The system refused one that waits still, as where no descriptor is free.
    Refused,
}

/// Room for a connection.
#[derive(Drop)]
pub(crate) enum PeerSlot<T> {
    /// None is there. The next free place, where there is one.
    Free(Option<usize>),
    Taken(Peer<T>),
}

/// The connections, each at its place. A round looks at those alone that have something to do.
#[derive(Drop)]
pub(crate) struct Peers<T> {
    alloc: Global,
    keys: RandomState,
    bounds: Bounds,
    places: Vec<PeerSlot<T>>,
    free: Option<usize>,
    /// The places that are looked at in this round, and those of the next.
    listed: Vec<usize>,
    next: Vec<usize>,
    open: usize,
    /// So many of them wait for a change.
    waiting: usize,
    /// What the answers were when those that wait were last looked at.
    edition: u64,
    turned_away: u64,
    /// When those are looked for whose time is over.
    tick: Instant,
}

impl<T: ClientStream + Drop> Peers<T> {
    pub(crate) fn new(alloc: Global, keys: RandomState, bounds: Bounds, now: Instant) -> Peers<T>
        ensures { result.places.items ≡ [] }
    {
        Peers {
            alloc,
            keys,
            bounds,
            places: Vec::new(alloc),
            free: None,
            listed: Vec::new(alloc),
            next: Vec::new(alloc),
            open: 0,
            waiting: 0,
            edition: 0,
            turned_away: 0,
            tick: now,
        }
    }

    /// How many connections are open, how many of them wait for a change, and how many were turned
    /// away.
    pub(crate) fn counts(&self) -> (usize, usize, u64) {
        (self.open, self.waiting, self.turned_away)
    }

    /// Has the peer at this place looked at, for which the system woke the loop.
    #[tactic(auto, using(crate::proofs::Working::each_silent_join))]
    pub(crate) fn wake(&mut self, place: usize)
        ensures { Each (Works T.written) [] self.old.places.items self.new.places.items }
    {
        wake_at(&mut self.places, place);
        list_at(&mut self.places, &mut self.listed, place);
    }

    fn connection(&self) -> Connection
        ensures { history result ≡ new_history }
    {
        Connection::new(self.alloc, self.keys, self.bounds.config)
    }

    /// When a peer is cut off that does nothing from now on.
    fn patience(&self, now: Instant) -> Instant {
        add_pause(now, self.bounds.idle)
    }

    /// A place that is free, where there is one or one more may be made.
    #[tactic(auto, using(crate::proofs::Places::are_unopened))]
    fn free_place(&mut self) -> Option<usize>
        ensures opens { AreEach (IsOpened T.written) self.old.places.items self.new.places.items }
        ensures most { length self.new.places.items ≤ max (length self.old.places.items) self.old.bounds.most }
        ensures bounds { self.new.bounds ≡ self.old.bounds }
    {
        if self.free.is_some() || self.places.len() >= self.bounds.most {
            return self.free;
        }
        self.make_place();
        self.free
    }

    /// Makes one more place, and room in both lists for each place that there is, where there is
    /// memory.
    #[tactic(auto, using(crate::proofs::Places::are_unopened))]
    fn make_place(&mut self)
        ensures opens { AreEach (IsOpened T.written) self.old.places.items self.new.places.items }
        ensures most { length self.new.places.items ≤ length self.old.places.items + 1 }
        ensures bounds { self.new.bounds ≡ self.old.bounds }
    {
        let count = self.places.len().saturating_add(1);
        if reserve(&mut self.listed, &mut self.next, count).is_err() {
            return;
        }
        self.free = add_place(&mut self.places);
    }

    /// Puts a new connection at a place, if that is free. This round looks at it.
    #[tactic(auto, using(crate::proofs::Places::are_unopened))]
    fn put(&mut self, place: usize, stream: T, now: Instant)
        requires { T.written stream ≡ [] }
        ensures opens { AreEach (IsOpened T.written) self.old.places.items self.new.places.items }
        ensures same { length self.new.places.items ≡ length self.old.places.items }
        ensures bounds { self.new.bounds ≡ self.old.bounds }
    {
        if self.listed.push(place).is_err() {
            self.turned_away = self.turned_away.saturating_add(1);
            return;
        }
        let peer = Peer::new(stream, self.connection(), self.patience(now));
        self.free = put_at(&mut self.places, place, peer, self.free);
        self.open = self.open.saturating_add(1);
    }

    /// Looks for those whose time is over, now and then.
    #[tactic(auto, using(crate::proofs::Working::each_silent))]
    pub(crate) fn end_overdue(&mut self, now: Instant)
        ensures { Each (Works T.written) [] self.old.places.items self.new.places.items }
    {
        if !is_due(now, self.tick) {
            return;
        }
        self.tick = add_pause(now, Duration::from_millis(TICK));
        let until = self.patience(now);
        for place in 0..self.places.len() {
            let (tired, waits_no_more) = end_overdue_at(&mut self.places, place, now, until);
            list_where(&mut self.places, &mut self.listed, place, tired);
            self.waiting = count_waiting(self.waiting, waits_no_more, false);
        }
    }

    /// Reads from those that are ready, and has the service answer.
    pub(crate) fn receive<S: Settle + Gathers>(&mut self, service: &mut InRound<S>, now: Instant)
        ensures { AreAtWork S.Settle.answers (Changes S.Gathers.pulls_state S.Gathers.pulls_pieces S.Gathers.pulls_layers S.Gathers.rests)
            T.written service.old.inner service.new.inner self.old.places.items self.new.places.items }
    {
        self.waiting = receive_all(
            &mut self.places,
            &self.listed,
            service,
            now,
            self.waiting,
            self.bounds.waiting,
        );
    }

    /// Has those answered that wait for a change, where there is one.
    pub(crate) fn answer_waiting<S: Settle + Gathers>(
        &mut self,
        service: &mut InRound<S>,
        now: Instant,
    )
        ensures { AreAtWork S.Settle.answers (Changes S.Gathers.pulls_state S.Gathers.pulls_pieces S.Gathers.pulls_layers S.Gathers.rests)
            T.written service.old.inner service.new.inner self.old.places.items self.new.places.items }
    {
        if self.waiting == 0 {
            return;
        }
        let edition = service.inner.edition();
        if edition == self.edition {
            return;
        }
        self.edition = edition;
        self.ask_again(service, edition, self.patience(now));
    }

    /// Has those asked again that wait for another edition than this.
    fn ask_again<S: Settle + Gathers>(
        &mut self,
        service: &mut InRound<S>,
        edition: u64,
        until: Instant,
    )
        ensures { AreAtWork S.Settle.answers (Changes S.Gathers.pulls_state S.Gathers.pulls_pieces S.Gathers.pulls_layers S.Gathers.rests)
            T.written service.old.inner service.new.inner self.old.places.items self.new.places.items }
    {
        for place in 0..self.places.len() {
            let fresh = self.connection();
            let asked = ask_again_at(&mut self.places, place, service, edition, fresh, until);
            list_where(&mut self.places, &mut self.listed, place, asked);
            self.waiting = count_waiting(self.waiting, asked, false);
        }
    }

    /// Sends the answers, which stand.
    pub(crate) fn send(&mut self, now: Instant)
        ensures { Each (λ _. Sends T.written) [] self.old.places.items self.new.places.items }
    {
        let until = self.patience(now);
        send_all(&mut self.places, &self.listed, until);
    }

    /// Closes those that are over. Answers whether one of the others can go on at once: it is
    /// looked at in the next round too.
    pub(crate) fn close(&mut self) -> bool
        ensures { AreEach IsClosed self.old.places.items self.new.places.items }
    {
        self.next.clear();
        close_all(
            &mut self.places,
            &self.listed,
            &mut self.next,
            &mut self.free,
            &mut self.open,
            &mut self.waiting,
        );
        mem::swap(&mut self.listed, &mut self.next);
        !self.listed.is_empty()
    }
}

/// What comes of a connection at the end of a round.
#[derive(Clone, Copy, Debug, PartialEq, Eq)]
enum Closing {
    /// It is closed, and waited for a change or not.
    Gone(bool),
    Stays,
}

impl Closing {
    /// The next free place, where this one may be closed.
    fn free_then(self, place: usize, free: Option<usize>) -> Option<usize> {
        match self {
            Closing::Gone(_) => Some(place),
            Closing::Stays => free,
        }
    }

    /// How many are open, where so many were.
    fn open_then(self, open: usize) -> usize {
        match self {
            Closing::Gone(_) => open.saturating_sub(1),
            Closing::Stays => open,
        }
    }

    /// How many wait, where so many did.
    fn waiting_then(self, waiting: usize) -> usize {
        match self {
            Closing::Gone(waited) => count_waiting(waiting, waited, false),
            Closing::Stays => waiting,
        }
    }
}

/// Takes the connections that wait. Answers whether others wait still.
pub(crate) fn take<R: Runtime>(
    runtime: &mut R,
    peers: &mut Peers<R::Client>,
    now: Instant,
) -> Taking
    ensures { AreEach (IsOpened R.Client.written) peers.old.places.items peers.new.places.items }
{
    for _ in 0..MOST_NEW {
        match runtime.accept() {
            Accepted::Connection(stream) => add(runtime, peers, stream, now),
            Accepted::Empty => return Taking::All,
            Accepted::Refused => return Taking::Refused,
        }
    }
    Taking::More
}

/// A connection that finds no place is closed.
#[tactic(auto, using(crate::proofs::Places::are_opened_join))]
fn add<R: Runtime>(
    runtime: &mut R,
    peers: &mut Peers<R::Client>,
    mut stream: R::Client,
    now: Instant,
)
    requires { R.Client.written stream ≡ [] }
    ensures opens { AreEach (IsOpened R.Client.written) peers.old.places.items peers.new.places.items }
    ensures most { length peers.new.places.items ≤ max (length peers.old.places.items) peers.old.bounds.most }
    ensures bounds { peers.new.bounds ≡ peers.old.bounds }
{
    let Some(place) = peers.free_place() else {
        peers.turned_away = peers.turned_away.saturating_add(1);
        return;
    };
    if !runtime.watch(&mut stream, place) {
        return;
    }
    peers.put(place, stream, now);
}

/// Adds a free place, where there is memory.
#[tactic(auto, using(crate::proofs::Places::are_unopened, crate::proofs::Places::are_pushed))]
fn add_place<T: ClientStream + Drop>(places: &mut Vec<PeerSlot<T>>) -> Option<usize>
    ensures opens { AreEach (IsOpened T.written) places.old.items places.new.items }
    ensures most { length places.new.items ≤ length places.old.items + 1 }
{
    let place = places.len();
    match places.push(PeerSlot::Free(None)) {
        Ok(()) => Some(place),
        Err(_) => None,
    }
}

impl<T: ClientStream + Drop> PeerSlot<T> {
    /// Puts a peer here, if nobody is. Answers which is the next free place then.
    fn put(&mut self, peer: Peer<T>, free: Option<usize>) -> Option<usize>
        requires { IsBlank T.written peer }
        ensures { IsOpened T.written self.old self.new }
    {
        let next = match self {
            PeerSlot::Free(next) => *next,
            PeerSlot::Taken(_) => return free,
        };
        *self = PeerSlot::Taken(peer);
        next
    }

    /// The system woke the loop for the peer that is here.
    fn wake(&mut self)
        ensures { AtPlace (Works T.written) [] self.old self.new }
    {
        match self {
            PeerSlot::Taken(peer) => peer.wake(),
            PeerSlot::Free(_) => {}
        }
    }

    /// Has the peer that is here looked at.
    fn list(&mut self, listed: &mut Vec<usize>, place: usize)
        ensures { AtPlace (Works T.written) [] self.old self.new }
    {
        match self {
            PeerSlot::Taken(peer) => list(peer, listed, place),
            PeerSlot::Free(_) => {}
        }
    }

    /// Looks whether the time of the peer that is here is over. Answers whether it is, and whether the
    /// peer waited for a change, and waits no more.
    fn end_overdue(&mut self, now: Instant, until: Instant) -> (bool, bool)
        ensures { AtPlace (Works T.written) [] self.old self.new }
    {
        match self {
            PeerSlot::Taken(peer) => end_overdue(peer, now, until),
            PeerSlot::Free(_) => (false, false),
        }
    }

    /// Reads from the peer that is here, if it is ready, and has the service answer. Answers how many
    /// wait then, where so many did before, and so many may.
    fn receive<S: Settle + Gathers>(
        &mut self,
        service: &mut InRound<S>,
        now: Instant,
        waiting: usize,
        most: usize,
    ) -> usize
        ensures { (calls : List Call) × (called : S) × Chain S.Settle.answers service.old.inner calls called
            × Changes S.Gathers.pulls_state S.Gathers.pulls_pieces S.Gathers.pulls_layers S.Gathers.rests called service.new.inner
            × AtPlace (Lives T.written) calls self.old self.new }
    {
        match self {
            PeerSlot::Taken(peer) => receive(peer, service, now, waiting, most),
            PeerSlot::Free(_) => waiting,
        }
    }

    /// Has the peer that is here asked again, if it waits for another edition than this. Answers whether
    /// it was.
    fn ask_again<S: Settle + Gathers>(
        &mut self,
        service: &mut InRound<S>,
        edition: u64,
        fresh: Connection,
        until: Instant,
    ) -> bool
        requires { history fresh ≡ new_history }
        ensures { (calls : List Call) × Chain S.Settle.answers service.old.inner calls service.new.inner
            × AtPlace (Lives T.written) calls self.old self.new }
    {
        match self {
            PeerSlot::Taken(peer) => peer.ask_again(service, edition, fresh, until),
            PeerSlot::Free(_) => false,
        }
    }

    /// Sends to the peer that is here.
    fn send(&mut self, until: Instant)
        ensures { AtPlace (λ _. Sends T.written) [] self.old self.new }
    {
        match self {
            PeerSlot::Taken(peer) => peer.send(until),
            PeerSlot::Free(_) => {}
        }
    }

    /// Closes the peer that is here, if it is over: then this is free, with the next free place. One that
    /// stays and can go on at once is noted for the next round.
    fn close(&mut self, next: &mut Vec<usize>, place: usize, free: Option<usize>) -> Closing
        ensures { IsClosed self.old self.new }
    {
        let closing = match self {
            PeerSlot::Taken(peer) => close(peer, next, place),
            PeerSlot::Free(_) => return Closing::Stays,
        };
        if closing != Closing::Stays {
            *self = PeerSlot::Free(free);
        }
        closing
    }
}

/// Puts a peer at a place, if that is free. Answers which is the next free one then.
fn put_at<T: ClientStream + Drop>(
    places: &mut Vec<PeerSlot<T>>,
    place: usize,
    peer: Peer<T>,
    free: Option<usize>,
) -> Option<usize>
    requires { IsBlank T.written peer }
    ensures opens { AreEach (IsOpened T.written) places.old.items places.new.items }
    ensures same { length places.new.items ≡ length places.old.items }
{
    match places.get_mut(place) {
        Some(slot) => slot.put(peer, free),
        None => free,
    }
}

/// The system woke the loop for the peer at a place.
fn wake_at<T: ClientStream + Drop>(places: &mut Vec<PeerSlot<T>>, place: usize)
    ensures { Each (Works T.written) [] places.old.items places.new.items }
{
    if let Some(slot) = places.get_mut(place) {
        slot.wake();
    }
}

/// Has the peer at a place looked at.
fn list_at<T: ClientStream + Drop>(
    places: &mut Vec<PeerSlot<T>>,
    listed: &mut Vec<usize>,
    place: usize,
)
    ensures { Each (Works T.written) [] places.old.items places.new.items }
{
    if let Some(slot) = places.get_mut(place) {
        slot.list(listed, place);
    }
}

/// Has the peer at a place looked at, or not.
#[tactic(auto, using(crate::proofs::Working::each_silent))]
fn list_where<T: ClientStream + Drop>(
    places: &mut Vec<PeerSlot<T>>,
    listed: &mut Vec<usize>,
    place: usize,
    is_asked: bool,
)
    ensures { Each (Works T.written) [] places.old.items places.new.items }
{
    if !is_asked {
        return;
    }
    list_at(places, listed, place);
}

/// Notes a peer on a list, where there is memory.
fn list<T: ClientStream + Drop>(peer: &mut Peer<T>, listed: &mut Vec<usize>, place: usize)
    ensures { Stays peer.old peer.new }
{
    if !peer.list() {
        return;
    }
    if listed.push(place).is_ok() {
        return;
    }
    peer.unlist();
}

/// Looks whether the time of the peer at a place is over. Answers whether it is, and whether the peer
/// waited for a change, and waits no more.
fn end_overdue_at<T: ClientStream + Drop>(
    places: &mut Vec<PeerSlot<T>>,
    place: usize,
    now: Instant,
    until: Instant,
) -> (bool, bool)
    ensures { Each (Works T.written) [] places.old.items places.new.items }
{
    match places.get_mut(place) {
        Some(slot) => slot.end_overdue(now, until),
        None => (false, false),
    }
}

/// Looks whether a peer's time is over. Answers whether it is, and whether the peer waited for a change,
/// and waits no more.
fn end_overdue<T: ClientStream + Drop>(
    peer: &mut Peer<T>,
    now: Instant,
    until: Instant,
) -> (bool, bool)
    ensures { Works T.written [] peer.old peer.new }
{
    let waited = peer.is_waiting();
    let tired = peer.end_overdue(now, until);
    (tired, tired && waited)
}

/// Reads from the peer at a place, if it is ready, and has the service answer. Answers how many wait
/// then, where so many did before, and so many may.
fn receive_at<T: ClientStream + Drop, S: Settle + Gathers>(
    places: &mut Vec<PeerSlot<T>>,
    place: usize,
    service: &mut InRound<S>,
    now: Instant,
    waiting: usize,
    most: usize,
) -> usize
    ensures { AreAtWork S.Settle.answers (Changes S.Gathers.pulls_state S.Gathers.pulls_pieces S.Gathers.pulls_layers S.Gathers.rests)
        T.written service.old.inner service.new.inner places.old.items places.new.items }
{
    match places.get_mut(place) {
        Some(slot) => slot.receive(service, now, waiting, most),
        None => waiting,
    }
}

/// So of the peers at these places, one after the other.
fn receive_all<T: ClientStream + Drop, S: Settle + Gathers>(
    places: &mut Vec<PeerSlot<T>>,
    listed: &[usize],
    service: &mut InRound<S>,
    now: Instant,
    waiting: usize,
    most: usize,
) -> usize
    ensures { AreAtWork S.Settle.answers (Changes S.Gathers.pulls_state S.Gathers.pulls_pieces S.Gathers.pulls_layers S.Gathers.rests)
        T.written service.old.inner service.new.inner places.old.items places.new.items }
{
    let mut count = waiting;
    for place in listed {
        count = receive_at(places, *place, service, now, count, most);
    }
    count
}

/// Reads from a peer, if it is ready, and has the service answer. Answers how many wait then, where so
/// many did before, and so many may.
fn receive<T: ClientStream + Drop, S: Settle + Gathers>(
    peer: &mut Peer<T>,
    service: &mut InRound<S>,
    now: Instant,
    waiting: usize,
    most: usize,
) -> usize
    ensures { (calls : List Call) × (called : S) × Chain S.Settle.answers service.old.inner calls called
        × Changes S.Gathers.pulls_state S.Gathers.pulls_pieces S.Gathers.pulls_layers S.Gathers.rests called service.new.inner
        × Works T.written calls peer.old peer.new }
{
    let waited = peer.is_waiting();
    work(peer, service, now, waiting < most);
    count_waiting(waiting, waited, peer.is_waiting())
}

/// Reads from a peer, if it is ready, and has the service answer. The answer may be held back where
/// one more may wait.
fn work<T: ClientStream + Drop, S: Settle + Gathers>(
    peer: &mut Peer<T>,
    service: &mut InRound<S>,
    now: Instant,
    may_wait: bool,
)
    ensures { (calls : List Call) × (called : S) × Chain S.Settle.answers service.old.inner calls called
        × Changes S.Gathers.pulls_state S.Gathers.pulls_pieces S.Gathers.pulls_layers S.Gathers.rests called service.new.inner
        × Works T.written calls peer.old peer.new }
{
    if !peer.is_ready() {
        return;
    }
    peer.receive();
    if peer.is_waiting() {
        return;
    }
    let wait = peer.answer(service);
    hold(peer, service, now, wait, may_wait);
}

/// Has a peer wait, where it may.
fn hold<T: ClientStream + Drop, S: Gathers>(
    peer: &mut Peer<T>,
    service: &mut InRound<S>,
    now: Instant,
    wait: Option<Wait>,
    may_wait: bool,
)
    ensures changes { Changes S.pulls_state S.pulls_pieces S.pulls_layers S.rests service.old.inner service.new.inner }
    ensures connection { peer.new.connection ≡ peer.old.connection }
    ensures stream { peer.new.stream ≡ peer.old.stream }
{
    if !may_wait {
        return;
    }
    let Some(Wait { question, seconds }) = wait else {
        return;
    };
    let edition = service.inner.edition();
    peer.hold(
        question,
        edition,
        add_pause(now, Duration::from_secs(seconds)),
    );
}

/// Has the peer at a place asked again, if it waits for another edition than this. Answers whether it
/// was.
fn ask_again_at<T: ClientStream + Drop, S: Settle + Gathers>(
    places: &mut Vec<PeerSlot<T>>,
    place: usize,
    service: &mut InRound<S>,
    edition: u64,
    fresh: Connection,
    until: Instant,
) -> bool
    requires { history fresh ≡ new_history }
    ensures { AreAtWork S.Settle.answers (Changes S.Gathers.pulls_state S.Gathers.pulls_pieces S.Gathers.pulls_layers S.Gathers.rests)
        T.written service.old.inner service.new.inner places.old.items places.new.items }
{
    match places.get_mut(place) {
        Some(slot) => slot.ask_again(service, edition, fresh, until),
        None => false,
    }
}

/// Sends to the peer at a place.
fn send_at<T: ClientStream + Drop>(places: &mut Vec<PeerSlot<T>>, place: usize, until: Instant)
    ensures { Each (λ _. Sends T.written) [] places.old.items places.new.items }
{
    if let Some(slot) = places.get_mut(place) {
        slot.send(until);
    }
}

/// Sends to the peers at these places.
fn send_all<T: ClientStream + Drop>(places: &mut Vec<PeerSlot<T>>, listed: &[usize], until: Instant)
    ensures { Each (λ _. Sends T.written) [] places.old.items places.new.items }
{
    for place in listed {
        send_at(places, *place, until);
    }
}

/// Closes the peer at a place, if it is over: then the place is free, and this is the next free one.
/// One of the others that can go on at once is noted for the next round.
fn close_at<T: ClientStream + Drop>(
    places: &mut Vec<PeerSlot<T>>,
    next: &mut Vec<usize>,
    place: usize,
    free: Option<usize>,
) -> Closing
    ensures { AreEach IsClosed places.old.items places.new.items }
{
    match places.get_mut(place) {
        Some(slot) => slot.close(next, place, free),
        None => Closing::Stays,
    }
}

/// So of the peers at these places. Notes the next free place, and how many are open and wait then.
fn close_all<T: ClientStream + Drop>(
    places: &mut Vec<PeerSlot<T>>,
    listed: &[usize],
    next: &mut Vec<usize>,
    free: &mut Option<usize>,
    open: &mut usize,
    waiting: &mut usize,
)
    ensures { AreEach IsClosed places.old.items places.new.items }
{
    for place in listed {
        let closing = close_at(places, next, *place, *free);
        *free = closing.free_then(*place, *free);
        *open = closing.open_then(*open);
        *waiting = closing.waiting_then(*waiting);
    }
}

/// Takes a peer off the list. Where it stays and can go on at once it is noted for the next round.
fn close<T: ClientStream + Drop>(peer: &mut Peer<T>, next: &mut Vec<usize>, place: usize) -> Closing
    ensures { Stays peer.old peer.new }
{
    peer.unlist();
    if peer.is_over() {
        return Closing::Gone(peer.is_waiting());
    }
    if !peer.is_ready() {
        return Closing::Stays;
    }
    list(peer, next, place);
    Closing::Stays
}

/// Makes room for so many in both lists.
fn reserve(one: &mut Vec<usize>, other: &mut Vec<usize>, count: usize) -> Result<(), AllocError> {
    one.reserve(count)?;
    other.reserve(count)
}

/// How many wait, where one did so or not, and does so or not.
fn count_waiting(waiting: usize, waited: bool, waits: bool) -> usize {
    match (waited, waits) {
        (false, true) => waiting.saturating_add(1),
        (true, false) => waiting.saturating_sub(1),
        _ => waiting,
    }
}
