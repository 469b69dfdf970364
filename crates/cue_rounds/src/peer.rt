ghost use Rattle.std.specs.Prelude.{◌≡◌, ◌≢◌, ◌++◌, ◌≤◌, ◌⊎◌, ◌↔◌, ℕ, List, [], true, false, None, IfSome, IsTrue, IsSome};
ghost use Rattle.std.specs.Time.{instant_nanos};
ghost use Rattle.http_server.specs.Exchange.{Call, Chain};
ghost use Rattle.http_server.specs.Connection.{config_of, history};
ghost use Rattle.http_server.specs.History.{new_history};

use crate::rounds::{Gathers, InRound};
use crate::runtime::{ClientStream, StreamFault};
use crate::wait::Wait;
use http_server::{Connection, Settle};
use std::mem;
use std::time::Instant;

/// The most reads or writes of one peer in one round, so that a fast one does not keep the others.
const MOST_STEPS: usize = 16;

/// So many bytes of one peer are read in one round at most. What they ask for is answered in that
/// round, so that this bounds the calls too.
const MOST_READ: usize = 32 * 1024;

/// The answer of a peer that waits for a change is held back.
#[derive(Drop)]
pub(crate) struct HeldAnswer {
    /// What is asked in its place once there is a change.
    question: Vec<u8>,
    /// What the answers were as it began to wait.
    edition: u64,
}

/// One connection, and how long it may take.
#[derive(Drop)]
pub(crate) struct Peer<T> {
    stream: T,
    connection: Connection,
    /// The stream may have something to read.
    may_read: bool,
    /// The stream may have room to write.
    may_write: bool,
    /// What was received may be gone on with, since some of what waited was sent.
    goes_on: bool,
    /// The stream failed, or the peer was too slow.
    failed: bool,
    /// A read found the end.
    ended: bool,
    /// It is among those that are looked at in this round.
    listed: bool,
    held: Option<HeldAnswer>,
    /// When the peer is cut off, or no longer waits for a change.
    until: Instant,
}

impl<T: ClientStream> Peer<T> {
    ghost use Rattle.cue_rounds.specs.Standing.{Works, Restarts, Sends, Stays, IsBlank, WaitsSince};
    ghost use Rattle.cue_rounds.specs.Waits.{MayHold};

    /// One that has sent nothing, and to which nothing was written. It is on the list of this round.
    pub(crate) fn new(stream: T, connection: Connection, until: Instant) -> Peer<T>
        requires untold { T.written stream ≡ [] }
        requires blank { history connection ≡ new_history }
        ensures { IsBlank T.written result }
    {
        Peer {
            stream,
            connection,
            may_read: true,
            may_write: true,
            goes_on: false,
            failed: false,
            ended: false,
            listed: true,
            held: None,
            until,
        }
    }

    /// The stream may have something to read, and room to write.
    pub(crate) fn wake(&mut self)
        ensures read { self.new.may_read ≡ true }
        ensures write { self.new.may_write ≡ true }
        ensures stays { Stays self.old self.new }
    {
        self.may_read = true;
        self.may_write = true;
    }

    /// Whether something can be done for it without a wait.
    pub(crate) fn is_ready(&self) -> bool
        ensures blocked { self.now.goes_on ≡ false → self.now.may_read ≡ false
            → self.now.may_write ≡ false → result ≡ false }
    {
        self.goes_on
            || (self.may_read && (self.connection.wants_read() || self.held.is_some()))
            || self.can_send()
    }

    pub(crate) fn is_waiting(&self) -> bool
        ensures { IsTrue result ↔ IsSome self.now.held }
    {
        self.held.is_some()
    }

    /// Notes that it is looked at in this round. Answers whether it was not.
    pub(crate) fn list(&mut self) -> bool
        ensures stays { Stays self.old self.new }
    {
        !mem::replace(&mut self.listed, true)
    }

    pub(crate) fn unlist(&mut self)
        ensures stays { Stays self.old self.new }
    {
        self.listed = false;
    }

    /// Reads what has come, as far as the connection wants it, and up to a bound. One that waits for
    /// a change and sends more waits no longer; one that ends its stream is given up.
    pub(crate) fn receive(&mut self)
        ensures { Works T.written [] self.old self.new }
    {
        let mut room = MOST_READ;
        for _ in 0..MOST_STEPS {
            if room == 0 || !self.may_read {
                return;
            }
            match self.read(room) {
                Ok(0) => return,
                Ok(count) => room = room.saturating_sub(count),
                Err(fault) => self.stop_reading(fault),
            }
        }
    }

    /// A read failed so. Where it would block the system wakes the peer, and else it is over.
    fn stop_reading(&mut self, fault: StreamFault)
        ensures blocked { ¬ (fault ≡ StreamFault.Interrupted) → self.new.may_read ≡ false }
        ensures waits { ¬ (fault ≡ StreamFault.Broken) → self.new.failed ≡ self.old.failed }
        ensures over { fault ≡ StreamFault.Broken → self.new.failed ≡ true }
        ensures stays { Stays self.old self.new }
    {
        match fault {
            StreamFault::Interrupted => {}
            StreamFault::WouldBlock => self.may_read = false,
            StreamFault::Broken => {
                self.may_read = false;
                self.failed = true;
            }
        }
    }

    /// Reads once, at most so many bytes. Answers how many came of which more are wanted.
    fn read(&mut self, most: usize) -> Result<usize, StreamFault>
        ensures { Works T.written [] self.old self.new }
    {
        if self.held.is_none() && !self.connection.wants_read() {
            return Ok(0);
        }
        let count = self.read_or_skip(most)?;
        self.ended = count == 0;
        if self.held.is_none() {
            return Ok(count);
        }
        self.failed = self.ended;
        self.held = None;
        Ok(0)
    }

    /// Reads once what the connection wants. What else comes is of no use: a peer that waits asked to
    /// close behind its answer.
    fn read_or_skip(&mut self, most: usize) -> Result<usize, StreamFault>
        ensures { Works T.written [] self.old self.new }
    {
        if self.connection.wants_read() {
            return self.stream.fill(&mut self.connection, most);
        }
        self.stream.skip()
    }

    /// Has the service answer. Where the answer may be held back, answers how it waits.
    pub(crate) fn answer<S: Settle + Gathers>(&mut self, service: &mut InRound<S>) -> Option<Wait>
        ensures calls { (calls : List Call) × Chain S.Settle.answers service.old.inner calls service.new.inner
            × Works T.written calls self.old self.new × IfSome result (λ _. MayHold calls self.old.connection) }
        ensures held { self.new.held ≡ self.old.held }
    {
        let is_busy = self.connection.wants_write();
        service.begin();
        self.goes_on = false;
        self.connection.advance(service);
        if is_busy {
            return None;
        }
        service.take_wait()
    }

    /// Holds its answer back, until the edition is another one than this, or until a time. One that
    /// has ended its stream is given up.
    pub(crate) fn hold(&mut self, question: Vec<u8>, edition: u64, until: Instant)
        ensures connection { self.new.connection ≡ self.old.connection }
        ensures stream { self.new.stream ≡ self.old.stream }
        ensures until { (self.new.failed ≡ true) ⊎ (self.new.until ≡ until) }
        ensures edition { (self.new.failed ≡ true) ⊎ IfSome self.new.held (λ held. held.edition ≡ edition) }
    {
        if self.ended {
            self.failed = true;
            return;
        }
        self.held = Some(HeldAnswer { question, edition });
        self.until = until;
    }

    /// Where it waits and the answers are others, asks again, on a new connection that takes the
    /// place of the old one and goes on with what was read. Answers whether it asked.
    pub(crate) fn ask_again<S: Settle + Gathers>(
        &mut self,
        service: &mut InRound<S>,
        edition: u64,
        fresh: Connection,
        until: Instant,
    ) -> bool
        requires { history fresh ≡ new_history }
        ensures calls { (calls : List Call) × Chain S.Settle.answers service.old.inner calls service.new.inner
            × (Works T.written calls self.old self.new ⊎ Restarts T.written calls self.old self.new) }
        ensures asks { IsTrue result ↔ WaitsSince edition self.old.held }
        ensures told { IsTrue result → self.new.held ≡ None }
    {
        let Some(question) = self.question_since(edition) else {
            return false;
        };
        self.held = None;
        self.until = until;
        self.restart(service, &question, fresh);
        true
    }

    /// What is asked in the place of a held answer, where it waits for another edition than this.
    fn question_since(&mut self, edition: u64) -> Option<Vec<u8>>
        ensures asks { IsSome result ↔ WaitsSince edition self.old.held }
        ensures connection { self.new.connection ≡ self.old.connection }
        ensures stream { self.new.stream ≡ self.old.stream }
    {
        match &self.held {
            Some(held) if held.edition != edition => {}
            _ => return None,
        }
        let Some(HeldAnswer { question, .. }) = self.held.take() else {
            return None;
        };
        Some(question)
    }

    /// Asks this on a new connection, which goes on with what was read by the old one.
    fn restart<S: Settle + Gathers>(
        &mut self,
        service: &mut InRound<S>,
        question: &[u8],
        fresh: Connection,
    )
        requires { history fresh ≡ new_history }
        ensures calls { (calls : List Call) × Chain S.Settle.answers service.old.inner calls service.new.inner
            × Restarts T.written calls self.old self.new }
        ensures held { self.new.held ≡ self.old.held }
    {
        let old = mem::replace(&mut self.connection, fresh);
        let (rest, _) = old.into_buffers();
        let asked = feed(&mut self.connection, question);
        self.connection.advance(service);
        let fed = feed(&mut self.connection, rest.as_slice());
        self.failed = !asked || !fed;
        self.goes_on = true;
    }

    /// Whether something waits to be sent, and the stream may have room for it.
    pub(crate) fn can_send(&self) -> bool
        ensures room { result ≡ true → self.now.may_write ≡ true }
        ensures held { result ≡ true → self.now.held ≡ None }
    {
        self.may_write && !self.failed && self.held.is_none() && self.connection.wants_write()
    }

    /// Sends what waits, if it may. What a peer does not take stays. Once all is sent, the time of the
    /// next request begins.
    pub(crate) fn send(&mut self, until: Instant)
        ensures sends { Sends T.written self.old self.new }
        ensures held { self.new.held ≡ self.old.held }
    {
        if !self.can_send() {
            return;
        }
        // What stopped for what waits goes on in the next round, where some of that was sent.
        let stopped = !self.connection.wants_read();
        for _ in 0..MOST_STEPS {
            if !self.send_some(stopped, until) {
                return;
            }
        }
    }

    /// Writes once. Answers whether more may be written without a wait.
    fn send_some(&mut self, stopped: bool, until: Instant) -> bool
        ensures sends { Sends T.written self.old self.new }
        ensures held { self.new.held ≡ self.old.held }
    {
        if !self.connection.wants_write() {
            self.until = until;
            return false;
        }
        match self.drain() {
            Ok(0) => {
                self.stop_writing(StreamFault::Broken);
                false
            }
            Ok(_) => {
                self.goes_on = self.goes_on || stopped;
                true
            }
            Err(fault) => {
                self.stop_writing(fault);
                fault == StreamFault::Interrupted
            }
        }
    }

    /// Writes once. Answers how many bytes were written.
    fn drain(&mut self) -> Result<usize, StreamFault>
        ensures sends { Sends T.written self.old self.new }
        ensures held { self.new.held ≡ self.old.held }
    {
        self.stream.drain(&mut self.connection)
    }

    /// A write failed so. Where it would block the system wakes the peer, and else it is over.
    fn stop_writing(&mut self, fault: StreamFault)
        ensures blocked { ¬ (fault ≡ StreamFault.Interrupted) → self.new.may_write ≡ false }
        ensures waits { ¬ (fault ≡ StreamFault.Broken) → self.new.failed ≡ self.old.failed }
        ensures over { fault ≡ StreamFault.Broken → self.new.failed ≡ true }
        ensures stays { Stays self.old self.new }
    {
        match fault {
            StreamFault::Interrupted => {}
            StreamFault::WouldBlock => self.may_write = false,
            StreamFault::Broken => {
                self.may_write = false;
                self.failed = true;
            }
        }
    }

    /// Where its time is over: one that waits for a change is answered that there is none, and any
    /// other is cut off. Answers whether it was over.
    pub(crate) fn end_overdue(&mut self, now: Instant, until: Instant) -> bool
        ensures connection { self.new.connection ≡ self.old.connection }
        ensures stream { self.new.stream ≡ self.old.stream }
        ensures due { IsTrue result ↔ (instant_nanos self.old.until ≤ instant_nanos now) }
        ensures answered { IsTrue result → self.new.held ≡ None }
        ensures cut { IsTrue result → self.old.held ≡ None → self.new.failed ≡ true }
    {
        if !is_due(now, self.until) {
            return false;
        }
        if self.held.is_some() {
            self.held = None;
            self.until = until;
        } else {
            self.failed = true;
        }
        true
    }

    /// Whether nothing more is to be done for it.
    pub(crate) fn is_over(&self) -> bool {
        self.failed || self.connection.is_done()
    }
}

/// Whether this moment has come.
pub(crate) fn is_due(now: Instant, moment: Instant) -> bool
    ensures { IsTrue result ↔ (instant_nanos moment ≤ instant_nanos now) }
{
    now.checked_duration_since(moment).is_some()
}

/// Has the connection read all of these bytes. Answers whether it did.
fn feed(connection: &mut Connection, bytes: &[u8]) -> bool
    ensures config { config_of connection.new ≡ config_of connection.old }
    ensures calls { (history connection.new).calls ≡ (history connection.old).calls }
    ensures sent { (history connection.new).sent ≡ (history connection.old).sent }
    ensures received { (more lost : List ℕ) × (bytes.now ≡ more ++ lost)
        × ((history connection.new).received ≡ (history connection.old).received ++ more)
        × (IsTrue result → lost ≡ []) }
{
    let mut rest = bytes;
    for _ in 0..bytes.len() {
        if rest.is_empty() {
            return true;
        }
        if connection.read_from(&mut rest).is_err() {
            return false;
        }
    }
    rest.is_empty()
}
