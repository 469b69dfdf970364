ghost use Rattle.std.specs.Prelude.{◌≡◌, ◌≤◌, ℕ, Bool, List, Some, None, IfSome};
ghost use Rattle.http.specs.declared.request.Request.{Request};
ghost use Rattle.http_server.specs.declared.response.Response.{Response};

use crate::failure::SourceFailure;
use crate::wait::{Wait, wait_of_request};
use bytes::Bytes;
use http::{HeaderValue, Request};
use http_server::{Response, Service, Settle};
use log::Log;
use std::alloc::{AllocError, Global};
use std::io;

/// What the loop tells the site of, for what it answers of itself. Times are in seconds since the
/// start.
#[derive(Clone, Copy, Debug, PartialEq, Eq)]
pub enum News {
    /// So many connections are open now, so many of them wait for a change, and so many were turned
    /// away so far.
    Connections {
        open: usize,
        waiting: usize,
        turned_away: u64,
    },
    /// The time.
    Now(u64),
    /// The source with this number answered.
    Answered(usize),
    /// The source with this number could not be asked, or gave no answer that was taken, and why.
    Failed(usize, SourceFailure),
    /// No request can carry the tag of the source with this number, so it is forgotten.
    Forgotten(usize),
    /// The source with this number answered the question for its layers, or said that it has none.
    LayersAnswered(usize),
    /// The source with this number could not be asked for its layers, or gave no answer that was
    /// taken, and why.
    LayersFailed(usize, SourceFailure),
}

/// What takes the states of other sites, and tells when its answers are others.
pub trait Gathers {
    // From the first state, the bytes of a state were taken or not, and this is the second state.
    ghost pulls_state: { Self → List ℕ → Bool → Self → Type 0 };

    // So of the bytes of pieces.
    ghost pulls_pieces: { Self → List ℕ → Bool → Self → Type 0 };

    // So of layers bytes.
    ghost pulls_layers: { Self → List ℕ → Bool → Self → Type 0 };

    // What is answered and what is kept are the same.
    ghost rests: { Self → Self → Type 0 };

    /// Takes what a state brings, or nothing of it. Answers whether it was taken, or brought
    /// nothing.
    fn pull_state(&mut self, bytes: &[u8]) -> bool
        ensures { pulls_state self.old bytes.now result self.new };

    /// Takes what pieces bring that another site accepted, one after the other, and passes over
    /// what is refused. Answers whether the bytes were those of pieces, and memory sufficed.
    fn pull_pieces(&mut self, bytes: &[u8]) -> bool
        ensures { pulls_pieces self.old bytes.now result self.new };

    /// Whether the service keeps layers, so that other sites are asked for theirs.
    fn has_layers(&self) -> bool;

    /// Joins layers bytes of another site, or nothing of them. Answers whether they were joined, or
    /// brought nothing.
    fn pull_layers(&mut self, bytes: &[u8]) -> bool
        ensures { pulls_layers self.old bytes.now result self.new };

    /// How many seconds the one who asks waits for a change, where this response has nothing new
    /// for it, and it is to be held back so long.
    fn patience(&self, request: &Request<Bytes>, response: &Response) -> Option<u64>
        // Only an answer that nothing is new waits.
        ensures { IfSome result (λ _. response.now.status ≡ 304) };

    /// A number that is another one as soon as the answers are others.
    fn edition(&mut self) -> u64
        ensures { rests self.old self.new };

    /// The tag of the state that is had, where memory suffices for it.
    fn tag(&mut self) -> Option<HeaderValue>
        ensures { rests self.old self.new };

    /// Why the last `settle` failed.
    fn fault(&mut self) -> io::Error
        ensures { rests self.old self.new };

    /// Hears what happened.
    fn note_news(&mut self, news: News)
        ensures { rests self.old self.new };

    /// Writes a line for each event since the last call.
    fn report<L: Log>(&mut self, log: &L)
        ensures { rests self.old self.new };
}

/// A service that answers in rounds, between two of its `settle`s. What it answers must not be sent
/// before the next of them says that it stands.
#[derive(Drop)]
pub struct InRound<S> {
    pub inner: S,
    alloc: Global,
    /// So many calls were made since the last `begin`.
    calls: u64,
    /// Whether the last of them may wait.
    wait: Option<Wait>,
}

impl<S> InRound<S> {
    pub(crate) fn new(alloc: Global, inner: S) -> InRound<S>
        ensures { result.inner ≡ inner }
    {
        InRound {
            inner,
            alloc,
            calls: 0,
            wait: None,
        }
    }

    /// Forgets the calls so far.
    pub(crate) fn begin(&mut self)
        ensures inner { self.new.inner ≡ self.old.inner }
        ensures calls { self.new.calls ≡ 0 }
        ensures wait { self.new.wait ≡ None }
    {
        self.calls = 0;
        self.wait = None;
    }

    /// How the request waits that was answered since, where it was the only one.
    pub(crate) fn take_wait(&mut self) -> Option<Wait>
        ensures inner { self.new.inner ≡ self.old.inner }
        ensures one { IfSome result (λ wait. (self.old.calls ≡ 1) × (self.old.wait ≡ Some wait)) }
    {
        if self.calls == 1 {
            self.wait.take()
        } else {
            None
        }
    }
}

/// How one waits who gets this response to this request, where nothing is new for it.
fn wait_of<S: Gathers>(
    service: &S,
    alloc: Global,
    request: &Request<Bytes>,
    response: &Response,
) -> Option<Wait>
    ensures { IfSome result (λ wait. (response.now.status ≡ 304) × (wait.seconds ≤ 3600)) }
{
    let seconds = service.patience(request, response)?;
    let wait = wait_of_request(alloc, request, seconds)?;
    Some(wait)
}

impl<S: Settle + Gathers> Service for InRound<S> {
    ghost use Rattle.cue_rounds.specs.Waits.{IsCounted};

    ghost answers = { IsCounted S.Settle.answers };

    fn call(
        &mut self,
        request: &Request<Bytes>,
        response: &mut Response,
    ) -> Result<(), AllocError> {
        self.inner.call(request, response)?;
        self.calls = self.calls.saturating_add(1);
        self.wait = wait_of(&self.inner, self.alloc, request, response);
        Ok(())
    }
}
