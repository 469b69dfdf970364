ghost use Rattle.std.specs.Prelude.{◌≡◌, [], OnOk};
ghost use Rattle.http_server.specs.Response.{IsBlank, fields_of};
ghost use Rattle.cue_doors.specs.Answers.{IsKeyAnswer};
ghost use Rattle.cue_doors.specs.Counts.{IsCounted};

use crate::doors::Doors;
use crate::keys::{KeyRefusal, Keys};
use bytes::Bytes;
use cue_rounds::{Gathers, News};
use http::{HeaderValue, Request, StatusCode, header};
use http_server::{Response, Settle};
use log::{Log, warn};
use std::alloc::{AllocError, Global};
use std::io;

/// How many requests were not let in for their token since the last report.
#[derive(Clone, Copy, Debug, Default, PartialEq, Eq)]
pub struct KeyRefusals {
    /// Those without a token that is known.
    pub unauthorized: u64,
    /// Writes of what a token that is known may not write.
    pub forbidden: u64,
}

impl KeyRefusals {
    fn count(&mut self, refusal: KeyRefusal)
        ensures { IsCounted refusal self.old self.new }
    {
        match refusal {
            KeyRefusal::Unauthorized => self.unauthorized = self.unauthorized.saturating_add(1),
            KeyRefusal::Forbidden => self.forbidden = self.forbidden.saturating_add(1),
        }
    }

    /// Writes a line for each kind of refusal since the last report.
    fn report<L: Log>(&mut self, log: &L) {
        if self.unauthorized > 0 {
            warn!(log; "{} requests without a known token", self.unauthorized);
        }
        if self.forbidden > 0 {
            warn!(log; "{} writes of a known token outside its patterns", self.forbidden);
        }
        *self = KeyRefusals::default();
    }
}

/// A service behind doors, for those who have a key.
#[derive(Drop)]
pub struct Guarded<S> {
    alloc: Global,
    pub(crate) doors: Doors,
    pub(crate) keys: Keys,
    pub(crate) refusals: KeyRefusals,
    pub(crate) inner: S,
}

impl<S> Guarded<S> {
    /// This service behind these doors, which these keys open.
    pub fn new(alloc: Global, doors: Doors, keys: Keys, inner: S) -> Guarded<S>
        ensures doors { result.doors ≡ doors }
        ensures keys { result.keys ≡ keys }
        ensures inner { result.inner ≡ inner }
    {
        Guarded {
            alloc,
            doors,
            keys,
            refusals: KeyRefusals::default(),
            inner,
        }
    }
}

/// Answers 403, with a line for the one who sent the request.
fn forbid(response: &mut Response, line: &'static [u8]) -> Result<(), AllocError>
    requires { IsBlank response.old }
    ensures status { OnOk result (response.new.status ≡ 403) }
    ensures fields { OnOk result (fields_of response.new ≡ []) }
{
    response.status = StatusCode::FORBIDDEN;
    response.body.push(Bytes::from_static(line))
}

/// Answers a request that is not let in for its token.
fn refuse(response: &mut Response, refusal: KeyRefusal) -> Result<(), AllocError>
    requires { IsBlank response.old }
    ensures { OnOk result (IsKeyAnswer refusal response.new) }
{
    match refusal {
        KeyRefusal::Unauthorized => {
            response.status = StatusCode::UNAUTHORIZED;
            response.add_header(header::WWW_AUTHENTICATE, HeaderValue::from_static("Bearer"))
        }
        KeyRefusal::Forbidden => forbid(response, b"this token may not write that\n"),
    }
}

impl<S: Settle> Settle for Guarded<S> {
    ghost use Rattle.cue_doors.specs.Guards.{ChangesInner, Guards};

    ghost answers = { Guards S.answers };

    ghost settles = { λ old verdict new. ChangesInner old new × S.settles old.inner verdict new.inner };

    fn call(
        &mut self,
        request: &Request<Bytes>,
        response: &mut Response,
    ) -> Result<(), AllocError> {
        if let Some(bar) = self.doors.bar(request) {
            return forbid(response, bar.line());
        }
        match self.keys.bar(self.alloc, request)? {
            None => self.inner.call(request, response),
            Some(refusal) => {
                refuse(response, refusal)?;
                self.refusals.count(refusal);
                Ok(())
            }
        }
    }

    fn settle(&mut self) -> bool {
        self.inner.settle()
    }
}

/// What peers bring, and what the loop asks, goes to the service behind.
impl<S: Gathers> Gathers for Guarded<S> {
    ghost use Rattle.cue_doors.specs.Guards.{ChangesInner, IsSameGuard};

    ghost pulls_state = { λ old bytes taken new.
        ChangesInner old new × S.pulls_state old.inner bytes taken new.inner };

    ghost pulls_pieces = { λ old bytes taken new.
        ChangesInner old new × S.pulls_pieces old.inner bytes taken new.inner };

    ghost pulls_layers = { λ old bytes taken new.
        ChangesInner old new × S.pulls_layers old.inner bytes taken new.inner };

    ghost rests = { λ old new. IsSameGuard old new × S.rests old.inner new.inner };

    fn pull_state(&mut self, bytes: &[u8]) -> bool {
        self.inner.pull_state(bytes)
    }

    fn pull_pieces(&mut self, bytes: &[u8]) -> bool {
        self.inner.pull_pieces(bytes)
    }

    fn has_layers(&self) -> bool {
        self.inner.has_layers()
    }

    fn pull_layers(&mut self, bytes: &[u8]) -> bool {
        self.inner.pull_layers(bytes)
    }

    fn patience(&self, request: &Request<Bytes>, response: &Response) -> Option<u64> {
        self.inner.patience(request, response)
    }

    fn edition(&mut self) -> u64 {
        self.inner.edition()
    }

    fn tag(&mut self) -> Option<HeaderValue> {
        self.inner.tag()
    }

    fn fault(&mut self) -> io::Error {
        self.inner.fault()
    }

    fn note_news(&mut self, news: News) {
        self.inner.note_news(news);
    }

    fn report<L: Log>(&mut self, log: &L) {
        self.refusals.report(log);
        self.inner.report(log);
    }
}
