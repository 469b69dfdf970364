ghost use Rattle.std.specs.Prelude.{◌≡◌, ◌↔◌, ◌⊎◌, IsTrue};
ghost use Rattle.cue_layers_site.specs.Answering.{PullsLayers};
ghost use Rattle.cue_layers_site.specs.Sites.{IsServedHere};

use crate::access::WriteAccess;
use crate::route::{LayersRoute, layers_route};
use crate::store::LayersStore;
use bytes::Bytes;
use cue_rounds::{Gathers, News};
use cue_service::ServesCommons;
use http::{HeaderValue, Request};
use http_server::{Response, Settle};
use log::Log;
use sqlite_disk::Disk;
use std::alloc::AllocError;
use std::io;

/// A service around that of the commons, with layers of its own.
#[derive(Drop)]
pub struct LayeredSite<S, D: Disk> {
    pub(crate) inner: S,
    pub(crate) store: LayersStore<D>,
}

impl<S, D: Disk> LayeredSite<S, D> {
    /// A service around that of the commons, with the layers of a store.
    pub fn new(inner: S, store: LayersStore<D>) -> LayeredSite<S, D>
        ensures inner { result.inner ≡ inner }
        ensures store { result.store ≡ store }
    {
        LayeredSite { inner, store }
    }

    /// Whether what a request asks for is answered here.
    fn is_own(&self, route: LayersRoute) -> bool
        ensures { IsTrue result ↔ IsServedHere route self.now.store.map }
    {
        match route {
            LayersRoute::View(_question) => self.store.map().entries().len() > 1,
            _ => true,
        }
    }
}

impl<S: ServesCommons, D: Disk> LayeredSite<S, D> {
    /// Whether who sent a request may write.
    fn access(&self, request: &Request<Bytes>) -> WriteAccess
        ensures { result ≡ WriteAccess.Granted → S.lets_write self.now.inner request.now }
    {
        if self.inner.may_write(request) {
            WriteAccess::Granted
        } else {
            WriteAccess::Unknown
        }
    }

    /// Joins layers bytes of another site. Answers whether that went well.
    pub fn pull_layers(&mut self, bytes: &[u8]) -> bool
        ensures inner { self.new.inner ≡ self.old.inner }
        ensures pulls { PullsLayers D.Disk.seen D.Disk.may_leave self.old.store bytes.now result self.new.store }
    {
        self.store.pull(bytes)
    }
}

impl<S: Settle + ServesCommons, D: Disk> Settle for LayeredSite<S, D> {
    ghost use Rattle.cue_layers_site.specs.Sites.{AnswersLayered, SettlesBoth};

    ghost answers = { AnswersLayered D.Disk.seen D.Disk.may_leave S.Settle.answers S.ServesCommons.commons S.ServesCommons.lets_write };

    ghost settles = { SettlesBoth D.Disk.seen D.Disk.may_leave S.Settle.settles };

    fn call(
        &mut self,
        request: &Request<Bytes>,
        response: &mut Response,
    ) -> Result<(), AllocError> {
        match layers_route(request) {
            Some(route) if self.is_own(route) => {
                let access = self.access(request);
                let commons = self.inner.commons();
                self.store.answer(route, commons, access, request, response);
                Ok(())
            }
            _ => self.inner.call(request, response),
        }
    }

    fn settle(&mut self) -> bool {
        let own = self.store.settle();
        let inside = self.inner.settle();
        own && inside
    }
}

impl<S: Gathers + ServesCommons, D: Disk> Gathers for LayeredSite<S, D> {
    ghost use Rattle.cue_layers_site.specs.Stores.{IsStoreStill};

    ghost pulls_state = { λ old bytes taken new.
        (new.store ≡ old.store) × S.Gathers.pulls_state old.inner bytes taken new.inner };

    ghost pulls_pieces = { λ old bytes taken new.
        (new.store ≡ old.store) × S.Gathers.pulls_pieces old.inner bytes taken new.inner };

    ghost pulls_layers = { λ old bytes taken new.
        (new.inner ≡ old.inner) × PullsLayers D.Disk.seen D.Disk.may_leave old.store bytes taken new.store };

    ghost rests = { λ old new. IsStoreStill old.store new.store × ((new.inner ≡ old.inner) ⊎ S.Gathers.rests old.inner new.inner) };

    fn pull_state(&mut self, bytes: &[u8]) -> bool {
        self.inner.pull_state(bytes)
    }

    fn pull_pieces(&mut self, bytes: &[u8]) -> bool {
        self.inner.pull_pieces(bytes)
    }

    fn has_layers(&self) -> bool {
        true
    }

    fn pull_layers(&mut self, bytes: &[u8]) -> bool {
        self.store.pull(bytes)
    }

    fn patience(&self, request: &Request<Bytes>, response: &Response) -> Option<u64> {
        self.inner.patience(request, response)
    }

    /// The number goes with that of the commons and with the changes of the map.
    fn edition(&mut self) -> u64 {
        self.inner.edition().wrapping_add(self.store.changes())
    }

    fn tag(&mut self) -> Option<HeaderValue> {
        self.inner.tag()
    }

    fn fault(&mut self) -> io::Error {
        match self.store.take_fault() {
            Some(error) => error,
            None => self.inner.fault(),
        }
    }

    fn note_news(&mut self, news: News) {
        self.inner.note_news(news);
    }

    fn report<L: Log>(&mut self, log: &L) {
        self.inner.report(log);
    }
}
