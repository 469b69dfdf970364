//! Requests of layers, and their answers.
ghost use Rattle.std.specs.Prelude.{◌≢◌, OnOk, OnErr};
ghost use Rattle.http_server.specs.Response.{IsBlank};
ghost use Rattle.cue_layers_site.specs.Answering.{AnswersAs, AnswersLayers, PullsLayers};
ghost use Rattle.cue_layers_site.specs.Stores.{IsStoreSame};

use crate::access::WriteAccess;
use crate::answers::{answer_list, answer_text};
use crate::route::{LayersRoute, name_in};
use crate::store::LayersStore;
use crate::viewing::{answer_sync, answer_view};
use bytes::Bytes;
use cue_layers::{Layer, LayerKind, Layers, Memory, Replica};
use cue_service::answer_status;
use http::{Request, StatusCode};
use http_server::Response;
use sqlite_disk::Disk;
use std::str;

impl<D: Disk> LayersStore<D> {
    /// Answers a request. Where memory is wanting the answer is 507, and nothing changes.
    pub(crate) fn answer(
        &mut self,
        route: LayersRoute,
        commons: &Replica,
        access: WriteAccess,
        request: &Request<Bytes>,
        response: &mut Response,
    )
        requires { IsBlank response.old }
        ensures { AnswersLayers D.Disk.seen D.Disk.may_leave route commons.now access self.old request.now response.new self.new }
    {
        if let Ok(()) = self.answer_as(route, commons, access, request, response) {
            return;
        }
        response.clear();
        answer_status(response, StatusCode::INSUFFICIENT_STORAGE);
    }

    fn answer_as(
        &mut self,
        route: LayersRoute,
        commons: &Replica,
        access: WriteAccess,
        request: &Request<Bytes>,
        response: &mut Response,
    ) -> Result<(), Memory>
        requires { IsBlank response.old }
        ensures ok { OnOk result (AnswersAs D.Disk.seen D.Disk.may_leave route commons.now access self.old request.now response.new self.new) }
        ensures err { OnErr result (IsStoreSame D.Disk.seen D.Disk.may_leave self.old self.new) }
    {
        match route {
            LayersRoute::Put(kind) => self.answer_put(kind, commons, access, request, response),
            LayersRoute::Remove(kind) => self.answer_remove(kind, access, request, response),
            LayersRoute::Join => self.answer_join(access, request, response),
            LayersRoute::Names(kind) => {
                answer_list(self.alloc, kind, self.map.entries(), response)
            }
            LayersRoute::Show(kind) => self.show(kind, request, response),
            LayersRoute::View(question) => {
                answer_view(self.alloc, &self.map, commons, question, request, response)
            }
            LayersRoute::Sync => { answer_sync(self.alloc, &self.map, commons, request, response) }
        }
    }

    /// Answers with what a name says.
    fn show(
        &self,
        kind: LayerKind,
        request: &Request<Bytes>,
        response: &mut Response,
    ) -> Result<(), Memory>
        requires { IsBlank response.old }
        ensures { OnOk result (response.new.status ≢ 204) }
    {
        match self.layer_named(kind, request)? {
            Some(layer) => answer_text(self.alloc, layer, response),
            None => {
                answer_status(response, StatusCode::NOT_FOUND);
                Ok(())
            }
        }
    }

    /// The layer that a request names, where it says something.
    fn layer_named(
        &self,
        kind: LayerKind,
        request: &Request<Bytes>,
    ) -> Result<Option<&Layer>, Memory> {
        let Some(name) = name_in(self.alloc, kind, request)? else {
            return Ok(None);
        };
        let Ok(name) = str::from_utf8(&name) else {
            return Ok(None);
        };
        match self.map.get(kind, name) {
            Some(layer) if !layer.content.same(&Replica::new(self.alloc)) => Ok(Some(layer)),
            _ => Ok(None),
        }
    }

    /// Joins layers bytes of another site, unless the map has them already. Answers whether that went
    /// well.
    pub fn pull(&mut self, bytes: &[u8]) -> bool
        ensures { PullsLayers D.Disk.seen D.Disk.may_leave self.old bytes.now result self.new }
    {
        let Ok(map) = Layers::read(self.alloc, bytes) else {
            return false;
        };
        let Ok(change) = self.prepare_join(map) else {
            return false;
        };
        if change.next.same(&self.map) {
            return true;
        }
        self.apply(change).is_ok()
    }
}
