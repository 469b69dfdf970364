//! Requests that change the map.
ghost use Rattle.std.specs.Prelude.{◌≡◌, ◌⊎◌, [], ◌∷◌, IfErr, IfOk, OnErr, OnOk};
ghost use Rattle.http_server.specs.Response.{IsBlank};
ghost use Rattle.cue_layers.specs.Extracts.{IsExtract};
ghost use Rattle.cue_layers.specs.Layers.{key};
ghost use Rattle.cue_layers_site.specs.Answering.{Changes, IsBodyPut, IsJoinDone, IsPutDone};
ghost use Rattle.cue_layers_site.specs.Conditions.{IsMet};
ghost use Rattle.cue_layers_site.specs.Inner.Changes.{IsChangeOf, IsNameReason, IsReplaced};
ghost use Rattle.cue_layers_site.specs.Refusals.{IsAbsentName, IsJoinReason, IsPutReason, IsRemoveReason};
ghost use Rattle.cue_layers_site.specs.Requests.{IsNameIn};
ghost use Rattle.cue_layers_site.specs.Stores.{IsStoreSame};

use crate::access::WriteAccess;
use crate::answers::answer_change;
use crate::conditions::is_met;
use crate::fragments::piece_in;
use crate::refusal::{ChangeRefusal, answer_refusal};
use crate::route::name_in;
use crate::store::{LayersStore, MapChange};
use crate::viewing::check_view;
use bytes::Bytes;
use cue_layers::{LayerKind, Layers, LayersRefusal, Memory, Replica, bad_place};
use cue_service::answer_status;
use http::{Request, StatusCode};
use http_server::Response;
use sqlite_disk::Disk;
use std::alloc::{AllocError, Global};
use std::str;

/// Refuses who may not write.
fn check_access(access: WriteAccess) -> Result<(), ChangeRefusal>
    ensures granted { OnOk result (access ≡ WriteAccess.Granted) }
    ensures refused { IfErr result (IsJoinReason access) }
{
    match access {
        WriteAccess::Granted => Ok(()),
        WriteAccess::Unknown => Err(ChangeRefusal::Unknown),
        WriteAccess::Barred => Err(ChangeRefusal::Barred),
    }
}

/// The name in the path of a request, decoded.
fn read_name(
    alloc: Global,
    kind: LayerKind,
    request: &Request<Bytes>,
) -> Result<Vec<u8>, ChangeRefusal>
    ensures name { IfOk result (λ name. IsNameIn kind request.now name.items) }
    ensures refused { IfErr result IsNameReason }
{
    match name_in(alloc, kind, request)? {
        Some(name) => Ok(name),
        None => Err(ChangeRefusal::Layers(LayersRefusal::BadName(0))),
    }
}

/// A name of layers.
fn layer_name(name: &[u8]) -> Result<&str, ChangeRefusal>
    ensures name { IfOk result (λ text. text.now ≡ name.now) }
    ensures refused { IfErr result IsNameReason }
{
    if let Some(place) = bad_place(name) {
        return Err(ChangeRefusal::Layers(LayersRefusal::BadName(place as u64)));
    }
    match str::from_utf8(name) {
        Ok(text) => Ok(text),
        Err(_) => Err(ChangeRefusal::from(Memory::from(AllocError))),
    }
}

/// A name that a layer of a map has.
fn known_name<'n>(map: &Layers, kind: LayerKind, name: &'n [u8]) -> Result<&'n str, ChangeRefusal>
    ensures name { IfOk result (λ text. text.now ≡ name.now) }
    ensures refused { IfErr result (λ why. IsNameReason why
        ⊎ ((why ≡ ChangeRefusal.Absent) × IsAbsentName kind name.now map.now)) }
{
    if bad_place(name).is_some() {
        return Err(ChangeRefusal::Absent);
    }
    let Ok(text) = str::from_utf8(name) else {
        return Err(ChangeRefusal::from(Memory::from(AllocError)));
    };
    match map.get(kind, text) {
        Some(_) => Ok(text),
        None => Err(ChangeRefusal::Absent),
    }
}

/// Refuses a request that wants of the layer of a key what is not so.
fn check_met(
    alloc: Global,
    map: &Layers,
    kind: LayerKind,
    name: &str,
    request: &Request<Bytes>,
) -> Result<(), ChangeRefusal>
    ensures met { OnOk result (IsMet map.now kind name.now request.now) }
    ensures refused { IfErr result (λ why. IsNameReason why
        ⊎ ((why ≡ ChangeRefusal.Unmet) × ¬ IsMet map.now kind name.now request.now)) }
{
    if is_met(alloc, map, kind, name, request)? {
        return Ok(());
    }
    Err(ChangeRefusal::Unmet)
}

impl<D: Disk> LayersStore<D> {
    /// Answers a put.
    pub(crate) fn answer_put(
        &mut self,
        kind: LayerKind,
        commons: &Replica,
        access: WriteAccess,
        request: &Request<Bytes>,
        response: &mut Response,
    ) -> Result<(), Memory>
        requires { IsBlank response.old }
        ensures ok { OnOk result (Changes D.Disk.seen D.Disk.may_leave access (λ response new.
            IsBodyPut D.Disk.seen D.Disk.may_leave kind commons.now self.old request.now response new)
            (λ why. IsPutReason kind self.old.map access request.now why) self.old response.new self.new) }
        ensures err { OnErr result (IsStoreSame D.Disk.seen D.Disk.may_leave self.old self.new) }
    {
        match self.put_body(kind, commons, access, request, response) {
            Ok(()) => Ok(()),
            Err(why) => {
                response.clear();
                answer_refusal(self.alloc, why, response)
            }
        }
    }

    /// Puts what a request says in the place of what the owner of the name said, and answers that.
    fn put_body(
        &mut self,
        kind: LayerKind,
        commons: &Replica,
        access: WriteAccess,
        request: &Request<Bytes>,
        response: &mut Response,
    ) -> Result<(), ChangeRefusal>
        requires { IsBlank response.old }
        ensures granted { OnOk result (access ≡ WriteAccess.Granted) }
        ensures ok { OnOk result (IsBodyPut D.Disk.seen D.Disk.may_leave kind commons.now self.old request.now response.new self.new) }
        ensures refused { IfErr result (IsPutReason kind self.old.map access request.now) }
        ensures err { OnErr result (IsStoreSame D.Disk.seen D.Disk.may_leave self.old self.new) }
    {
        check_access(access)?;
        let bytes = read_name(self.alloc, kind, request)?;
        let name = layer_name(&bytes)?;
        check_met(self.alloc, &self.map, kind, name, request)?;
        let piece = piece_in(self.alloc, request.body().as_slice())?;
        let change = self.prepare_put(kind, name, &[piece])?;
        check_view(self.alloc, commons, &self.map, &change.next)?;
        self.finish_put(kind, name, change, response)
    }

    /// Answers with the tag of what a name says, and puts it there.
    fn finish_put(
        &mut self,
        kind: LayerKind,
        name: &str,
        change: MapChange,
        response: &mut Response,
    ) -> Result<(), ChangeRefusal>
        requires blank { IsBlank response.old }
        requires change { IsChangeOf self.old.map change }
        requires extract { IsExtract change.next (key kind name.now) change.more }
        ensures ok { OnOk result (IsReplaced D.Disk.seen D.Disk.may_leave kind name.now change.next self.old response.new self.new) }
        ensures refused { IfErr result IsNameReason }
        ensures err { OnErr result (IsStoreSame D.Disk.seen D.Disk.may_leave self.old self.new) }
    {
        answer_change(self.alloc, kind, name, &change, response)?;
        self.apply(change)
    }

    /// Answers a removal.
    pub(crate) fn answer_remove(
        &mut self,
        kind: LayerKind,
        access: WriteAccess,
        request: &Request<Bytes>,
        response: &mut Response,
    ) -> Result<(), Memory>
        requires { IsBlank response.old }
        ensures ok { OnOk result (Changes D.Disk.seen D.Disk.may_leave access (λ response new.
            IsPutDone D.Disk.seen D.Disk.may_leave kind [] self.old request.now response new)
            (λ why. IsRemoveReason kind self.old.map access request.now why) self.old response.new self.new) }
        ensures err { OnErr result (IsStoreSame D.Disk.seen D.Disk.may_leave self.old self.new) }
    {
        match self.remove_named(kind, access, request, response) {
            Ok(()) => Ok(()),
            Err(why) => {
                response.clear();
                answer_refusal(self.alloc, why, response)
            }
        }
    }

    /// Removes what the owner of a name said, and answers that.
    fn remove_named(
        &mut self,
        kind: LayerKind,
        access: WriteAccess,
        request: &Request<Bytes>,
        response: &mut Response,
    ) -> Result<(), ChangeRefusal>
        requires { IsBlank response.old }
        ensures granted { OnOk result (access ≡ WriteAccess.Granted) }
        ensures ok { OnOk result (IsPutDone D.Disk.seen D.Disk.may_leave kind [] self.old request.now response.new self.new) }
        ensures refused { IfErr result (IsRemoveReason kind self.old.map access request.now) }
        ensures err { OnErr result (IsStoreSame D.Disk.seen D.Disk.may_leave self.old self.new) }
    {
        check_access(access)?;
        let bytes = read_name(self.alloc, kind, request)?;
        let name = known_name(&self.map, kind, &bytes)?;
        check_met(self.alloc, &self.map, kind, name, request)?;
        let change = self.prepare_put(kind, name, &[])?;
        self.finish_put(kind, name, change, response)
    }

    /// Answers a map that is to be joined.
    pub(crate) fn answer_join(
        &mut self,
        access: WriteAccess,
        request: &Request<Bytes>,
        response: &mut Response,
    ) -> Result<(), Memory>
        requires { IsBlank response.old }
        ensures ok { OnOk result (Changes D.Disk.seen D.Disk.may_leave access (λ response new.
            IsJoinDone D.Disk.seen D.Disk.may_leave self.old request.now response new)
            (λ why. IsJoinReason access why) self.old response.new self.new) }
        ensures err { OnErr result (IsStoreSame D.Disk.seen D.Disk.may_leave self.old self.new) }
    {
        match self.join_body(access, request, response) {
            Ok(()) => Ok(()),
            Err(why) => {
                response.clear();
                answer_refusal(self.alloc, why, response)
            }
        }
    }

    /// Joins the map that a request brings, and answers that.
    fn join_body(
        &mut self,
        access: WriteAccess,
        request: &Request<Bytes>,
        response: &mut Response,
    ) -> Result<(), ChangeRefusal>
        requires { IsBlank response.old }
        ensures granted { OnOk result (access ≡ WriteAccess.Granted) }
        ensures ok { OnOk result (IsJoinDone D.Disk.seen D.Disk.may_leave self.old request.now response.new self.new) }
        ensures refused { IfErr result (IsJoinReason access) }
        ensures err { OnErr result (IsStoreSame D.Disk.seen D.Disk.may_leave self.old self.new) }
    {
        check_access(access)?;
        let map = Layers::read(self.alloc, request.body().as_slice())?;
        let change = self.prepare_join(map)?;
        self.apply(change)?;
        answer_status(response, StatusCode::NO_CONTENT);
        Ok(())
    }
}
