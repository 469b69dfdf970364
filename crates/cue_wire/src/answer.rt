//! What a frame's body does to a site, and its reply.

ghost use Rattle.std.specs.Prelude.{◌≡◌, ◌≢◌, ◌++◌, ◌+◌, ◌<◌, ◌≤◌, [], List, ℕ, length};
ghost use Rattle.std.specs.Prelude.{vec_len, vec_capacity, OnOk, OnErr, IsOk, IfErr, IsErrAnd};
ghost use Rattle.cue_codec.specs.Decoding.{IsOtherStateVersion};
ghost use Rattle.cue_lattice.specs.Limits.{text_limit};
ghost use Rattle.cue_lattice.specs.Refusal.{memory};
ghost use Rattle.cue_wire.specs.Requests.{text, state, IsRequest, IsNoRequest};
ghost use Rattle.cue_wire.specs.Serving.{accepted_reply, refused_reply, IsRequestAnswered, Serves};

use crate::call::Call;
use crate::reply::{SHORT_REPLY, accept, refuse};
use crate::state_reply::add_state_reply;
use crate::text_reply::add_text_reply;
use crate::want::{memory_kind, want_of};
use cue_replica::{Kind, Memory, Refusal, Replica, SiteQuestion};
use std::alloc::Global;

/// Serves a frame's body, and adds the reply.
///
/// # Errors
///
/// `Memory`, and then the site is as before, and nothing is added.
pub fn answer(alloc: Global, site: &mut Replica, body: &[u8], out: &mut Vec<u8>) -> Result<(), Kind>
    ensures ok { OnOk result ((reply : List ℕ) × Serves body.now site.old site.new reply
        × (out.new.items ≡ out.old.items ++ reply)) }
    ensures err { IfErr result (λ kind. kind ≡ Kind.Memory) }
    ensures site { OnErr result (site.new ≡ site.old) }
    ensures out { OnErr result (out.new.items ≡ out.old.items) }
    // Where there is room for a short reply, one to bytes that want no memory is always added.
    ensures version { (bytes : List ℕ) → IsRequest body.now (state bytes) → IsOtherStateVersion bytes
        → vec_len out.old + SHORT_REPLY ≤ vec_capacity out.old → IsOk result }
    ensures long { (t : List ℕ) → IsRequest body.now (text t) → text_limit < length t
        → vec_len out.old + SHORT_REPLY ≤ vec_capacity out.old → IsOk result }
    ensures none { IsNoRequest body.now
        → vec_len out.old + SHORT_REPLY ≤ vec_capacity out.old → IsOk result }
{
    match Call::of(body) {
        None => refuse(out, Refusal::at(Kind::BadRequest, 0)).map_err(memory_kind),
        Some(Call::Text(text)) => {
            make_room(out)?;
            reply_to(out, site.submit(text))
        }
        Some(Call::State(bytes)) => {
            make_room(out)?;
            reply_to(out, site.take(bytes))
        }
        Some(Call::Ask(question)) => add_answer(alloc, question, site, out).map_err(memory_kind),
    }
}

/// The reply to what a site was handed, where there is room for it.
///
/// # Errors
///
/// `Memory`, only where the site wanted it.
fn reply_to(out: &mut Vec<u8>, taken: Result<(), Refusal>) -> Result<(), Kind>
    requires room { vec_len out.old + SHORT_REPLY ≤ vec_capacity out.old }
    ensures accepted { OnOk result (OnOk taken (out.new.items ≡ out.old.items ++ accepted_reply [])) }
    ensures refused { OnOk result (IfErr taken (λ why.
        (why ≢ memory) × (out.new.items ≡ out.old.items ++ refused_reply why))) }
    ensures err { OnErr result (IsErrAnd taken (λ why. why.kind ≡ Kind.Memory)
        × (out.new.items ≡ out.old.items)) }
    ensures kind { IfErr result (λ kind. kind ≡ Kind.Memory) }
{
    match taken {
        Ok(()) => accept(out, &[], &[]).map_err(memory_kind),
        Err(why) if why.kind == Kind::Memory => Err(why.kind),
        Err(why) => refuse(out, why).map_err(memory_kind),
    }
}

/// Makes room for a reply that says no more than whether something was accepted.
fn make_room(out: &mut Vec<u8>) -> Result<(), Kind>
    ensures room { OnOk result (vec_len out.new + SHORT_REPLY ≤ vec_capacity out.new) }
    ensures items { out.new.items ≡ out.old.items }
    ensures err { IfErr result (λ kind. kind ≡ Kind.Memory) }
    ensures ok { vec_len out.old + SHORT_REPLY ≤ vec_capacity out.old → IsOk result }
{
    out.try_reserve(SHORT_REPLY).map_err(want_of)
}

/// The reply to a question.
fn add_answer(
    alloc: Global,
    question: SiteQuestion,
    site: &Replica,
    out: &mut Vec<u8>,
) -> Result<(), Memory>
    ensures ok { OnOk result ((reply : List ℕ) × IsRequestAnswered question site.now reply
        × (out.new.items ≡ out.old.items ++ reply)) }
    ensures err { OnErr result (out.new.items ≡ out.old.items) }
{
    match question.as_text() {
        None => add_state_reply(site, out),
        Some(question) => add_text_reply(alloc, question, site, out),
    }
}
