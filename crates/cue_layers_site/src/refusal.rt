//! Why a request that would change layers changes nothing, and how that is answered.
ghost use Rattle.std.specs.Prelude.{◌≡◌, ◌≢◌, [], ◌∷◌, string_bytes, IfOk, OnOk};
ghost use Rattle.http_server.specs.Response.{IsBlank, IsResponse};
ghost use Rattle.cue_service.specs.Statuses.{plain_text, status_of_refusal, type_field};
ghost use Rattle.cue_layers_site.specs.Refusals.{IsRefusalAnswer, reason_line as line_of_reason};
ghost use Rattle.cue_layers_site.specs.Statuses.{status_of_reason};

use bytes::Bytes;
use cue_lattice::Kind;
use cue_layers::{LayersRefusal, Memory};
use cue_service::{answer_body, answer_field, answer_status};
use http::{StatusCode, header};
use http_server::Response;
use std::alloc::Global;
use std::io;

/// Why a request that would change layers changes nothing.
#[derive(Clone, Copy, Debug)]
pub enum ChangeRefusal {
    /// Who sent it is not known: it has no token, or one that nobody has.
    Unknown,
    /// Who sent it may not write there.
    Barred,
    /// No layer has the name.
    Absent,
    /// What the request wants of the layer is not so.
    Unmet,
    /// What it brings is refused.
    Layers(LayersRefusal),
    /// The layers bytes have 4 GiB or more.
    TooLong,
    /// The disk has no room.
    NoRoom(io::Error),
}

impl From<LayersRefusal> for ChangeRefusal {
    ghost use Rattle.cue_layers_site.specs.declared.refusal.ChangeRefusal.TheVariants.{Layers};

    ghost from_gives = { λ why refusal. refusal ≡ Layers why };

    fn from(why: LayersRefusal) -> ChangeRefusal {
        ChangeRefusal::Layers(why)
    }
}

impl From<Memory> for ChangeRefusal {
    ghost use Rattle.cue_layers.specs.Refusals.{out_of_memory};
    ghost use Rattle.cue_layers_site.specs.declared.refusal.ChangeRefusal.TheVariants.{Layers};

    ghost from_gives = { λ _ refusal. refusal ≡ Layers out_of_memory };

    fn from(memory: Memory) -> ChangeRefusal {
        ChangeRefusal::Layers(LayersRefusal::from(memory))
    }
}

/// The status of a refusal.
fn reason_status(why: LayersRefusal) -> StatusCode
    ensures status { result ≡ status_of_reason why }
    ensures other { result ≢ 204 }
{
    match why {
        LayersRefusal::Store(why) => kind_status(why.kind),
        LayersRefusal::InPiece { index: _, why } => kind_status(why.kind),
        LayersRefusal::BadName(_) => StatusCode::BAD_REQUEST,
        LayersRefusal::RevisionsUsed => StatusCode::CONFLICT,
        LayersRefusal::ViewTooLarge => StatusCode::PAYLOAD_TOO_LARGE,
        LayersRefusal::NotLayers | LayersRefusal::NotWellFormed => StatusCode::UNPROCESSABLE_ENTITY,
    }
}

/// The status of a fault of a text or of state bytes.
fn kind_status(kind: Kind) -> StatusCode
    ensures status { result ≡ status_of_refusal kind }
    ensures other { result ≢ 204 }
{
    match kind {
        Kind::TooLong => StatusCode::PAYLOAD_TOO_LARGE,
        Kind::Memory => StatusCode::INSUFFICIENT_STORAGE,
        _ => StatusCode::UNPROCESSABLE_ENTITY,
    }
}

/// The line of a refusal: its number, its name and its place.
fn reason_line(alloc: Global, why: LayersRefusal) -> Result<String, Memory>
    ensures { IfOk result (λ line. string_bytes line ≡ line_of_reason why) }
{
    let (number, name, place) = (why.number(), why.name(), why.place());
    Ok(format!(in alloc; "refused {number} {name} at {place}\n")?)
}

/// Answers by a line of plain text.
fn answer_line(response: &mut Response, status: StatusCode, line: String) -> Result<(), Memory>
    requires { IsBlank response.old }
    ensures { OnOk result (IsResponse status (type_field plain_text ∷ []) (string_bytes line) response.new) }
{
    let body = Bytes::from_string(line)?;
    answer_body(response, status, "text/plain; charset=utf-8", body)
}

/// Answers why a map, a put or a view is refused, by a line.
pub(crate) fn answer_reason(
    alloc: Global,
    why: LayersRefusal,
    response: &mut Response,
) -> Result<(), Memory>
    requires { IsBlank response.old }
    ensures answer { OnOk result
        (IsResponse (status_of_reason why) (type_field plain_text ∷ []) (line_of_reason why) response.new) }
    ensures other { OnOk result (response.new.status ≢ 204) }
{
    let line = reason_line(alloc, why)?;
    answer_line(response, reason_status(why), line)
}

/// Answers why nothing changes.
pub(crate) fn answer_refusal(
    alloc: Global,
    why: ChangeRefusal,
    response: &mut Response,
) -> Result<(), Memory>
    requires { IsBlank response.old }
    ensures answer { OnOk result (IsRefusalAnswer why response.new) }
    ensures other { OnOk result (response.new.status ≢ 204) }
{
    match why {
        ChangeRefusal::Unknown => {
            let status = StatusCode::UNAUTHORIZED;
            answer_field(response, status, header::WWW_AUTHENTICATE, "Bearer")
        }
        ChangeRefusal::Barred => {
            answer_status(response, StatusCode::FORBIDDEN);
            Ok(())
        }
        ChangeRefusal::Absent => {
            answer_status(response, StatusCode::NOT_FOUND);
            Ok(())
        }
        ChangeRefusal::Unmet => {
            answer_status(response, StatusCode::PRECONDITION_FAILED);
            Ok(())
        }
        ChangeRefusal::Layers(why) => answer_reason(alloc, why, response),
        ChangeRefusal::TooLong => {
            let line = String::from_str(alloc, "too long: an entry has less than 4 GiB\n")?;
            answer_line(response, StatusCode::PAYLOAD_TOO_LARGE, line)
        }
        ChangeRefusal::NoRoom(error) => {
            let line = format!(in alloc; "no room: {error}\n")?;
            answer_line(response, StatusCode::INSUFFICIENT_STORAGE, line)
        }
    }
}
