ghost use Rattle.std.specs.Prelude.{◌≡◌, [], ◌∷◌, codes, OnOk};
ghost use Rattle.http_server.specs.Response.{IsBlank};
ghost use Rattle.cue_service.specs.Statuses.{HasHead, plain_text, status_of_refusal, type_field};

use crate::responses::{answer_body, answer_tagged};
use bytes::Bytes;
use cue_lattice::{Kind, Memory, Refusal};
use cue_replica::SiteQuestion;
use http::{HeaderValue, StatusCode};
use http_server::Response;
use std::alloc::Global;
use std::io;

/// Answers that a piece is refused, by a line that says why.
pub(crate) fn answer_refusal(
    alloc: Global,
    why: Refusal,
    bytes: &[u8],
    response: &mut Response,
) -> Result<(), Memory>
    requires { IsBlank response.old }
    ensures { OnOk result (HasHead (status_of_refusal why.kind) (type_field plain_text ∷ []) response.new) }
{
    let line = refusal_line(alloc, why, bytes)?;
    let body = Bytes::from_string(line)?;
    answer_body(
        response,
        refusal_code(why.kind),
        "text/plain; charset=utf-8",
        body,
    )
}

/// Answers that the disk has no room for a piece, by a line that says why.
pub(crate) fn answer_no_room(
    alloc: Global,
    why: io::Error,
    response: &mut Response,
) -> Result<(), Memory>
    requires { IsBlank response.old }
    ensures { OnOk result (HasHead 507 (type_field plain_text ∷ []) response.new) }
{
    let line = format!(in alloc; "no room: {why}\n")?;
    let body = Bytes::from_string(line)?;
    let status = StatusCode::INSUFFICIENT_STORAGE;
    answer_body(response, status, "text/plain; charset=utf-8", body)
}

/// Answers that a piece is refused, since with it an answer would have more bytes than the limit.
pub(crate) fn answer_over_limit(
    alloc: Global,
    question: SiteQuestion,
    limit: usize,
    response: &mut Response,
) -> Result<(), Memory>
    requires { IsBlank response.old }
    ensures { OnOk result (HasHead 413 (type_field plain_text ∷ []) response.new) }
{
    let path = path_of(question);
    let line = format!(in alloc; "too large: with it {path} would have more than {limit} bytes\n")?;
    let body = Bytes::from_string(line)?;
    let status = StatusCode::PAYLOAD_TOO_LARGE;
    answer_body(response, status, "text/plain; charset=utf-8", body)
}

/// Answers that an answer about a table, which has this tag, has more bytes than the limit.
pub(crate) fn answer_not_given(
    alloc: Global,
    limit: usize,
    tag: HeaderValue,
    response: &mut Response,
) -> Result<(), Memory>
    requires { IsBlank response.old }
    ensures { OnOk result (HasHead 507 ((codes "etag", tag.bytes) ∷ type_field plain_text ∷ []) response.new) }
{
    let line = format!(in alloc; "too large: the answer has more than {limit} bytes\n")?;
    let body = Bytes::from_string(line)?;
    let status = StatusCode::INSUFFICIENT_STORAGE;
    let kind = HeaderValue::from_static("text/plain; charset=utf-8");
    answer_tagged(response, status, tag, kind, body)
}

/// Where the answer to a question is read.
pub(crate) fn path_of(question: SiteQuestion) -> &'static str {
    match question {
        SiteQuestion::Export => "/export",
        SiteQuestion::Print => "/print",
        SiteQuestion::Report => "/report",
        SiteQuestion::State => "/state",
    }
}

fn refusal_code(kind: Kind) -> StatusCode
    ensures { result ≡ status_of_refusal kind }
{
    match kind {
        Kind::TooLong => StatusCode::PAYLOAD_TOO_LARGE,
        Kind::Memory => StatusCode::INSUFFICIENT_STORAGE,
        _ => StatusCode::UNPROCESSABLE_ENTITY,
    }
}

/// A line that says why something is refused, and in a text the line and the column.
fn refusal_line(alloc: Global, why: Refusal, bytes: &[u8]) -> Result<String, Memory> {
    let (line, column) = position(bytes, why.place);
    let number = why.kind.number();
    let name = why.kind.name();
    let place = why.place;
    Ok(match why.kind {
        Kind::Version | Kind::NotState => format!(in alloc; "refused {number} {name}\n")?,
        Kind::LeftOut(form) => {
            format!(in alloc;
                "refused {number} {name} {form} at {place} (line {line}, column {column})\n"
            )?
        }
        _ => format!(in alloc;
            "refused {number} {name} at {place} (line {line}, column {column})\n"
        )?,
    })
}

/// The line and the column of a byte of a text, both from 1. The column counts bytes.
fn position(bytes: &[u8], place: u64) -> (u64, u64) {
    let mut line = 1u64;
    let mut column = 1u64;
    for (at, byte) in bytes.iter().enumerate() {
        if at as u64 >= place {
            return (line, column);
        }
        if *byte == b'\n' {
            line = line.saturating_add(1);
            column = 1;
        } else {
            column = column.saturating_add(1);
        }
    }
    (line, column)
}
