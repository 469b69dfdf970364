//! Answers that say no more than what is handed to them.
ghost use Rattle.std.specs.Prelude.{◌≡◌, [], ◌∷◌, codes, IsTrue, OnOk};
ghost use Rattle.http_header.specs.FieldValue.{is_visible_text};
ghost use Rattle.http_server.specs.Response.{IsBlank, IsResponse};

use bytes::Bytes;
use cue_lattice::Memory;
use http::{HeaderName, HeaderValue, StatusCode, header};
use http_server::Response;

/// Answers with a status alone.
pub fn answer_status(response: &mut Response, status: StatusCode)
    requires { IsBlank response.old }
    ensures { IsResponse status [] [] response.new }
{
    response.status = status;
}

/// Answers with a status and a field.
pub fn answer_field(
    response: &mut Response,
    status: StatusCode,
    name: HeaderName,
    text: &'static str,
) -> Result<(), Memory>
    requires blank { IsBlank response.old }
    requires visible { IsTrue (is_visible_text text.now) }
    ensures { OnOk result (IsResponse status ((name, text.now) ∷ []) [] response.new) }
{
    response.status = status;
    Ok(response.add_header(name, HeaderValue::from_static(text))?)
}

/// Answers with a body of some type.
pub fn answer_body(
    response: &mut Response,
    status: StatusCode,
    kind: &'static str,
    body: Bytes,
) -> Result<(), Memory>
    requires blank { IsBlank response.old }
    requires visible { IsTrue (is_visible_text kind.now) }
    ensures { OnOk result (IsResponse status ((codes "content-type", kind.now) ∷ []) body response.new) }
{
    response.status = status;
    response.add_header(header::CONTENT_TYPE, HeaderValue::from_static(kind))?;
    Ok(response.body.push(body)?)
}

/// Answers that one who asks has the table with this tag.
pub fn answer_unchanged(response: &mut Response, tag: HeaderValue) -> Result<(), Memory>
    requires { IsBlank response.old }
    ensures { OnOk result (IsResponse 304 ((codes "etag", tag.bytes) ∷ []) [] response.new) }
{
    response.status = StatusCode::NOT_MODIFIED;
    Ok(response.add_header(header::ETAG, tag)?)
}

/// Answers with the tag of a table, and a body of some type.
pub fn answer_tagged(
    response: &mut Response,
    status: StatusCode,
    tag: HeaderValue,
    kind: HeaderValue,
    body: Bytes,
) -> Result<(), Memory>
    requires { IsBlank response.old }
    ensures { OnOk result (IsResponse status
        ((codes "etag", tag.bytes) ∷ (codes "content-type", kind.bytes) ∷ []) body response.new) }
{
    response.status = status;
    response.add_header(header::ETAG, tag)?;
    response.add_header(header::CONTENT_TYPE, kind)?;
    Ok(response.body.push(body)?)
}
