ghost use Rattle.std.specs.Prelude.{◌≡◌, ◌<◌, ◌^◌, ◌++◌, [], ◌∷◌, ℕ, List, IfSome, IfNone, OnOk};
ghost use Rattle.cue_journal.specs.Cursors.{IsCursor, cursor_text};
ghost use Rattle.http_server.specs.Response.{IsBlank, fields_of};
ghost use Rattle.cue_service.specs.Requests.{AsksBehind};
ghost use Rattle.cue_service.specs.Listing.{AnswersWithPieces};
ghost use Rattle.cue_service.specs.Statuses.{place_field, place_fields};

use crate::responses::{answer_body, answer_status};
use bytes::Bytes;
use cue_journal::{PieceCursor, Pieces};
use cue_lattice::Memory;
use cue_replica::SiteQuestion;
use http::{HeaderName, HeaderValue, Request, StatusCode};
use http_server::Response;
use std::alloc::Global;

/// Names in a response the place behind all pieces that were accepted.
fn name_cursor(alloc: Global, pieces: &Pieces, response: &mut Response) -> Result<(), Memory>
    ensures named { OnOk result (fields_of response.new ≡ fields_of response.old
        ++ place_field pieces.now ∷ []) }
    ensures status { response.new.status ≡ response.old.status }
    ensures body { response.new.body ≡ response.old.body }
{
    let text = pieces.cursor().text(alloc)?;
    let value = HeaderValue::from_known_valid(Bytes::from_string(text)?);
    Ok(response.add_header(HeaderName::from_static("cuestore-pieces"), value)?)
}

/// Names that place in a response that tells the state.
pub(crate) fn name_with_state(
    alloc: Global,
    question: SiteQuestion,
    pieces: &Pieces,
    response: &mut Response,
) -> Result<(), Memory>
    ensures named { OnOk result (fields_of response.new
        ≡ fields_of response.old ++ place_fields question pieces.now) }
    ensures status { response.new.status ≡ response.old.status }
    ensures body { response.new.body ≡ response.old.body }
{
    match question {
        SiteQuestion::State => name_cursor(alloc, pieces, response),
        SiteQuestion::Export => Ok(()),
        SiteQuestion::Print => Ok(()),
        SiteQuestion::Report => Ok(()),
    }
}

/// The place behind which a request asks for pieces.
fn cursor_in(request: &Request<Bytes>) -> Option<PieceCursor>
    ensures some { IfSome result (λ cursor. (text : List ℕ) × AsksBehind text request.now
        × IsCursor text cursor.run cursor.count) }
    ensures none { IfNone result ((run count : ℕ) → run < 2 ^ 64 → count < 2 ^ 64
        → ¬ AsksBehind (cursor_text run count) request.now) }
{
    let query = request.uri().query()?;
    PieceCursor::read(query.strip_prefix("after=")?)
}

/// Answers with the pieces that were accepted behind the place that a request names.
pub(crate) fn answer_pieces(
    alloc: Global,
    pieces: &Pieces,
    request: &Request<Bytes>,
    response: &mut Response,
) -> Result<(), Memory>
    requires { IsBlank response.old }
    ensures { OnOk result (AnswersWithPieces pieces.now request.now response.new) }
{
    let Some(cursor) = cursor_in(request) else {
        answer_status(response, StatusCode::BAD_REQUEST);
        return Ok(());
    };
    let body = match pieces.blocks_behind(cursor)? {
        Some(body) => body,
        None => {
            answer_status(response, StatusCode::GONE);
            return Ok(());
        }
    };
    let kind = "application/octet-stream";
    answer_body(response, StatusCode::OK, kind, Bytes::from_vec(body)?)?;
    name_cursor(alloc, pieces, response)
}
