ghost use Rattle.cue_service.specs.Requests.{IsRoute};
ghost use Rattle.cue_service.specs.Inner.Routes.{IsReadAt, IsWrittenAt};

use bytes::Bytes;
use cue_replica::SiteQuestion;
use http::Request;

/// What is handed in.
#[derive(Clone, Copy, Debug, PartialEq, Eq)]
pub enum PieceKind {
    Text,
    State,
}

/// What a request asks for.
#[derive(Clone, Copy, Debug, PartialEq, Eq)]
pub enum Route {
    /// A question about the table.
    Ask(SiteQuestion),
    /// The pieces that were accepted behind a place.
    Pieces,
    /// To accept the body.
    Take(PieceKind),
    /// Whether the process is alive.
    Health,
    /// The counts.
    Metrics,
    /// What a person reads.
    Page,
    /// A path with another method.
    OtherMethod,
    Unknown,
}

#[tactic(auto, using(crate::proofs::Routes::reads, crate::proofs::Routes::writes))]
pub(crate) fn route_of(request: &Request<Bytes>) -> Route
    ensures { IsRoute result request.now }
{
    let path = request.uri().path();
    match request.method().as_str() {
        "GET" => route_at(path),
        "HEAD" => route_at(path),
        "POST" => taken_at(path),
        _ => Route::OtherMethod,
    }
}

fn route_at(path: &str) -> Route
    ensures { IsReadAt result path.now }
{
    match path {
        "/export" => Route::Ask(SiteQuestion::Export),
        "/print" => Route::Ask(SiteQuestion::Print),
        "/report" => Route::Ask(SiteQuestion::Report),
        "/state" => Route::Ask(SiteQuestion::State),
        "/pieces" => Route::Pieces,
        "/healthz" => Route::Health,
        "/metrics" => Route::Metrics,
        "/" => Route::Page,
        _ => Route::Unknown,
    }
}

fn taken_at(path: &str) -> Route
    ensures { IsWrittenAt result path.now }
{
    match path {
        "/fragments" => Route::Take(PieceKind::Text),
        "/state" => Route::Take(PieceKind::State),
        _ => Route::Unknown,
    }
}

/// The seconds that a query tells as `wait=SECONDS`.
pub(crate) fn seconds_in(query: &str) -> Option<u64> {
    for part in query.split('&') {
        if let Some(seconds) = part.strip_prefix("wait=") {
            return seconds.parse::<u64>().ok();
        }
    }
    None
}
