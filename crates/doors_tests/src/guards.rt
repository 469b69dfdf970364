//! A small service behind doors, for those who have a key.

use crate::token_files::OWNERS;
use bytes::{Buf, Bytes};
use cue_doors::{Doors, Guarded, Keys};
use cue_owners::Owners;
use cue_rounds::{Gathers, News};
use http::{HeaderValue, Request, StatusCode};
use http_server::{Response, Settle};
use log::sink::Memory;
use log::{Level, Log, Logged, info};
use std::alloc::{AllocError, Global};
use std::io;
use std::test::Fail;

/// Answers each request 204, and counts them.
#[derive(Drop)]
struct Counter {
    calls: u64,
}

impl Settle for Counter {
    ghost answers = { λ _ _ _ _. Unit {0} };

    ghost settles = { λ _ _ _. Unit {0} };

    fn call(
        &mut self,
        _request: &Request<Bytes>,
        response: &mut Response,
    ) -> Result<(), AllocError> {
        self.calls = self.calls.saturating_add(1);
        response.status = StatusCode::NO_CONTENT;
        Ok(())
    }

    fn settle(&mut self) -> bool {
        true
    }
}

impl Gathers for Counter {
    ghost pulls_state = { λ _ _ _ _. Unit {0} };

    ghost pulls_pieces = { λ _ _ _ _. Unit {0} };

    ghost pulls_layers = { λ _ _ _ _. Unit {0} };

    ghost rests = { λ _ _. Unit {0} };

    fn pull_state(&mut self, _bytes: &[u8]) -> bool {
        true
    }

    fn pull_pieces(&mut self, _bytes: &[u8]) -> bool {
        true
    }

    fn has_layers(&self) -> bool {
        false
    }

    fn pull_layers(&mut self, _bytes: &[u8]) -> bool {
        false
    }

    fn patience(&self, _request: &Request<Bytes>, _response: &Response) -> Option<u64> {
        None
    }

    fn edition(&mut self) -> u64 {
        self.calls
    }

    fn tag(&mut self) -> Option<HeaderValue> {
        None
    }

    fn fault(&mut self) -> io::Error {
        io::ErrorKind::Other.into()
    }

    fn note_news(&mut self, _news: News) {}

    /// Writes how many requests reached the service.
    fn report<L: Log>(&mut self, log: &L) {
        info!(log; "{} calls", self.calls);
    }
}

/// A small service at `localhost`, with these token files.
fn guarded(
    alloc: Global,
    writers: Option<&[u8]>,
    readers: Option<&[u8]>,
) -> Result<Guarded<Counter>, Fail> {
    let mut hosts = Vec::new(alloc);
    hosts.push(String::from_str(alloc, "localhost")?)?;
    let doors = Doors {
        hosts,
        any_address: false,
    };
    let keys = Keys {
        writers: owners_of(alloc, writers)?,
        readers: owners_of(alloc, readers)?,
    };
    Ok(Guarded::new(alloc, doors, keys, Counter { calls: 0 }))
}

fn owners_of(alloc: Global, text: Option<&[u8]>) -> Result<Option<Owners>, Fail> {
    match text {
        None => Ok(None),
        Some(text) => Ok(Some(Owners::read(alloc, text)?)),
    }
}

/// A method and a path, the field `Authorization` or none, and the status of the answer.
type Row = (&'static str, &'static str, u16);

/// Asks for a method and a path at a host.
fn ask(
    alloc: Global,
    service: &mut Guarded<Counter>,
    host: &str,
    row: &Row,
) -> Result<Response, Fail> {
    let (method, path) = row.0.split_once(' ').unwrap_or((row.0, ""));
    let mut request = Request::builder(alloc)
        .method(method)
        .uri(path)
        .header("host", host);
    if !row.1.is_empty() {
        request = request.header("authorization", row.1);
    }
    let request = request.body(Bytes::new())?;
    let mut response = Response::new(alloc);
    service.call(&request, &mut response)?;
    Ok(response)
}

/// Whether the field asks for a token where, and only where, the status is 401.
fn asks_for_token(response: &Response) -> bool {
    let asks = match response.headers.as_slice() {
        [(name, value)] => name.as_str() == "www-authenticate"
            && value.as_bytes() == b"Bearer".as_slice(),
        _ => false,
    };
    asks == (response.status == StatusCode::UNAUTHORIZED)
}

/// The first row that a service does not answer as it says, if there is one.
fn first_wrong(
    alloc: Global,
    service: &mut Guarded<Counter>,
    rows: &[Row],
) -> Result<Option<usize>, Fail> {
    for (i, row) in rows.iter().enumerate() {
        let response = ask(alloc, service, "localhost:8420", row)?;
        if response.status.as_u16() != row.2 || !asks_for_token(&response) {
            return Ok(Some(i));
        }
    }
    Ok(None)
}

const WEB: &str = "Bearer s3cret";

const SEC: &str = "bEaReR k3y";

const READER: &str = "Bearer r3ad";

/// Where writers alone are set. 14 of them are let in.
const WRITES: &[Row] = &[
    ("POST /fragments", "", 401),
    ("POST /fragments", "Bearer s3cre", 401),
    ("POST /fragments", "Bearer s3crett", 401),
    ("POST /fragments", WEB, 204),
    ("POST /fragments?dry-run", WEB, 204),
    ("POST /fragments?dry-run", "", 401),
    ("POST /state", WEB, 204),
    ("POST /fragments", SEC, 403),
    ("POST /state", SEC, 403),
    ("POST /sync", WEB, 403),
    ("POST /sync", SEC, 204),
    ("PUT /layers/web", WEB, 204),
    ("DELETE /layers/web", WEB, 204),
    ("DELETE /layers/web", SEC, 403),
    ("DELETE /layers/web", "", 401),
    ("PUT /layers/web%2Feu", WEB, 204),
    ("PUT /layers/%77eb", WEB, 204),
    ("PUT /layers/web2", WEB, 403),
    ("PUT /layers/web%32", WEB, 403),
    ("PUT /layers/WEB", WEB, 403),
    ("PUT /policies/tls", WEB, 403),
    ("PUT /policies/tls", SEC, 204),
    ("PUT /policies/tls?dry-run", SEC, 204),
    ("PUT /policies/web", WEB, 403),
    ("PUT /fragments", WEB, 403),
    ("DELETE /", WEB, 403),
    ("DELETE /", "", 401),
    ("OPTIONS /export", "", 401),
    ("GET /export", "", 204),
    ("HEAD /export", "", 204),
    ("GET /export", "Bearer none", 204),
    ("GET /healthz", "", 204),
];

/// Where readers are set, too. 8 of them are let in.
const READS: &[Row] = &[
    ("GET /export", "", 401),
    ("HEAD /export", "", 401),
    ("GET /export", "Bearer none", 401),
    ("HEAD /export", "Bearer r3a", 401),
    ("GET /healthzz", "", 401),
    ("GET /export", READER, 204),
    ("HEAD /export", READER, 204),
    ("GET /export", WEB, 204),
    ("HEAD /layers/other", SEC, 204),
    ("GET /healthz", "", 204),
    ("HEAD /readyz", "", 204),
    ("GET /healthz", "Bearer none", 204),
    ("POST /fragments", WEB, 204),
    ("POST /fragments", READER, 403),
    ("PUT /layers/web", READER, 403),
    ("DELETE /layers/web", READER, 403),
    ("POST /healthz", "", 401),
    ("POST /fragments", "", 401),
];

#[test]
fn writes_need_a_token_that_may(rt: HostRuntime) -> Result<(), Fail> {
    let sink = Memory::new(rt.alloc());
    let log = Logged::new(&rt, Level::Info, &sink);
    let mut service = guarded(rt.alloc(), Some(OWNERS), None)?;
    assert_eq!(rt; first_wrong(rt.alloc(), &mut service, WRITES)?, None);
    service.report(&log);
    service.report(&log);
    let expected = [
        "[WARN  cue_doors::guarded] 7 requests without a known token",
        "[WARN  cue_doors::guarded] 11 writes of a known token outside its patterns",
        "[INFO  doors_tests::guards] 14 calls",
        "[INFO  doors_tests::guards] 14 calls",
    ];
    let lines = sink.into_lines();
    assert_eq!(rt; lines.len(), expected.len());
    for (line, text) in lines.as_slice().iter().zip(&expected) {
        assert!(rt; line.as_str() == *text, "{line:?} is not {text:?}");
    }
    Ok(())
}

#[test]
fn reads_need_a_token_where_readers_are_set(rt: HostRuntime) -> Result<(), Fail> {
    let mut service = guarded(rt.alloc(), Some(OWNERS), Some(b"r3ad\n"))?;
    assert_eq!(rt; first_wrong(rt.alloc(), &mut service, READS)?, None);
    assert_eq!(rt; service.edition(), 8);
    Ok(())
}

#[test]
fn without_files_anybody_may(rt: HostRuntime) -> Result<(), Fail> {
    let mut service = guarded(rt.alloc(), None, None)?;
    let rows: [Row; 2] = [("POST /fragments", "", 204), ("GET /export", "", 204)];
    assert_eq!(rt; first_wrong(rt.alloc(), &mut service, &rows)?, None);
    let mut service = guarded(rt.alloc(), None, Some(b"r3ad"))?;
    let rows: [Row; 2] = [("POST /fragments", "", 204), ("GET /export", "", 401)];
    assert_eq!(rt; first_wrong(rt.alloc(), &mut service, &rows)?, None);
    assert!(rt; service.settle());
    Ok(())
}

#[test]
fn doors_come_first(rt: HostRuntime) -> Result<(), Fail> {
    let mut service = guarded(rt.alloc(), Some(OWNERS), Some(b"r3ad"))?;
    for authorization in ["", WEB] {
        let row: Row = ("POST /fragments", authorization, 403);
        let response = ask(rt.alloc(), &mut service, "evil.example", &row)?;
        assert_eq!(rt; response.status.as_u16(), 403);
        assert!(rt;
            response
                .body
                .chunk()
                .starts_with(b"this site does not answer")
        );
    }
    assert_eq!(rt; service.edition(), 0);
    Ok(())
}
