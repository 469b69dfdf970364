ghost use Rattle.std.specs.Prelude.{◌≤◌, IfSome};

use bytes::Bytes;
use http::{Request, Version};
use std::alloc::{AllocError, Global};

/// No request waits longer for a change, in seconds.
const MOST_SECONDS: u64 = 3600;

/// What a request that waits for a change is asked as once there is one, and how many seconds it
/// waits at most.
#[derive(Drop)]
pub(crate) struct Wait {
    pub(crate) question: Vec<u8>,
    pub(crate) seconds: u64,
}

/// The fields that are asked again as they came.
const FIELDS: [&str; 4] = ["host", "authorization", "if-none-match", "connection"];

/// How a request waits. One of another form, or for which memory is wanting, waits for nothing.
pub(crate) fn wait_of_request(alloc: Global, request: &Request<Bytes>, seconds: u64) -> Option<Wait>
    ensures { IfSome result (λ wait. wait.seconds ≤ 3600) }
{
    if request.method().as_str() != "GET" || request.version() != Version::HTTP_11 {
        return None;
    }
    match question_of(alloc, request) {
        Ok(question) => Some(Wait {
            question,
            seconds: seconds.min(MOST_SECONDS),
        }),
        Err(_) => None,
    }
}

/// The request for the same that doesn't wait: its query has no `wait`.
fn question_of(alloc: Global, request: &Request<Bytes>) -> Result<Vec<u8>, AllocError> {
    let mut question = Vec::new(alloc);
    question.extend_from_slice(b"GET ")?;
    question.extend_from_slice(request.uri().path().as_bytes())?;
    push_query(&mut question, request.uri().query().unwrap_or(""))?;
    question.extend_from_slice(b" HTTP/1.1\r\n")?;
    for name in FIELDS {
        if let Some(value) = request.headers().get(name) {
            question.extend_from_slice(name.as_bytes())?;
            question.extend_from_slice(b": ")?;
            question.extend_from_slice(value.as_bytes())?;
            question.extend_from_slice(b"\r\n")?;
        }
    }
    question.extend_from_slice(b"\r\n")?;
    Ok(question)
}

/// Writes the parameters of a query but for `wait`.
fn push_query(question: &mut Vec<u8>, query: &str) -> Result<(), AllocError> {
    let mut mark = b'?';
    for parameter in query.split('&') {
        if parameter.is_empty() || parameter.starts_with("wait=") {
            continue;
        }
        question.push(mark)?;
        question.extend_from_slice(parameter.as_bytes())?;
        mark = b'&';
    }
    Ok(())
}
