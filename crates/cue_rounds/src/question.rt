ghost use Rattle.std.specs.Prelude.{◌≡◌, ◌≤◌, ◌++◌, length, IfOk, OnOk};
ghost use Rattle.cue_rounds.specs.Feeds.{subject_of};

use crate::failure::SourceFailure;
use crate::peer::is_due;
use crate::runtime::{SourceStream, StreamFault};
use crate::source::PullSource;
use cue_journal::PieceCursor;
use http1::{BodySize, Client, Event, Header, Limits};
use httparse::spans::{EMPTY_HEADER_SPAN, HeaderSpan};
use std::alloc::{AllocError, Global};
use std::str;
use std::time::Instant;

/// No answer of a source is longer.
const MOST_BYTES: usize = 64 * 1024 * 1024;

const MOST_FIELDS: usize = 32;

const MOST_STEPS: usize = 64;

const PIECE: usize = 16 * 1024;

/// How far a question to a source is.
#[derive(Clone, Copy, Debug, PartialEq, Eq)]
pub(crate) enum Course {
    Waiting,
    Answered,
    Failed(SourceFailure),
}

/// What a source is asked for.
#[derive(Clone, Copy, Debug, PartialEq, Eq)]
pub(crate) enum Wanted<'a> {
    /// Its state, unless it is the one with this tag.
    State(&'a [u8]),
    /// The pieces that it accepted behind this place.
    Pieces(PieceCursor),
    /// The layers bytes of its map, unless it is the one with this tag.
    Layers(&'a [u8]),
}

impl<'a> Wanted<'a> {
    /// What kind of answer is asked for.
    pub(crate) fn subject(self) -> Subject
        ensures { result ≡ subject_of self.entry }
    {
        match self {
            Wanted::State(_) => Subject::State,
            Wanted::Pieces(_) => Subject::Pieces,
            Wanted::Layers(_) => Subject::Layers,
        }
    }
}

/// What kind of answer is asked for.
#[derive(Clone, Copy, Debug, PartialEq, Eq)]
pub(crate) enum Subject {
    State,
    Pieces,
    Layers,
}

/// What a source answered.
#[derive(Clone, Copy, Debug, PartialEq, Eq)]
pub(crate) enum SourceAnswer {
    /// What was asked for, as the body.
    Whole,
    /// What was asked for is the one that was asked about.
    Same,
    /// It doesn't have the pieces that were asked for, or its answer for them can't be used.
    Gone,
    /// It has no layers.
    Layerless,
    /// It refuses a question that waits.
    Impatient,
    /// Nothing that can be used, and why.
    Failed(SourceFailure),
}

impl SourceAnswer {
    /// What a whole answer with this status says of what was asked for, by a question that waits or
    /// not.
    fn of_status(subject: Subject, waits: bool, status: u16) -> SourceAnswer
        // Where it is of no use, the status is told.
        ensures { (told : SourceFailure) → result ≡ SourceAnswer.Failed told → told ≡ SourceFailure.Status status }
    {
        match (subject, status) {
            (_, 200) => SourceAnswer::Whole,
            (_, 304) => SourceAnswer::Same,
            (_, 400) if waits => SourceAnswer::Impatient,
            (Subject::Layers, 404 | 405) => SourceAnswer::Layerless,
            (Subject::Pieces, _) => SourceAnswer::Gone,
            _ => SourceAnswer::Failed(SourceFailure::Status(status)),
        }
    }
}

/// The body of an answer.
#[derive(Drop)]
pub(crate) struct Body {
    pub(crate) bytes: Vec<u8>,
    // No answer of a source is longer than 64 MiB.
    ghost short: { length bytes.items ≤ 67_108_864 },
}

impl Body {
    fn new(alloc: Global) -> Body {
        Body {
            bytes: Vec::new(alloc),
        }
    }

    /// Adds a piece, unless the body is too long with it.
    fn add(&mut self, piece: &[u8]) -> Result<(), SourceFailure>
        ensures { OnOk result (self.new.bytes.items ≡ self.old.bytes.items ++ piece.now) }
    {
        if piece.len() > MOST_BYTES.saturating_sub(self.bytes.len()) {
            return Err(SourceFailure::TooLong);
        }
        self.bytes.extend_from_slice(piece)?;
        Ok(())
    }
}

/// A question to a source, and what came of the answer so far.
#[derive(Drop)]
pub(crate) struct SourceQuestion<L> {
    stream: L,
    pub(crate) subject: Subject,
    /// The source is to hold its answer back while it has no news.
    waits: bool,
    client: Client,
    question: Vec<u8>,
    sent: usize,
    room: Vec<u8>,
    input: Vec<u8>,
    pub(crate) body: Body,
    tag: Vec<u8>,
    cursor: Vec<u8>,
    code: u16,
    course: Course,
    until: Instant,
}

/// The target of a question, behind a prefix. A question for pieces or layers may wait for news.
fn target(
    alloc: Global,
    prefix: &str,
    wanted: Wanted<'_>,
    wait: Option<u64>,
) -> Result<Vec<u8>, AllocError> {
    let mut target = Vec::from_slice(alloc, prefix.as_bytes())?;
    match wanted {
        Wanted::State(_) => target.extend_from_slice(b"/state")?,
        Wanted::Layers(_) => {
            target.extend_from_slice(b"/sync")?;
            push_wait(alloc, &mut target, b"?wait=", wait)?;
        }
        Wanted::Pieces(cursor) => {
            target.extend_from_slice(b"/pieces?after=")?;
            target.extend_from_slice(cursor.text(alloc)?.as_bytes())?;
            push_wait(alloc, &mut target, b"&wait=", wait)?;
        }
    }
    Ok(target)
}

/// Writes so many seconds behind a mark, if any.
fn push_wait(
    alloc: Global,
    target: &mut Vec<u8>,
    mark: &[u8],
    wait: Option<u64>,
) -> Result<(), AllocError> {
    if let Some(seconds) = wait {
        target.extend_from_slice(mark)?;
        target.extend_from_slice(format!(in alloc; "{seconds}")?.as_bytes())?;
    }
    Ok(())
}

/// The tag that a question names, as that of the answer that is had.
fn known_tag(wanted: Wanted<'_>) -> Option<&[u8]> {
    match wanted {
        Wanted::State(tag) | Wanted::Layers(tag) if !tag.is_empty() => Some(tag),
        _ => None,
    }
}

/// The request that asks a source so. It bears the token of the source, if there is one.
fn ask(
    alloc: Global,
    client: &mut Client,
    source: &PullSource,
    wanted: Wanted<'_>,
    wait: Option<u64>,
) -> Result<Vec<u8>, SourceFailure> {
    let mut question = Vec::new(alloc);
    let target = target(alloc, &source.prefix, wanted, wait)?;
    let credentials = match &source.token {
        Some(token) => format!(in alloc; "Bearer {token}")?,
        None => String::new(alloc),
    };
    let fields = fields(alloc, source, &credentials, known_tag(wanted))?;
    client.write_request(&mut question, b"GET", &target, &fields, BodySize::Empty)?;
    client.write_end(&mut question, &[])?;
    Ok(question)
}

/// The fields of a question: the host, and the credentials and the tag of what is had, if any.
fn fields<'a>(
    alloc: Global,
    source: &'a PullSource,
    credentials: &'a str,
    tag: Option<&'a [u8]>,
) -> Result<Vec<Header<'a>>, AllocError> {
    let mut fields = Vec::new(alloc);
    fields.push(field(b"host", source.host.as_bytes()))?;
    if !credentials.is_empty() {
        fields.push(field(b"authorization", credentials.as_bytes()))?;
    }
    if let Some(tag) = tag {
        fields.push(field(b"if-none-match", tag))?;
    }
    Ok(fields)
}

fn field<'a>(name: &'a [u8], value: &'a [u8]) -> Header<'a> {
    Header { name, value }
}

/// The request that asks a source so, and what reads its answer.
pub(crate) fn write_question(
    alloc: Global,
    source: &PullSource,
    wanted: Wanted<'_>,
    wait: Option<u64>,
) -> Result<(Client, Vec<u8>), SourceFailure> {
    let mut client = Client::new(Limits::default());
    let question = ask(alloc, &mut client, source, wanted, wait)?;
    Ok((client, question))
}

impl<L: SourceStream + Drop> SourceQuestion<L> {
    /// Begins to ask a source.
    pub(crate) fn begin(
        alloc: Global,
        stream: L,
        client: Client,
        question: Vec<u8>,
        subject: Subject,
        wait: Option<u64>,
        until: Instant,
    ) -> Result<SourceQuestion<L>, AllocError>
        ensures { IfOk result (λ asked. asked.subject ≡ subject) }
    {
        Ok(SourceQuestion {
            stream,
            subject,
            waits: wait.is_some(),
            client,
            question,
            sent: 0,
            room: Vec::from_elem(alloc, 0, PIECE)?,
            input: Vec::new(alloc),
            body: Body::new(alloc),
            tag: Vec::new(alloc),
            cursor: Vec::new(alloc),
            code: 0,
            course: Course::Waiting,
            until,
        })
    }

    pub(crate) fn course(&self) -> Course {
        self.course
    }

    /// What kind of answer it asks for.
    pub(crate) fn subject(&self) -> Subject
        ensures { result ≡ self.now.subject }
    {
        self.subject
    }

    /// What the answer says, once there is no more to wait for.
    pub(crate) fn answer(&self) -> SourceAnswer {
        match (self.subject, self.course) {
            (subject, Course::Answered) => SourceAnswer::of_status(subject, self.waits, self.code),
            (Subject::Pieces, Course::Failed(SourceFailure::TooLong | SourceFailure::NoHttp)) => {
                SourceAnswer::Gone
            }
            (_, Course::Failed(why)) => SourceAnswer::Failed(why),
            (_, Course::Waiting) => SourceAnswer::Failed(SourceFailure::TimedOut),
        }
    }

    /// The body of the answer.
    pub(crate) fn bytes(&self) -> &[u8]
        ensures { result.now ≡ self.now.body.bytes.items }
    {
        &self.body.bytes
    }

    /// The place behind all pieces that the source had accepted as it answered; none where it named
    /// none, in the form `RUN-N`.
    pub(crate) fn cursor(&self) -> Option<PieceCursor> {
        PieceCursor::read(str::from_utf8(&self.cursor).ok()?)
    }

    /// The tag that the source named with what it answered.
    pub(crate) fn tag(&self) -> &[u8] {
        &self.tag
    }

    /// Whether it answered that nothing is new.
    pub(crate) fn is_same(&self) -> bool {
        self.code == 304
    }

    /// Goes on as far as the connection lets it.
    pub(crate) fn step(&mut self, now: Instant) {
        if self.course != Course::Waiting {
            return;
        }
        if is_due(now, self.until) {
            self.course = Course::Failed(SourceFailure::TimedOut);
            return;
        }
        match self.exchange() {
            Ok(()) => {}
            Err(why) => self.course = Course::Failed(why),
        }
    }

    /// Sends and receives as far as the connection lets it.
    fn exchange(&mut self) -> Result<(), SourceFailure> {
        self.send()?;
        self.receive()
    }

    /// Why the connection broke off: before anything was sent there was none.
    fn breach(&self) -> SourceFailure {
        match self.sent {
            0 => SourceFailure::Unreachable,
            _ => SourceFailure::CutOff,
        }
    }

    fn send(&mut self) -> Result<(), SourceFailure> {
        for _ in 0..MOST_STEPS {
            let Some(rest) = self.question.get(self.sent..) else {
                return Ok(());
            };
            if rest.is_empty() {
                return Ok(());
            }
            match self.stream.write(rest) {
                Ok(count) => self.sent = self.sent.saturating_add(count),
                Err(StreamFault::WouldBlock) => return Ok(()),
                Err(StreamFault::Interrupted) => {}
                Err(StreamFault::Broken) => return Err(self.breach()),
            }
        }
        Ok(())
    }

    fn receive(&mut self) -> Result<(), SourceFailure> {
        for _ in 0..MOST_STEPS {
            match self.stream.read(&mut self.room) {
                Ok(0) => return self.end(),
                Ok(count) => {
                    self.input.extend_from_slice(&self.room[..count])?;
                    if self.input.len() > MOST_BYTES {
                        return Err(SourceFailure::TooLong);
                    }
                    self.read_answer()?;
                }
                Err(StreamFault::WouldBlock) => return Ok(()),
                Err(StreamFault::Interrupted) => {}
                Err(StreamFault::Broken) => return Err(self.breach()),
            }
            if self.course != Course::Waiting {
                return Ok(());
            }
        }
        Ok(())
    }

    fn end(&mut self) -> Result<(), SourceFailure> {
        match self.client.read_eof() {
            Ok(Event::End(_)) => {
                self.course = Course::Answered;
                Ok(())
            }
            _ => Err(SourceFailure::CutOff),
        }
    }

    /// Reads what came, up to the answer's end.
    fn read_answer(&mut self) -> Result<(), SourceFailure> {
        let mut spans = [EMPTY_HEADER_SPAN; MOST_FIELDS];
        let mut used = 0;
        for _ in 0..u64::MAX {
            let Some(rest) = self.input.get(used..) else {
                return Err(SourceFailure::NoHttp);
            };
            let Ok(progress) = self.client.read(rest, &mut spans) else {
                return Err(SourceFailure::NoHttp);
            };
            // Also where more has to come, as within the line that has the size of a chunk.
            used += progress.consumed;
            match progress.event {
                Event::Head(head) => {
                    self.code = head.code;
                    note(&mut self.tag, b"etag", rest, &spans)?;
                    note(&mut self.cursor, b"cuestore-pieces", rest, &spans)?;
                }
                Event::Data(span) => {
                    let Some(piece) = rest.get(span.start..span.end) else {
                        return Err(SourceFailure::NoHttp);
                    };
                    self.body.add(piece)?;
                }
                Event::End(_) => {
                    self.course = Course::Answered;
                    return Ok(());
                }
                Event::Informational(_) => {}
                _ => break,
            }
        }
        if used > 0 {
            let rest = match self.input.get(used..) {
                Some(rest) => Vec::from_slice(*self.input.allocator(), rest)?,
                None => return Err(SourceFailure::NoHttp),
            };
            self.input = rest;
        }
        Ok(())
    }
}

/// The value of a field of a head, where it has this name, in lower case.
fn value_of<'a>(head: &'a [u8], field: &HeaderSpan, wanted: &[u8]) -> Option<&'a [u8]> {
    let name = head.get(field.name.start..field.name.end)?;
    if !name.eq_ignore_ascii_case(wanted) {
        return None;
    }
    head.get(field.value.start..field.value.end)
}

/// Notes the value of the last field of this name, in lower case, among those of a head.
fn note(
    value: &mut Vec<u8>,
    wanted: &[u8],
    head: &[u8],
    fields: &[HeaderSpan],
) -> Result<(), AllocError> {
    for field in fields {
        if let Some(found) = value_of(head, field, wanted) {
            value.clear();
            value.extend_from_slice(found)?;
        }
    }
    Ok(())
}
