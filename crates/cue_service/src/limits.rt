//! Answers of at most so many bytes.
ghost use Rattle.std.specs.Prelude.{◌≡◌, ◌≤◌, ◌<◌, ◌++◌, [], Some, length, IfOk, IfSome, IfNone, OnOk, OnErr};
ghost use Rattle.cue_replica.specs.Answers.{of_text, IsWholeAnswer};
ghost use Rattle.cue_service.specs.Limits.{IsOverLimit};

use cue_device::TextSink;
use cue_lattice::Memory;
use cue_replica::{Answer, Replica, SiteQuestion, Status, TextQuestion, write_answer};
use std::alloc::Global;

/// The front of an answer: no more of it than one byte beyond a limit.
#[derive(Drop)]
struct AnswerFront {
    bytes: Vec<u8>,
    limit: usize,
}

impl AnswerFront {
    fn new(alloc: Global, limit: usize) -> AnswerFront
        ensures bytes { result.bytes.items ≡ [] }
        ensures limit { result.limit ≡ limit }
    {
        AnswerFront {
            bytes: Vec::new(alloc),
            limit,
        }
    }

    fn add(&mut self, bytes: &[u8]) -> Result<(), Memory>
        ensures ok { OnOk result (self.new.bytes.items ≡ self.old.bytes.items ++ bytes.now) }
        ensures err { OnErr result (self.new.bytes.items ≡ self.old.bytes.items) }
    {
        self.bytes.extend_from_slice(bytes)?;
        Ok(())
    }

    /// How many bytes it takes more.
    fn room(&self) -> usize {
        self.limit
            .saturating_add(1)
            .saturating_sub(self.bytes.len())
    }
}

impl TextSink for AnswerFront {
    type SinkError = Memory;

    ghost taken = { λ front. Some front.bytes.items };

    /// Adds a piece. Where it leads beyond the limit, one byte beyond is taken, and then the answer
    /// is that of memory that ran out: the length says which of both it was.
    fn put(&mut self, piece: &str) -> Result<(), Memory> {
        let bytes = piece.as_bytes();
        let room = self.room();
        if bytes.len() < room {
            return self.add(bytes);
        }
        self.add(&bytes[..room])?;
        Err(Memory::too_many(u64::MAX, 1))
    }
}

/// The answer to a question, where it has no more bytes than the limit. No more is made of it.
///
/// # Errors
///
/// `Memory`.
pub fn answer_within(
    alloc: Global,
    question: SiteQuestion,
    site: &Replica,
    limit: usize,
) -> Result<Option<Answer>, Memory>
    ensures some { IfOk result (λ found. IfSome found (λ answer. IsWholeAnswer question site.now answer × (length answer.bytes.items ≤ limit))) }
    ensures none { IfOk result (λ found. IfNone found (IsOverLimit limit question site.now)) }
{
    match question.as_text() {
        None => state_within(alloc, site, limit),
        Some(question) => text_within(alloc, question, site, limit),
    }
}

fn state_within(alloc: Global, site: &Replica, limit: usize) -> Result<Option<Answer>, Memory>
    ensures some { IfOk result (λ found. IfSome found (λ answer. IsWholeAnswer SiteQuestion.State site.now answer × (length answer.bytes.items ≤ limit))) }
    ensures none { IfOk result (λ found. IfNone found (IsOverLimit limit SiteQuestion.State site.now)) }
{
    if site.state_size() > limit as u64 {
        return Ok(None);
    }
    Ok(Some(Answer {
        bytes: site.state(alloc)?,
        status: Status::Done,
    }))
}

fn text_within(
    alloc: Global,
    question: TextQuestion,
    site: &Replica,
    limit: usize,
) -> Result<Option<Answer>, Memory>
    ensures some { IfOk result (λ found. IfSome found (λ answer. IsWholeAnswer (of_text question) site.now answer × (length answer.bytes.items ≤ limit))) }
    ensures none { IfOk result (λ found. IfNone found (IsOverLimit limit (of_text question) site.now)) }
{
    let mut front = AnswerFront::new(alloc, limit);
    let told = write_answer(alloc, question, site, &mut front);
    let length = front.bytes.len();
    if length > limit {
        return Ok(None);
    }
    let status = told?;
    Ok(Some(Answer {
        bytes: front.bytes,
        status,
    }))
}
