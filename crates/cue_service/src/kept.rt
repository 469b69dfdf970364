ghost use Rattle.std.specs.Prelude.{◌≡◌, ℕ, List, false, IfOk, IfSome, IsTrue};
ghost use Rattle.cue_replica.specs.Language.{Table};
ghost use Rattle.cue_replica.specs.declared.question.SiteQuestion.{SiteQuestion as Question};
ghost use Rattle.cue_service.specs.Kept.{AreAnswersKept, IsKeptAnswer, IsCachedAnswer, IsWithin};
ghost use Rattle.cue_service.specs.Limits.{IsOverLimit};
ghost use Rattle.cue_service.specs.Tags.{tag_of};

use bytes::Bytes;
use cue_lattice::Memory;
use cue_replica::{Answer, SiteQuestion, Status};
use http::HeaderValue;

/// What was told of a table. Its bytes are shared.
#[derive(Drop)]
pub(crate) struct KeptAnswer {
    pub(crate) bytes: Bytes,
    pub(crate) status: Status,
}

impl KeptAnswer {
    pub(crate) fn of(answer: Answer) -> Result<KeptAnswer, Memory>
        ensures bytes { IfOk result (λ told. told.bytes ≡ answer.bytes.items) }
        ensures status { IfOk result (λ told. told.status ≡ answer.status) }
    {
        let Answer { bytes, status } = answer;
        Ok(KeptAnswer {
            bytes: Bytes::from_vec(bytes)?,
            status,
        })
    }

    /// The same once more.
    pub(crate) fn share(&self) -> Result<KeptAnswer, Memory>
        ensures { IfOk result (λ told. told ≡ self.now) }
    {
        Ok(KeptAnswer {
            bytes: self.bytes.clone()?,
            status: self.status,
        })
    }
}

/// What is kept of an answer: the answer, or a limit that it is over.
#[derive(Drop)]
pub(crate) enum CachedAnswer {
    Whole(KeptAnswer),
    LongerThan(usize),
}

impl CachedAnswer {
    /// Whether the answer is known to have more bytes than a limit.
    pub(crate) fn is_over(&self, limit: usize) -> bool
        ensures over { IsTrue result → (table : Table) (question : Question)
            → IsCachedAnswer question table self.now → IsOverLimit limit question table }
        ensures within { result ≡ false → IsWithin limit self.now }
    {
        match self {
            CachedAnswer::Whole(told) => told.bytes.len() > limit,
            CachedAnswer::LongerThan(length) => *length >= limit,
        }
    }
}

/// The tag of a table and what was told of it, each where it was asked for.
#[derive(Drop)]
pub(crate) struct AnswerCache {
    pub(crate) tag: Option<HeaderValue>,
    pub(crate) export: Option<CachedAnswer>,
    pub(crate) print: Option<CachedAnswer>,
    pub(crate) report: Option<CachedAnswer>,
    pub(crate) state: Option<CachedAnswer>,
}

impl AnswerCache {
    pub(crate) fn none() -> AnswerCache
        ensures { (table : Table) → AreAnswersKept table result }
    {
        AnswerCache {
            tag: None,
            export: None,
            print: None,
            report: None,
            state: None,
        }
    }

    pub(crate) fn find_answer(&self, question: SiteQuestion) -> Option<&CachedAnswer>
        ensures { (table : Table) → AreAnswersKept table self.now
            → IfSome result (λ found. IsCachedAnswer question table found.now) }
    {
        match question {
            SiteQuestion::Export => self.export.as_ref(),
            SiteQuestion::Print => self.print.as_ref(),
            SiteQuestion::Report => self.report.as_ref(),
            SiteQuestion::State => self.state.as_ref(),
        }
    }

    pub(crate) fn keep(&mut self, question: SiteQuestion, told: CachedAnswer)
        ensures { (table : Table) → AreAnswersKept table self.old → IsCachedAnswer question table told
            → AreAnswersKept table self.new }
    {
        match question {
            SiteQuestion::Export => self.export = Some(told),
            SiteQuestion::Print => self.print = Some(told),
            SiteQuestion::Report => self.report = Some(told),
            SiteQuestion::State => self.state = Some(told),
        }
    }

    /// Whether all that counts are taken from is kept.
    pub(crate) fn is_full(&self) -> bool {
        self.export.is_some() && self.report.is_some() && self.state.is_some()
    }

    pub(crate) fn keep_tag(&mut self, tag: HeaderValue)
        ensures { (table : Table) → AreAnswersKept table self.old → tag.bytes ≡ tag_of table
            → AreAnswersKept table self.new }
    {
        self.tag = Some(tag);
    }
}
