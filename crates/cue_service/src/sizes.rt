use cue_replica::SiteQuestion;

/// How many bytes the answers had that were made last. One that was over a limit counts as a byte more
/// than that.
#[derive(Clone, Copy)]
pub(crate) struct AnswerSizes {
    pub(crate) export: u64,
    pub(crate) print: u64,
    pub(crate) report: u64,
    pub(crate) state: u64,
}

impl AnswerSizes {
    pub(crate) fn none() -> AnswerSizes {
        AnswerSizes {
            export: 0,
            print: 0,
            report: 0,
            state: 0,
        }
    }

    pub(crate) fn set(&mut self, question: SiteQuestion, size: u64) {
        match question {
            SiteQuestion::Export => self.export = size,
            SiteQuestion::Print => self.print = size,
            SiteQuestion::Report => self.report = size,
            SiteQuestion::State => self.state = size,
        }
    }

    /// The question with the longest answer, and its length.
    pub(crate) fn longest(&self) -> (SiteQuestion, u64) {
        let mut longest = (SiteQuestion::State, self.state);
        for (question, size) in [
            (SiteQuestion::Export, self.export),
            (SiteQuestion::Print, self.print),
            (SiteQuestion::Report, self.report),
        ] {
            if size > longest.1 {
                longest = (question, size);
            }
        }
        longest
    }
}
