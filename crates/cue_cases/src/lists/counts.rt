use crate::lists::again::Readings;
use std::fmt;

/// How many cases ended in each way, how many answers were compared and wrong, and how the printed
/// texts were read.
#[derive(Drop)]
pub struct Counts {
    exported: u64,
    conflicting: u64,
    incomplete: u64,
    refused: u64,
    answers: u64,
    wrong: u64,
    pub readings: Readings,
}

impl Counts {
    /// None yet.
    pub fn new() -> Counts {
        Counts {
            exported: 0,
            conflicting: 0,
            incomplete: 0,
            refused: 0,
            answers: 0,
            wrong: 0,
            readings: Readings::new(),
        }
    }

    /// Counts a case by how its export ended.
    pub fn add(&mut self, status: u8) {
        match status {
            0 => self.exported = self.exported.saturating_add(1),
            2 => self.conflicting = self.conflicting.saturating_add(1),
            3 => self.incomplete = self.incomplete.saturating_add(1),
            _ => self.refused = self.refused.saturating_add(1),
        }
    }

    /// Counts an answer.
    pub fn add_answer(&mut self, right: bool) {
        self.answers = self.answers.saturating_add(1);
        if !right {
            self.wrong = self.wrong.saturating_add(1);
        }
    }
}

impl fmt::Display for Counts {
    fn fmt<W: fmt::Write>(&self, f: &mut fmt::Formatter<W>) -> fmt::Result {
        let (exported, conflicting) = (self.exported, self.conflicting);
        let (incomplete, refused) = (self.incomplete, self.refused);
        write!(f, "{exported} exported, {conflicting} in conflict, ")?;
        write!(f, "{incomplete} incomplete, {refused} refused; ")?;
        write!(
            f,
            "{} answers, {} wrong; {}",
            self.answers, self.wrong, self.readings
        )
    }
}
