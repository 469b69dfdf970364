ghost use Rattle.std.specs.Prelude.{◌≡◌, IfSome, IfNone};
ghost use Rattle.cue_replica.specs.Answers.{code_of, of_text};

/// What is asked of a site.
#[derive(Clone, Copy, Debug, PartialEq, Eq)]
pub enum SiteQuestion {
    /// The JSON, or the conflict lines, or the incomplete lines.
    Export,
    /// The canonical text.
    Print,
    /// The conflict lines, and then the incomplete lines.
    Report,
    /// The state bytes.
    State,
}

/// A question whose answer is a text.
#[derive(Clone, Copy, Debug, PartialEq, Eq)]
pub enum TextQuestion {
    /// The JSON, or the conflict lines, or the incomplete lines.
    Export,
    /// The canonical text.
    Print,
    /// The conflict lines, and then the incomplete lines.
    Report,
}

impl SiteQuestion {
    /// The same question, where its answer is a text: state bytes are none.
    pub fn as_text(self) -> Option<TextQuestion>
        ensures text { IfSome result (λ question. of_text question ≡ self) }
        ensures state { IfNone result (self ≡ SiteQuestion.State) }
    {
        match self {
            SiteQuestion::Export => Some(TextQuestion::Export),
            SiteQuestion::Print => Some(TextQuestion::Print),
            SiteQuestion::Report => Some(TextQuestion::Report),
            SiteQuestion::State => None,
        }
    }
}

/// How an answer ends the run that prints it. Refusals and failing devices have the numbers between
/// and above these, 1 and 4.
#[derive(Clone, Copy, Debug, PartialEq, Eq)]
pub enum Status {
    /// Nothing stands against what was asked.
    Done = 0,
    /// There are conflicts.
    Conflicts = 2,
    /// There is no conflict, and something is incomplete.
    Incomplete = 3,
}

impl Status {
    /// The status as a number: an exit status, and the first byte of what a session tells of an
    /// export.
    pub fn code(self) -> u8
        ensures { result ≡ code_of self }
    {
        self as u8
    }
}
