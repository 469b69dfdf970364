use std::fmt;

/// How many outcomes and sites were compared, and how many differed.
#[derive(Drop)]
pub struct Counts {
    outcomes: u64,
    wrong_outcomes: u64,
    sites: u64,
    wrong_sites: u64,
}

impl Counts {
    /// None yet.
    pub fn new() -> Counts {
        Counts {
            outcomes: 0,
            wrong_outcomes: 0,
            sites: 0,
            wrong_sites: 0,
        }
    }

    /// Counts an outcome.
    pub fn add_outcome(&mut self, is_owed: bool) {
        self.outcomes = self.outcomes.saturating_add(1);
        if !is_owed {
            self.wrong_outcomes = self.wrong_outcomes.saturating_add(1);
        }
    }

    /// Counts a site.
    pub fn add_site(&mut self, is_owed: bool) {
        self.sites = self.sites.saturating_add(1);
        if !is_owed {
            self.wrong_sites = self.wrong_sites.saturating_add(1);
        }
    }
}

impl fmt::Display for Counts {
    fn fmt<W: fmt::Write>(&self, f: &mut fmt::Formatter<W>) -> fmt::Result {
        write!(
            f,
            "{} outcomes, {} wrong; ",
            self.outcomes, self.wrong_outcomes
        )?;
        write!(f, "{} sites, {} wrong", self.sites, self.wrong_sites)
    }
}
