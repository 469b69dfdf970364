use cue_replica::{Form, Kind, Memory, Refusal, Replica};
use std::alloc::Global;
use std::fmt;

/// What comes of the printed text of a site, handed to a new one.
#[derive(Clone, Copy, PartialEq, Eq)]
pub enum Reading {
    /// The new site has equal state bytes.
    Equal,
    /// The text is over a limit.
    OverLimit,
    /// The site has accepted nothing, which no text says.
    Empty,
    /// Another state, or another refusal.
    Wrong,
}

/// How many printed texts were read in each way.
#[derive(Drop)]
pub struct Readings {
    /// New sites with equal state bytes.
    pub equal: u64,
    /// Texts over a limit.
    pub over_limit: u64,
    /// Sites that have accepted nothing.
    pub empty: u64,
    /// All others.
    pub wrong: u64,
}

impl Readings {
    /// None yet.
    pub fn new() -> Readings {
        Readings {
            equal: 0,
            over_limit: 0,
            empty: 0,
            wrong: 0,
        }
    }

    /// Counts a reading.
    pub fn add(&mut self, reading: Reading) {
        match reading {
            Reading::Equal => self.equal = self.equal.saturating_add(1),
            Reading::OverLimit => self.over_limit = self.over_limit.saturating_add(1),
            Reading::Empty => self.empty = self.empty.saturating_add(1),
            Reading::Wrong => self.wrong = self.wrong.saturating_add(1),
        }
    }
}

impl fmt::Display for Readings {
    fn fmt<W: fmt::Write>(&self, f: &mut fmt::Formatter<W>) -> fmt::Result {
        write!(f, "printed texts: {} read again, ", self.equal)?;
        write!(
            f,
            "{} over a limit, {} of empty sites, ",
            self.over_limit, self.empty
        )?;
        write!(f, "{} wrong", self.wrong)
    }
}

/// Hands the printed text of a site to a new one.
pub fn read_again(alloc: Global, site: &Replica) -> Result<Reading, Memory> {
    let text = site.print(alloc)?;
    let mut other = Replica::new(alloc);
    match other.submit(text.as_str()) {
        Ok(()) => accepted(alloc, site, &other),
        Err(why) => Ok(refused(why, site.same(&other))),
    }
}

/// The reading of a text that was accepted by another site.
fn accepted(alloc: Global, site: &Replica, other: &Replica) -> Result<Reading, Memory> {
    let bytes = site.state(alloc)?;
    let again = other.state(alloc)?;
    if again.as_slice() == bytes.as_slice() {
        return Ok(Reading::Equal);
    }
    Ok(Reading::Wrong)
}

/// The reading of a text that was refused, which may be that of a site that has accepted nothing.
fn refused(why: Refusal, empty: bool) -> Reading {
    match why.kind {
        Kind::TooLong | Kind::Nesting | Kind::TooLarge | Kind::TooDeep => Reading::OverLimit,
        Kind::LeftOut(Form::Embedding) if empty && why.place == 0 => Reading::Empty,
        _ => Reading::Wrong,
    }
}
