ghost use Rattle.std.specs.Prelude.{◌≡◌, ◌<◌, ◌∷◌, [], ℕ, List, map, length, IfOk, IfErr, IfSome, IfNone};
ghost use Rattle.cue_owners.specs.Files.{AreRefused, AreRows, IsLone, IsRefusedFile, IsTokenFile, lone_row, rows_of};
ghost use Rattle.cue_owners.specs.Grants.{row_of};

use crate::forms::is_token;
use crate::grant::{Grant, add_line, lone_grants};
use crate::owners::Owners;
use crate::words::{lines_in, words_in};
use std::alloc::{AllocError, Global};
use std::error::Error;
use std::fmt;

/// Why a token file is refused.
#[derive(Clone, Copy, Debug, PartialEq, Eq)]
pub enum TokenFileError {
    /// It has no words.
    Empty,
    /// The line of this number, from 1, is not OWNER TOKEN PATTERN.., or has the token of an earlier
    /// line.
    Line(usize),
    OutOfMemory,
}

impl fmt::Display for TokenFileError {
    fn fmt<W: fmt::Write>(&self, f: &mut fmt::Formatter<W>) -> fmt::Result {
        match self {
            TokenFileError::Empty => write!(f, "has no token"),
            TokenFileError::Line(number) => write!(
                f,
                "line {number} is not OWNER TOKEN PATTERN.., or has the token of an earlier line"
            ),
            TokenFileError::OutOfMemory => write!(f, "out of memory"),
        }
    }
}

impl Error for TokenFileError {}

impl From<AllocError> for TokenFileError {
    ghost use Rattle.cue_owners.specs.declared.read.TokenFileError.TheVariants as errors;

    ghost from_gives = { λ _ why. why ≡ errors.OutOfMemory };

    fn from(_error: AllocError) -> TokenFileError {
        TokenFileError::OutOfMemory
    }
}

impl Owners {
    /// The tokens of a file: one token, which may write all, or lines OWNER TOKEN PATTERN..
    ///
    /// # Errors
    ///
    /// The number of the first line that is wrong, that there is no token, or out of memory.
    pub fn read(alloc: Global, text: &[u8]) -> Result<Owners, TokenFileError>
        ensures ok { IfOk result (λ owners. IsTokenFile text.now owners.grants.items) }
        ensures err { IfErr result (IsRefusedFile text.now) }
    {
        if let Some(grants) = lone_token(alloc, text)? {
            return Ok(Owners { grants });
        }
        let lines = lines_in(alloc, text)?;
        let grants = read_lines(alloc, &lines)?;
        Ok(Owners { grants })
    }
}

/// The token of a text that is one token.
pub fn sole_token(alloc: Global, text: &[u8]) -> Result<Option<Vec<u8>>, AllocError>
    ensures some { IfOk result (λ found. IfSome found (λ token. IsLone token.items text.now)) }
    ensures none { IfOk result (λ found. IfNone found ((token : List ℕ) → ¬ IsLone token text.now)) }
{
    let words = words_in(alloc, text)?;
    let Some((token, rest)) = words.split_first() else {
        return Ok(None);
    };
    if !rest.is_empty() {
        return Ok(None);
    }
    if !is_token(token) {
        return Ok(None);
    }
    Ok(Some(Vec::from_slice(alloc, token)?))
}

/// The grants of a text that is one token.
fn lone_token(alloc: Global, text: &[u8]) -> Result<Option<Vec<Grant>>, AllocError>
    ensures some { IfOk result (λ found. IfSome found (λ grants. (token : List ℕ) × IsLone token text.now
        × (map row_of grants.items ≡ lone_row token ∷ []))) }
    ensures none { IfOk result (λ found. IfNone found ((token : List ℕ) → ¬ IsLone token text.now)) }
{
    match sole_token(alloc, text)? {
        None => Ok(None),
        Some(token) => Ok(Some(lone_grants(alloc, &token)?)),
    }
}

/// The grants of lines.
fn read_lines(alloc: Global, lines: &[&[u8]]) -> Result<Vec<Grant>, TokenFileError>
    ensures rows { IfOk result (λ grants. map row_of grants.items ≡ rows_of (map (λ line. line.now) lines.now)) }
    ensures right { IfOk result (λ grants. AreRows (rows_of (map (λ line. line.now) lines.now))) }
    ensures some { IfOk result (λ grants. 0 < length grants.items) }
    ensures err { IfErr result (AreRefused (map (λ line. line.now) lines.now)) }
{
    let mut grants = Vec::new(alloc);
    for (i, line) in lines.iter().enumerate() {
        if !add_line(alloc, &mut grants, line)? {
            return Err(TokenFileError::Line(i + 1));
        }
    }
    if grants.is_empty() {
        return Err(TokenFileError::Empty);
    }
    Ok(grants)
}
