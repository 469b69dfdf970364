ghost use Rattle.std.specs.Prelude.{◌≡◌, ◌⊎◌, ◌↔◌, ◌≤◌, ℕ, List, Some, length, slice_get};
ghost use Rattle.std.specs.Prelude.{IsTrue, IfOk, IfErr, OnOk, OnErr};
ghost use Rattle.std.specs.Str.{IsUtf8};
ghost use Rattle.cue_replica.specs.Language.{language};
ghost use Rattle.cue_replica.specs.Replica.{AddsRefusals};
ghost use Rattle.cue_lattice.specs.World.{Piece, piece_refuses};
ghost use Rattle.cue_replica.specs.Accepted.{IsAcceptable, text_limit};
ghost use Rattle.cue_program.specs.Inputs.{IsFilePiece, IsPieceRefusal, IsTextInputRefusal, stream};
ghost use Rattle.cue_program.specs.Inputs.{IsStateInputRefusal, IsFileRead};
ghost use Rattle.cue_replica.specs.Reading.{HasTakenIn};
ghost use Rattle.cue_program.specs.Inputs.{IsUnified, IsByteFault, IsInputRefused, IsTextInput};
ghost use Rattle.cue_program.specs.Stops.{IsMemoryStop, IsRefusedAs};
ghost use Rattle.cue_program.specs.inner.Taking.{IsStreamRead};
ghost use Rattle.cue_program.specs.inner.Texts.{AreTexts, HasTakenParts, IsTextRefused};

use crate::input_reader::{Enough, Input};
use crate::separator::first_part;
use crate::stdin_splitter::Texts;
use crate::stop::RunError;
use cue_replica::{Kind, Refusal, Replica, StateReader, TEXT_LIMIT};
use std::alloc::Global;
use std::str;

/// The byte that begins state bytes, and no text.
const STATE: u8 = 0xFE;

/// A new site that has taken what a reader gave: one state, or texts, which are split at lines that
/// are exactly `---`.
///
/// # Errors
///
/// `RefusedInput` for the first input that is refused, with its number from 1; `Memory`.
pub fn site_of(alloc: Global, input: Input<Texts>) -> Result<Replica, RunError>
    ensures holds { (bytes : List ℕ) → IsStreamRead input bytes
        → IfOk result (IsUnified (stream (Some bytes))) }
    ensures stop { (bytes : List ℕ) → IsStreamRead input bytes
        → IfErr result (λ stop. IsInputRefused (stream (Some bytes)) stop ⊎ IsMemoryStop stop) }
{
    match input {
        Input::State(reader, _) => {
            let mut site = Replica::new(alloc);
            take_state(&mut site, reader, 1)?;
            Ok(site)
        }
        Input::Text(texts) => texts.finish(),
    }
}

/// Hands a file to a site, as the input of this number: a state, or one text.
///
/// # Errors
///
/// `RefusedInput`, and then the site is as before.
pub fn take_file(site: &mut Replica, file: Input<Enough>, number: usize) -> Result<(), RunError>
    ensures accepts { (bytes : List ℕ) → IsFileRead file bytes
        → OnOk result ((piece : Piece) × IsFilePiece bytes piece
        × IsAcceptable piece × AddsRefusals site.old (piece_refuses language piece) site.new) }
    ensures valid { OnOk result (language.IsValid site.new) }
    ensures refused { (bytes : List ℕ) → IsFileRead file bytes
        → IfErr result (λ stop. (piece : Piece) × (why : Refusal)
        × IsFilePiece bytes piece × IsPieceRefusal piece why × IsRefusedAs why number stop) }
    ensures unchanged { OnErr result (site.new ≡ site.old) }
{
    match file {
        Input::State(reader, _) => take_state(site, reader, number),
        Input::Text(text) => submit(site, &text.bytes, number),
    }
}

/// Hands a state that was taken in to a site, as the input of this number.
fn take_state(site: &mut Replica, reader: StateReader, number: usize) -> Result<(), RunError>
    ensures state { (bytes : List ℕ) → HasTakenIn reader bytes
        → OnOk result (language.IsState bytes) }
    ensures adds { (bytes : List ℕ) → HasTakenIn reader bytes
        → OnOk result (AddsRefusals site.old (language.state_refuses bytes) site.new) }
    ensures valid { OnOk result (language.IsValid site.new) }
    ensures refused { (bytes : List ℕ) → HasTakenIn reader bytes
        → IfErr result (λ stop. (why : Refusal) × IsStateInputRefusal bytes why
        × IsRefusedAs why number stop) }
    ensures unchanged { OnErr result (site.new ≡ site.old) }
{
    match site.take_read(reader) {
        Ok(()) => Ok(()),
        Err(why) => Err(RunError::RefusedInput(why, number)),
    }
}

/// Whether the first byte is FE (hexadecimal).
pub fn begins_a_state(bytes: &[u8]) -> bool
    ensures { IsTrue result ↔ (slice_get bytes.now 0 ≡ Some 254) }
{
    bytes.first() == Some(&STATE)
}

/// Hands each part of these bytes to a site that has taken so many.
pub fn take_parts(mut site: Replica, mut number: usize, bytes: &[u8]) -> Result<Replica, RunError>
    ensures holds { (all : List ℕ) → HasTakenParts all site number (Some bytes.now)
        → IfOk result (AreTexts all) }
    ensures refused { (all : List ℕ) → HasTakenParts all site number (Some bytes.now)
        → IfErr result (IsTextRefused all) }
{
    let mut rest = Some(bytes);
    while let Some(bytes) = rest {
        number = number.saturating_add(1);
        let (part, after) = first_part(bytes);
        submit(&mut site, part, number)?;
        rest = after;
    }
    Ok(site)
}

/// Hands the input of this number to a site, as a text.
pub fn submit(site: &mut Replica, part: &[u8], number: usize) -> Result<(), RunError>
    ensures legal { OnOk result (language.IsLegal part.now) }
    ensures adds { OnOk result (AddsRefusals site.old (language.text_refuses part.now) site.new) }
    ensures valid { OnOk result (language.IsValid site.new) }
    ensures refused { IfErr result (λ stop. (why : Refusal) ×
        IsRefusedAs why number stop × IsTextInputRefusal part.now why) }
    ensures unchanged { OnErr result (site.new ≡ site.old) }
{
    let text = match text_of(part) {
        Ok(text) => text,
        Err(why) => return Err(RunError::RefusedInput(why, number)),
    };
    match site.submit(text) {
        Ok(()) => Ok(()),
        Err(why) => Err(RunError::RefusedInput(why, number)),
    }
}

/// The text in these bytes: neither too long, nor anything but UTF-8.
pub fn text_of(bytes: &[u8]) -> Result<&str, Refusal>
    ensures text { IfOk result (λ text. (text.now ≡ bytes.now) × IsTextInput bytes.now) }
    ensures fault { IfErr result (IsByteFault bytes.now) }
{
    if bytes.len() > TEXT_LIMIT {
        return Err(Refusal::at(Kind::TooLong, TEXT_LIMIT));
    }
    match str::from_utf8(bytes) {
        Ok(text) => Ok(text),
        Err(error) => Err(Refusal::at(Kind::BadCharacter, error.valid_up_to())),
    }
}
