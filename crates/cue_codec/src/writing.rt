//! The parts of a row as bytes. Where memory runs out, what stood there before still begins the
//! bytes.

ghost use Rattle.std.specs.Prelude.{◌≡◌, ◌<◌, ◌^◌, ◌++◌, OnErr, OnOk};
ghost use Rattle.std.specs.List.{flat_map, AllByRecursion};
ghost use Rattle.std.specs.Option.{option_map};
ghost use Rattle.cue_row.specs.Begun.{StillBegins};
ghost use Rattle.cue_table.specs.StepsOfCode.{step_at};
ghost use Rattle.cue_codec.specs.Entry.{at, to_rest};
ghost use Rattle.cue_codec.specs.Parts.{integer_bytes, counted_bytes, piece_bytes, text_bytes};
ghost use Rattle.cue_codec.specs.Parts.{flags, text_set_bytes, set_bytes, labels_bytes, most_bytes};
ghost use Rattle.cue_codec.specs.Parts.{lengths_bytes, step_bytes};
ghost use Rattle.cue_codec.specs.Reading.{IsShort, IsShortStep, AreShortLabels};
ghost use Rattle.cue_codec.specs.Version.{written_version};

use cue_lattice::{Memory, Text};
use cue_row::Scalars;
use cue_table::StepRef;

#[tactic(auto, unfolding(crate::specs::Parts::integer_bytes))]
fn put_integer(out: &mut Vec<u8>, integer: i64) -> Result<(), Memory>
    ensures written { OnOk result (out.new.items ≡ out.old.items ++ integer_bytes integer) }
    ensures kept { OnErr result (StillBegins out.old.items out.new.items) }
{
    out.extend_from_slice(&integer.to_be_bytes())?;
    Ok(())
}

#[tactic(auto, unfolding(crate::specs::Parts::piece_bytes))]
fn put_piece(out: &mut Vec<u8>, piece: (i64, i64)) -> Result<(), Memory>
    ensures written { OnOk result (out.new.items ≡ out.old.items ++ piece_bytes piece) }
    ensures kept { OnErr result (StillBegins out.old.items out.new.items) }
{
    put_integer(out, piece.0)?;
    put_integer(out, piece.1)?;
    Ok(())
}

#[tactic(auto, unfolding(crate::specs::Parts::text_bytes))]
#[inline(always)]
fn put_text(out: &mut Vec<u8>, text: &Text) -> Result<(), Memory>
    requires { IsShort text.now }
    ensures written { OnOk result (out.new.items ≡ out.old.items ++ text_bytes text.now) }
    ensures kept { OnErr result (StillBegins out.old.items out.new.items) }
{
    let bytes = text.as_bytes();
    out.extend_from_slice(&(bytes.len() as u16).to_be_bytes())?;
    out.extend_from_slice(bytes)?;
    Ok(())
}

fn put_each_piece(out: &mut Vec<u8>, pieces: &[(i64, i64)]) -> Result<(), Memory>
    ensures written { OnOk result (out.new.items ≡ out.old.items
        ++ flat_map piece_bytes pieces.now) }
    ensures kept { OnErr result (StillBegins out.old.items out.new.items) }
{
    for piece in pieces {
        put_piece(out, *piece)?;
    }
    Ok(())
}

#[tactic(auto, unfolding(crate::specs::Parts::counted_bytes))]
fn put_pieces(out: &mut Vec<u8>, pieces: &[(i64, i64)]) -> Result<(), Memory>
    ensures written { OnOk result (out.new.items ≡ out.old.items
        ++ counted_bytes piece_bytes pieces.now) }
    ensures kept { OnErr result (StillBegins out.old.items out.new.items) }
{
    out.extend_from_slice(&(pieces.len() as u64).to_be_bytes())?;
    put_each_piece(out, pieces)
}

fn put_each_text(out: &mut Vec<u8>, texts: &[Text]) -> Result<(), Memory>
    requires { AllByRecursion IsShort texts.now }
    ensures written { OnOk result (out.new.items ≡ out.old.items ++ flat_map text_bytes texts.now) }
    ensures kept { OnErr result (StillBegins out.old.items out.new.items) }
{
    for text in texts {
        put_text(out, text)?;
    }
    Ok(())
}

#[tactic(auto, unfolding(crate::specs::Parts::counted_bytes))]
fn put_texts(out: &mut Vec<u8>, texts: &[Text]) -> Result<(), Memory>
    requires { AllByRecursion IsShort texts.now }
    ensures written { OnOk result (out.new.items ≡ out.old.items
        ++ counted_bytes text_bytes texts.now) }
    ensures kept { OnErr result (StillBegins out.old.items out.new.items) }
{
    out.extend_from_slice(&(texts.len() as u64).to_be_bytes())?;
    put_each_text(out, texts)
}

#[tactic(auto, unfolding(crate::specs::Parts::text_set_bytes))]
fn put_text_set(out: &mut Vec<u8>, all_but: bool, texts: &[Text]) -> Result<(), Memory>
    requires { AllByRecursion IsShort texts.now }
    ensures written { OnOk result (out.new.items ≡ out.old.items
        ++ text_set_bytes (all_but, texts.now)) }
    ensures kept { OnErr result (StillBegins out.old.items out.new.items) }
{
    out.push(u8::from(all_but))?;
    put_texts(out, texts)
}

/// A byte that says which of null, false and true are members.
fn flags_of(null: bool, no: bool, yes: bool) -> u8
    ensures { result ≡ flags null no yes }
{
    u8::from(null) + 2 * u8::from(no) + 4 * u8::from(yes)
}

#[tactic(auto, unfolding(crate::specs::Parts::set_bytes))]
#[inline(always)]
pub fn put_set(out: &mut Vec<u8>, set: &Scalars) -> Result<(), Memory>
    requires { AllByRecursion IsShort set.now.texts.1 }
    ensures written { OnOk result (out.new.items ≡ out.old.items ++ set_bytes set.now) }
    ensures kept { OnErr result (StillBegins out.old.items out.new.items) }
{
    out.push(flags_of(set.null(), set.no(), set.yes()))?;
    put_pieces(out, set.pieces())?;
    let (all_but, texts) = set.texts();
    put_text_set(out, all_but, texts)
}

/// Writes which labels may stand: all, or the listed ones.
#[tactic(auto, unfolding(crate::specs::Parts::labels_bytes))]
pub fn put_labels(out: &mut Vec<u8>, labels: Option<&[Text]>) -> Result<(), Memory>
    requires { AreShortLabels (option_map (λ texts. texts.now) labels) }
    ensures written { OnOk result (out.new.items ≡ out.old.items
        ++ labels_bytes (option_map (λ texts. texts.now) labels.entry)) }
    ensures kept { OnErr result (StillBegins out.old.items out.new.items) }
{
    match labels {
        None => {
            out.push(0)?;
            Ok(())
        }
        Some(texts) => {
            out.push(1)?;
            put_texts(out, texts)
        }
    }
}

#[tactic(auto, unfolding(crate::specs::Parts::most_bytes))]
fn put_most(out: &mut Vec<u8>, most: Option<u32>) -> Result<(), Memory>
    ensures written { OnOk result (out.new.items ≡ out.old.items ++ most_bytes most) }
    ensures kept { OnErr result (StillBegins out.old.items out.new.items) }
{
    match most {
        None => {
            out.push(0)?;
        }
        Some(most) => {
            out.push(1)?;
            out.extend_from_slice(&most.to_be_bytes())?;
        }
    }
    Ok(())
}

/// Writes the lengths of a list, and from which index on its elements are alike.
#[tactic(auto, unfolding(crate::specs::Parts::lengths_bytes, crate::specs::Parts::index_bytes))]
pub fn put_lengths(
    out: &mut Vec<u8>,
    least: u32,
    most: Option<u32>,
    fixed: u64,
) -> Result<(), Memory>
    requires { fixed < 2 ^ 32 }
    ensures written { OnOk result (out.new.items ≡ out.old.items
        ++ lengths_bytes written_version (least, most, fixed)) }
    ensures kept { OnErr result (StillBegins out.old.items out.new.items) }
{
    out.extend_from_slice(&least.to_be_bytes())?;
    put_most(out, most)?;
    out.extend_from_slice(&(fixed as u32).to_be_bytes())?;
    Ok(())
}

/// Writes a label or an index.
#[tactic(auto, unfolding(crate::specs::Parts::step_bytes))]
pub fn put_step(out: &mut Vec<u8>, step: StepRef) -> Result<(), Memory>
    requires { IsShortStep (step_at step) }
    ensures written { OnOk result (out.new.items ≡ out.old.items
        ++ step_bytes written_version (at (step_at step.entry))) }
    ensures kept { OnErr result (StillBegins out.old.items out.new.items) }
{
    match step {
        StepRef::Label(text) => {
            out.push(0)?;
            put_text(out, text)
        }
        StepRef::Index(number) => {
            out.push(1)?;
            out.extend_from_slice(&number.to_be_bytes())?;
            Ok(())
        }
    }
}

/// Writes the step to the rest of a list.
#[tactic(auto, unfolding(crate::specs::Parts::step_bytes))]
pub fn put_rest(out: &mut Vec<u8>) -> Result<(), Memory>
    ensures written { OnOk result (out.new.items ≡ out.old.items ++ step_bytes written_version to_rest) }
    ensures kept { OnErr result (StillBegins out.old.items out.new.items) }
{
    out.push(2)?;
    Ok(())
}
