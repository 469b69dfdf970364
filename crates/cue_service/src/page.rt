ghost use Rattle.std.specs.Prelude.{◌≡◌, IfOk, OnOk, string_bytes};
ghost use Rattle.cue_service.specs.Pages.{IsPage};

use crate::board::CachedTable;
use crate::kept::KeptAnswer;
use crate::markup::{Markup, add_markup, add_text};
use crate::standing::{SourceStanding, Standing};
use cue_lattice::Memory;
use cue_replica::{SiteQuestion, Status};
use std::alloc::Global;

/// What stands in the place of an answer that is over the limit.
const OVER_LIMIT: &[u8] = b"over the limit of answers\n";

/// One page for a person: what conflicts and what is incomplete, the printed text, and the other
/// sites.
pub(crate) fn page(
    alloc: Global,
    board: &mut CachedTable,
    limit: usize,
    standing: &Standing,
) -> Result<String, Memory>
    ensures page { IfOk result (λ text. IsPage (string_bytes text)) }
    ensures same { board.new ≡ board.old }
{
    let mut text = String::new(alloc);
    add_markup(&mut text, Markup::Head)?;
    add_faults(&mut text, board, limit)?;
    let print = board.answer_within(SiteQuestion::Print, limit)?;
    add_markup(&mut text, Markup::Known)?;
    add_answer(&mut text, &print)?;
    add_markup(&mut text, Markup::EndOfLines)?;
    add_markup(&mut text, Markup::Peers)?;
    add_peers(alloc, &mut text, standing)?;
    add_markup(&mut text, Markup::Foot)?;
    Ok(text)
}

/// An answer, or that it is over the limit.
fn add_answer(text: &mut String, told: &Option<KeptAnswer>) -> Result<(), Memory>
    ensures { OnOk result (IsPage (string_bytes text.old) → IsPage (string_bytes text.new)) }
{
    match told {
        Some(told) => add_text(text, told.bytes.as_slice()),
        None => add_text(text, OVER_LIMIT),
    }
}

/// What conflicts, and what is incomplete.
fn add_faults(text: &mut String, board: &mut CachedTable, limit: usize) -> Result<(), Memory>
    ensures page { OnOk result (IsPage (string_bytes text.old) → IsPage (string_bytes text.new)) }
    ensures same { board.new ≡ board.old }
{
    let export = board.answer_within(SiteQuestion::Export, limit)?;
    let Some(report) = board.answer_within(SiteQuestion::Report, limit)? else {
        return add_lines(text, Markup::Incomplete, OVER_LIMIT);
    };
    let conflicts = match &export {
        Some(told) if told.status == Status::Conflicts => told.bytes.len(),
        _ => 0,
    };
    let report_bytes = report.bytes.as_slice();
    if report_bytes.is_empty() {
        return add_markup(text, Markup::NoFaults);
    }
    let (first, rest) = report_bytes.split_at(conflicts.min(report_bytes.len()));
    add_lines(text, Markup::Conflicts, first)?;
    add_lines(text, Markup::Incomplete, rest)
}

/// Lines behind a heading, where there are any.
fn add_lines(text: &mut String, heading: Markup, lines: &[u8]) -> Result<(), Memory>
    ensures { OnOk result (IsPage (string_bytes text.old) → IsPage (string_bytes text.new)) }
{
    if lines.is_empty() {
        return Ok(());
    }
    add_markup(text, heading)?;
    add_text(text, lines)?;
    add_markup(text, Markup::EndOfLines)
}

fn add_peers(alloc: Global, text: &mut String, standing: &Standing) -> Result<(), Memory>
    ensures { OnOk result (IsPage (string_bytes text.old) → IsPage (string_bytes text.new)) }
{
    if standing.sources.is_empty() {
        return add_markup(text, Markup::NoPeers);
    }
    add_markup(text, Markup::Table)?;
    for source in &standing.sources {
        add_peer(alloc, text, source, standing.now)?;
    }
    add_markup(text, Markup::EndOfTable)
}

fn add_peer(
    alloc: Global,
    text: &mut String,
    source: &SourceStanding,
    now: u64,
) -> Result<(), Memory>
    ensures { OnOk result (IsPage (string_bytes text.old) → IsPage (string_bytes text.new)) }
{
    add_markup(text, Markup::Peer)?;
    add_text(text, source.name.as_bytes())?;
    add_markup(text, Markup::Cell)?;
    let line = peer_line(alloc, source, now)?;
    add_text(text, line.as_bytes())?;
    add_markup(text, Markup::EndOfPeer)
}

/// When a peer answered last.
fn peer_line(alloc: Global, source: &SourceStanding, now: u64) -> Result<String, Memory> {
    let failing = if source.failing {
        ", and does not answer now"
    } else {
        ""
    };
    Ok(match source.last {
        Some(last) => {
            let age = now.saturating_sub(last);
            format!(in alloc; "answered {age} seconds ago{failing}")?
        }
        None => format!(in alloc; "has not answered{failing}")?,
    })
}
