//! What has to be refused for what is reported at a path.
ghost use Rattle.std.specs.Prelude.{◌≡◌, ◌↔◌, ◌⊎◌, [], false, suc, length, map, Some, IfNone, IfOk, IfSome, IsTrue};
ghost use Rattle.cue_report.specs.Inner.GapSearch.{IsOpenAt};
ghost use Rattle.cue_report.specs.Inner.Search as search;
ghost use Rattle.cue_report.specs.Inner.Search.{is_above, is_empty_set};
ghost use Rattle.cue_row.specs.Row.{IsRow, RowRefusesQuestion};
ghost use Rattle.cue_row.specs.Steps.{step_of};
ghost use Rattle.cue_row.specs.declared.level.Level.TheVariants as levels;
ghost use Rattle.cue_why.specs.Finding.{HasNoDefault, RefusesValues};
ghost use Rattle.cue_why.specs.Inner.Findings.{IsFoundAt, IsGapOf, IsMetAt, IsNothingAt, IsReportedAs};
ghost use Rattle.cue_why.specs.Inner.Findings.{Meets, at_row};
ghost use Rattle.cue_why.specs.Inner.Trails.{TrailRefuses};
ghost use Rattle.cue_why.specs.Reported.{IsReported};

use crate::demand::{is_demanded, is_not_allowed};
use cue_lattice::{Memory, Narrow};
use cue_row::{Level, Row, Scalars, Step};
use std::alloc::Global;

/// What has to be refused at a demanded path, so that the report says there what it says.
#[derive(Clone, Copy, Debug, PartialEq, Eq)]
pub(crate) struct Finding {
    /// Each scalar, struct and list, or each length.
    pub no_value: bool,
    /// The last label, at the place above.
    pub not_allowed: bool,
    /// Each lesser level than this one.
    pub level: Level,
    /// Each scalar as the default.
    pub no_default: bool,
}

impl Finding {
    /// What has to be refused for what is reported at a path, by the rows of a view along it;
    /// nothing where nothing is reported.
    pub fn at(alloc: Global, rows: &[Row], path: &[Step]) -> Result<Option<Finding>, Memory>
        requires { length rows.now ≡ suc (length path.now) }
        ensures some { let steps = map step_of path.now in IfOk result (λ found.
            IfSome found (IsReportedAs (TrailRefuses RowRefusesQuestion steps rows.now) steps)) }
        ensures none { let steps = map step_of path.now in IfOk result (λ found.
            IfNone found (¬ IsReported (TrailRefuses RowRefusesQuestion steps rows.now) steps)) }
    {
        if !is_demanded(rows, path) {
            return Ok(None);
        }
        match rows.split_last() {
            None => Ok(None),
            Some((row, _above)) => Finding::finding_here(alloc, row, is_not_allowed(rows, path)),
        }
    }

    /// What has to be refused for what is reported at a demanded place with this row, the label of
    /// which is not allowed or is.
    fn finding_here(alloc: Global, row: &Row, not_allowed: bool) -> Result<Option<Finding>, Memory>
        ensures some { IfOk result (λ found. IfSome found (IsFoundAt row.now not_allowed)) }
        ensures none { IfOk result (λ found. IfNone found (IsNothingAt row.now not_allowed)) }
    {
        row.known();
        let no_value = lacks_value(row);
        if no_value || not_allowed {
            return Ok(Some(Finding {
                no_value,
                not_allowed,
                level: Level::Optional,
                no_default: false,
            }));
        }
        if !is_gap(alloc, row)? {
            return Ok(None);
        }
        Ok(Some(Finding::of_gap(row)))
    }

    /// What has to be refused for a gap.
    fn of_gap(row: &Row) -> Finding
        requires { IsRow row.now }
        ensures { IsGapOf row.now result }
    {
        let level = row.level();
        let no_default = match level {
            Level::Required => false,
            Level::Optional | Level::Given => lacks_default(row),
        };
        Finding {
            no_value: false,
            not_allowed: false,
            level,
            no_default,
        }
    }

    /// Whether the label alone is the finding.
    pub fn is_of_label(self) -> bool
        ensures { IsTrue result ↔ ((self.no_value ≡ false) × IsTrue self.not_allowed) }
    {
        !self.no_value && self.not_allowed
    }

    /// Whether rows along a path refuse what has to be refused.
    pub fn is_made_by(self, rows: &[Row], path: &[Step]) -> bool
        requires { length rows.now ≡ suc (length path.now) }
        ensures { let steps = map step_of path.now in
            IsTrue result ↔ Meets self (TrailRefuses RowRefusesQuestion steps rows.now) steps }
    {
        if !is_demanded(rows, path) {
            return false;
        }
        if !follows(self.not_allowed, is_not_allowed(rows, path)) {
            return false;
        }
        match rows.split_last() {
            None => false,
            Some((row, _above)) => self.is_met_at(row),
        }
    }

    /// Whether a row refuses what has to be refused at its own place.
    fn is_met_at(self, row: &Row) -> bool
        ensures { IsTrue result ↔ IsMetAt self row.now }
    {
        row.known();
        if !follows(self.no_value, refuses_values(row)) {
            return false;
        }
        if !follows(self.no_default, lacks_default(row)) {
            return false;
        }
        self.level.number() <= row.level().number()
    }
}

/// Whether the one holds where the other does.
fn follows(wanted: bool, found: bool) -> bool
    ensures { IsTrue result ↔ (IsTrue wanted → IsTrue found) }
{
    if wanted { found } else { true }
}

/// Whether no value may stand.
fn lacks_value(row: &Row) -> bool
    requires { IsRow row.now }
    ensures { result ≡ search.lacks_value row.now }
{
    if row.list_ok() {
        return lacks_length(row);
    }
    !row.struct_ok() && row.has_no_scalar()
}

/// Whether a row with a value is a gap: a required field that is not given, or no single value.
fn is_gap(alloc: Global, row: &Row) -> Result<bool, Memory>
    requires form { IsRow row.now }
    requires value { search.lacks_value row.now ≡ false }
    ensures { IfOk result (λ found. IsTrue found
        ↔ ((row.now.level ≡ levels.Required) ⊎ IsOpenAt (Some row.now))) }
{
    if let Level::Required = row.level() {
        return Ok(true);
    }
    is_open(alloc, row)
}

/// Whether a row with a value gives no single one: anything may stand, or only scalars, of which
/// none is chosen.
fn is_open(alloc: Global, row: &Row) -> Result<bool, Memory>
    requires form { IsRow row.now }
    requires value { search.lacks_value row.now ≡ false }
    ensures { IfOk result (λ found. IsTrue found ↔ IsOpenAt (Some row.now)) }
{
    match (row.struct_ok(), row.list_ok()) {
        (true, true) => Ok(row.has_all_scalars()),
        (false, false) => Ok(row.chosen(alloc)?.is_none()),
        (true, false) | (false, true) => Ok(false),
    }
}

/// Whether a row refuses each scalar, struct and list, or each length.
pub(crate) fn refuses_values(row: &Row) -> bool
    requires { IsRow row.now }
    ensures { IsTrue result ↔ RefusesValues (at_row row.now) [] }
{
    if lacks_length(row) {
        return true;
    }
    if row.list_ok() {
        return false;
    }
    if row.struct_ok() {
        return false;
    }
    row.has_no_scalar()
}

/// Whether the least length is above the greatest.
pub(crate) fn lacks_length(row: &Row) -> bool
    ensures { result ≡ is_above row.now.least row.now.most }
{
    match row.most() {
        None => false,
        Some(most) => most < row.least(),
    }
}

/// Whether no scalar is a default.
pub(crate) fn lacks_default(row: &Row) -> bool
    requires { IsRow row.now }
    ensures { IsTrue result ↔ HasNoDefault (at_row row.now) [] }
{
    is_empty(&row.usual())
}

/// Whether a set has no scalar.
fn is_empty(set: &Scalars) -> bool
    ensures { result ≡ is_empty_set set.now }
{
    let (all_but, texts) = set.texts();
    !(set.null() || set.no() || set.yes())
        && (set.pieces().is_empty() && (!all_but && texts.is_empty()))
}
