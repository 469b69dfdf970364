//! What places are printed as.
ghost use Rattle.std.specs.Prelude.{◌≡◌, ◌++◌, ◌||◌, is_some, nat_lt, codes, OnErr, OnOk};
ghost use Rattle.std.specs.Io.KnownBytes.{Appends};
ghost use Rattle.std.specs.Option.{option_map};
ghost use Rattle.cue_device.specs.Texts.{WritesPrefix};
ghost use Rattle.cue_table.specs.Tree.{below, rest_below, row_of};
ghost use Rattle.cue_row.specs.Quoted.{quote_text};
ghost use Rattle.cue_print.specs.Spelled.{join_texts, mark_text, value_text, field_texts};
ghost use Rattle.cue_print.specs.Spelled.{element_texts, struct_text};
ghost use Rattle.cue_print.specs.Printed.{elements, fields_of_labels, has_field, level_at};
ghost use Rattle.cue_print.specs.Printed.{value_of, fields_below, rest_value};
ghost use Rattle.cue_print.specs.Inner.Writing.{fields_at, element_of, further_at};
ghost use Rattle.cue_print.specs.Inner.Writing.{beside_text, struct_before, field_opening, fields_closing};
ghost use Rattle.cue_print.specs.Inner.Writing.{is_exact};
ghost use Rattle.cue_print.specs.Inner.Writing.{ending_text, list_before, rest_value_text, separator_before};
ghost use Rattle.cue_print.specs.Inner.Writing.{closed_text, declared_text, written_struct};
ghost use Rattle.cue_print.specs.Inner.Writing.{written_list};
ghost use Rattle.cue_print.specs.Inner.Writing.{written_nothing};

use crate::free::{push_free_field, push_longest};
use crate::scalar::push_scalar;
use crate::writer::{Scratch, push_text, separate};
use cue_device::TextSink;
use cue_lattice::{Narrow, Text};
use cue_row::{Level, Row, Step};
use cue_table::Branch;

/// Writes the value of a place.
#[cycle(walk)]
pub(crate) fn push_value<S: TextSink>(
    scratch: &mut Scratch,
    out: &mut S,
    branch: &Branch<Row>,
) -> Result<(), S::SinkError>
    ensures told { OnOk result (Appends (S.taken out.old) (S.taken out.new)
        (value_text (value_of branch.now))) }
    ensures begun { OnErr result (WritesPrefix (S.taken out.old) (S.taken out.new)
        (value_text (value_of branch.now))) }
{
    let Some(row) = branch.row() else {
        return out.put("_");
    };
    match (row.struct_ok(), row.list_ok()) {
        (true, true) => out.put("_"),
        (true, false) => push_struct(scratch, out, row, branch),
        (false, true) => push_list(scratch, out, row, branch),
        (false, false) => {
            row.known();
            if row.has_no_scalar() {
                return push_nothing(scratch, out, row, branch);
            }
            push_scalar(scratch, out, row)
        }
    }
}

/// Writes nothing, behind what is left out below it.
#[cycle(walk)]
#[tactic(auto, using(crate::proofs::Turns::turns))]
fn push_nothing<S: TextSink>(
    scratch: &mut Scratch,
    out: &mut S,
    row: &Row,
    branch: &Branch<Row>,
) -> Result<(), S::SinkError>
    ensures told { OnOk result (Appends (S.taken out.old) (S.taken out.new)
        (written_nothing row.now branch.now)) }
    ensures begun { OnErr result (WritesPrefix (S.taken out.old) (S.taken out.new)
        (written_nothing row.now branch.now)) }
{
    push_struct_before(scratch, out, row, branch)?;
    push_list_before(scratch, out, row, branch)?;
    out.put("_|_")?;
    Ok(())
}

/// Writes a struct in front of other parts, where labels are left out or a label stands below.
#[cycle(walk)]
#[tactic(auto, unfolding(crate::specs::Inner::Writing::struct_before), using(crate::proofs::Turns::one_or_none))]
fn push_struct_before<S: TextSink>(
    scratch: &mut Scratch,
    out: &mut S,
    row: &Row,
    branch: &Branch<Row>,
) -> Result<(), S::SinkError>
    ensures told { OnOk result (Appends (S.taken out.old) (S.taken out.new)
        (struct_before row.now (fields_at branch.now))) }
    ensures begun { OnErr result (WritesPrefix (S.taken out.old) (S.taken out.new)
        (struct_before row.now (fields_at branch.now))) }
{
    if has_struct_part(row, branch) {
        push_struct_in_front(scratch, out, row, branch)
    } else {
        Ok(())
    }
}

/// Writes a struct in front of another part.
#[cycle(walk)]
#[tactic(auto, using(crate::proofs::Turns::turns))]
fn push_struct_in_front<S: TextSink>(
    scratch: &mut Scratch,
    out: &mut S,
    row: &Row,
    branch: &Branch<Row>,
) -> Result<(), S::SinkError>
    ensures told { OnOk result (Appends (S.taken out.old) (S.taken out.new)
        (written_struct row.now.labels (fields_at branch.now) ++ codes " & ")) }
    ensures begun { OnErr result (WritesPrefix (S.taken out.old) (S.taken out.new)
        (written_struct row.now.labels (fields_at branch.now) ++ codes " & ")) }
{
    push_struct(scratch, out, row, branch)?;
    out.put(" & ")?;
    Ok(())
}

/// Whether labels are left out below a place, or a label stands there.
fn has_struct_part(row: &Row, branch: &Branch<Row>) -> bool
    ensures { result ≡ (is_some row.now.labels || has_field (fields_below (below branch.now))) }
{
    if row.labels().is_some() {
        return true;
    }
    has_field(branch)
}

/// Writes a list in front of other parts, where lengths are left out or further elements are told.
#[cycle(walk)]
#[tactic(auto, unfolding(crate::specs::Inner::Writing::list_before), using(crate::proofs::Turns::one_or_none))]
fn push_list_before<S: TextSink>(
    scratch: &mut Scratch,
    out: &mut S,
    row: &Row,
    branch: &Branch<Row>,
) -> Result<(), S::SinkError>
    ensures told { OnOk result (Appends (S.taken out.old) (S.taken out.new)
        (list_before row.now (element_of branch.now) (further_at branch.now))) }
    ensures begun { OnErr result (WritesPrefix (S.taken out.old) (S.taken out.new)
        (list_before row.now (element_of branch.now) (further_at branch.now))) }
{
    if has_list_part(row, branch) {
        push_list_in_front(scratch, out, row, branch)
    } else {
        Ok(())
    }
}

/// Writes a list in front of another part.
#[cycle(walk)]
#[tactic(auto, using(crate::proofs::Turns::turns))]
fn push_list_in_front<S: TextSink>(
    scratch: &mut Scratch,
    out: &mut S,
    row: &Row,
    branch: &Branch<Row>,
) -> Result<(), S::SinkError>
    ensures told { OnOk result (Appends (S.taken out.old) (S.taken out.new)
        (written_list row.now.least row.now.most (element_of branch.now)
        (further_at branch.now) ++ codes " & ")) }
    ensures begun { OnErr result (WritesPrefix (S.taken out.old) (S.taken out.new)
        (written_list row.now.least row.now.most (element_of branch.now)
        (further_at branch.now) ++ codes " & ")) }
{
    push_list(scratch, out, row, branch)?;
    out.put(" & ")?;
    Ok(())
}

/// Whether lengths are left out at a place, or something is said of further elements.
fn has_list_part(row: &Row, branch: &Branch<Row>) -> bool
    ensures { result ≡ (nat_lt 0 row.now.least || is_some row.now.most
        || is_some (rest_value (rest_below branch.now))) }
{
    row.least() > 0 || row.most().is_some() || has_rest(branch)
}

/// Whether something is said of the further elements of a place.
fn has_rest(branch: &Branch<Row>) -> bool
    ensures { result ≡ is_some (rest_value (rest_below branch.now)) }
{
    branch.rest().is_some()
}

/// Whether a label stands below a place.
fn has_field(branch: &Branch<Row>) -> bool
    ensures { result ≡ has_field (fields_below (below branch.now)) }
{
    let mut labels = branch.labels();
    match labels.next() {
        None => false,
        Some(_) => true,
    }
}

/// Writes a struct: all fields below, or, where only some labels may stand, a closed struct with a
/// field for each of them, and the other fields beside it.
#[cycle(walk)]
fn push_struct<S: TextSink>(
    scratch: &mut Scratch,
    out: &mut S,
    row: &Row,
    branch: &Branch<Row>,
) -> Result<(), S::SinkError>
    ensures told { OnOk result (Appends (S.taken out.old) (S.taken out.new)
        (written_struct row.now.labels (fields_at branch.now))) }
    ensures begun { OnErr result (WritesPrefix (S.taken out.old) (S.taken out.new)
        (written_struct row.now.labels (fields_at branch.now))) }
{
    match row.labels() {
        None => push_open_struct(scratch, out, branch),
        Some(labels) => push_closed_struct(scratch, out, row, labels, branch),
    }
}

/// Writes a struct of all fields below a place.
#[cycle(walk)]
#[tactic(auto, using(crate::proofs::Turns::turns))]
fn push_open_struct<S: TextSink>(
    scratch: &mut Scratch,
    out: &mut S,
    branch: &Branch<Row>,
) -> Result<(), S::SinkError>
    ensures told { OnOk result (Appends (S.taken out.old) (S.taken out.new)
        (struct_text (field_texts (fields_at branch.now)))) }
    ensures begun { OnErr result (WritesPrefix (S.taken out.old) (S.taken out.new)
        (struct_text (field_texts (fields_at branch.now)))) }
{
    out.put("{")?;
    push_fields(scratch, out, branch)?;
    out.put("}")?;
    Ok(())
}

/// Writes a closed struct of the labels that may stand, and the other fields beside it.
#[cycle(walk)]
#[tactic(auto, using(crate::proofs::Turns::turns))]
fn push_closed_struct<S: TextSink>(
    scratch: &mut Scratch,
    out: &mut S,
    row: &Row,
    labels: &[Text],
    branch: &Branch<Row>,
) -> Result<(), S::SinkError>
    ensures told { OnOk result (Appends (S.taken out.old) (S.taken out.new)
        (closed_text labels.now row.now.labels (fields_at branch.now))) }
    ensures begun { OnErr result (WritesPrefix (S.taken out.old) (S.taken out.new)
        (closed_text labels.now row.now.labels (fields_at branch.now))) }
{
    out.put("close({")?;
    push_inside(scratch, out, labels, branch)?;
    out.put("})")?;
    push_outside(scratch, out, row, branch)?;
    Ok(())
}

/// Writes all fields below a place.
#[cycle(walk)]
fn push_fields<S: TextSink>(
    scratch: &mut Scratch,
    out: &mut S,
    branch: &Branch<Row>,
) -> Result<(), S::SinkError>
    ensures told { OnOk result (Appends (S.taken out.old) (S.taken out.new)
        (join_texts (codes ", ") (field_texts (fields_at branch.now)))) }
    ensures begun { OnErr result (WritesPrefix (S.taken out.old) (S.taken out.new)
        (join_texts (codes ", ") (field_texts (fields_at branch.now)))) }
{
    let mut is_first = true;
    for (label, field) in branch.labels() {
        separate(out, ", ", is_first)?;
        push_field(scratch, out, label, &field)?;
        is_first = false;
    }
    Ok(())
}

/// Writes a field for each label.
#[cycle(walk)]
fn push_inside<S: TextSink>(
    scratch: &mut Scratch,
    out: &mut S,
    labels: &[Text],
    branch: &Branch<Row>,
) -> Result<(), S::SinkError>
    ensures told { OnOk result (Appends (S.taken out.old) (S.taken out.new)
        (join_texts (codes ", ") (field_texts (fields_of_labels labels.now (fields_at branch.now))))) }
    ensures begun { OnErr result (WritesPrefix (S.taken out.old) (S.taken out.new)
        (join_texts (codes ", ") (field_texts (fields_of_labels labels.now (fields_at branch.now))))) }
{
    for (i, label) in labels.iter().enumerate() {
        separate(out, ", ", i == 0)?;
        push_declared(scratch, out, label, branch)?;
    }
    Ok(())
}

/// Writes the field of a label, an optional one of anything where no row has it.
#[cycle(walk)]
fn push_declared<S: TextSink>(
    scratch: &mut Scratch,
    out: &mut S,
    label: &Text,
    branch: &Branch<Row>,
) -> Result<(), S::SinkError>
    ensures told { OnOk result (Appends (S.taken out.old) (S.taken out.new)
        (declared_text label.now branch.now)) }
    ensures begun { OnErr result (WritesPrefix (S.taken out.old) (S.taken out.new)
        (declared_text label.now branch.now)) }
{
    let step = Step::Label(label.copy(scratch.alloc)?);
    match branch.find(&step) {
        None => push_free_field(scratch, out, label),
        Some(field) => push_field(scratch, out, label.as_str(), &field),
    }
}

/// Writes a struct of the fields whose labels may not stand, where there are any.
#[cycle(walk)]
fn push_outside<S: TextSink>(
    scratch: &mut Scratch,
    out: &mut S,
    row: &Row,
    branch: &Branch<Row>,
) -> Result<(), S::SinkError>
    ensures told { OnOk result (Appends (S.taken out.old) (S.taken out.new)
        (beside_text row.now.labels (fields_at branch.now))) }
    ensures begun { OnErr result (WritesPrefix (S.taken out.old) (S.taken out.new)
        (beside_text row.now.labels (fields_at branch.now))) }
{
    let mut is_first = true;
    for (label, field) in branch.labels() {
        if !row.allows(label) {
            push_opening(out, is_first)?;
            push_field(scratch, out, label, &field)?;
            is_first = false;
        }
    }
    push_closing(out, is_first)?;
    Ok(())
}

/// Writes what stands behind the fields whose labels may not stand, where there are any.
#[tactic(auto, using(crate::proofs::Turns::one_or_none))]
fn push_closing<S: TextSink>(out: &mut S, is_first: bool) -> Result<(), S::SinkError>
    ensures told { OnOk result (Appends (S.taken out.old) (S.taken out.new)
        (fields_closing is_first)) }
    ensures begun { OnErr result (WritesPrefix (S.taken out.old) (S.taken out.new)
        (fields_closing is_first)) }
{
    if !is_first {
        out.put("}")?;
    }
    Ok(())
}

/// Writes what stands before a field whose label may not stand.
fn push_opening<S: TextSink>(out: &mut S, is_first: bool) -> Result<(), S::SinkError>
    ensures told { OnOk result (Appends (S.taken out.old) (S.taken out.new)
        (field_opening is_first)) }
    ensures begun { OnErr result (WritesPrefix (S.taken out.old) (S.taken out.new)
        (field_opening is_first)) }
{
    if is_first {
        out.put(" & {")?;
    } else {
        out.put(", ")?;
    }
    Ok(())
}

/// Writes the field of a label.
#[cycle(walk)]
#[tactic(auto, using(crate::proofs::Turns::turns))]
pub(crate) fn push_field<S: TextSink>(
    scratch: &mut Scratch,
    out: &mut S,
    label: &str,
    field: &Branch<Row>,
) -> Result<(), S::SinkError>
    ensures told { OnOk result (Appends (S.taken out.old) (S.taken out.new)
        (quote_text label.now
        ++ (mark_text (level_at (row_of field.now)) ++ value_text (value_of field.now)))) }
    ensures begun { OnErr result (WritesPrefix (S.taken out.old) (S.taken out.new)
        (quote_text label.now
        ++ (mark_text (level_at (row_of field.now)) ++ value_text (value_of field.now)))) }
{
    push_text(scratch, out, label)?;
    push_mark(out, level_of(field.row()))?;
    push_value(scratch, out, field)?;
    Ok(())
}

/// The level of a place.
fn level_of(row: Option<&Row>) -> Level
    ensures { result ≡ level_at (option_map (λ row. row.now) row.entry) }
{
    match row {
        None => Level::Optional,
        Some(row) => row.level(),
    }
}

/// Writes what marks the label of a level.
fn push_mark<S: TextSink>(out: &mut S, level: Level) -> Result<(), S::SinkError>
    ensures told { OnOk result (Appends (S.taken out.old) (S.taken out.new)
        (mark_text level)) }
    ensures begun { OnErr result (WritesPrefix (S.taken out.old) (S.taken out.new)
        (mark_text level)) }
{
    out.put(match level {
        Level::Optional => "?: ",
        Level::Required => "!: ",
        Level::Given => ": ",
    })?;
    Ok(())
}

/// Writes a list: its elements, and what tells its lengths.
#[cycle(walk)]
#[tactic(auto, using(crate::proofs::Turns::turns))]
fn push_list<S: TextSink>(
    scratch: &mut Scratch,
    out: &mut S,
    row: &Row,
    branch: &Branch<Row>,
) -> Result<(), S::SinkError>
    ensures told { OnOk result (Appends (S.taken out.old) (S.taken out.new)
        (written_list row.now.least row.now.most (element_of branch.now)
        (further_at branch.now))) }
    ensures begun { OnErr result (WritesPrefix (S.taken out.old) (S.taken out.new)
        (written_list row.now.least row.now.most (element_of branch.now)
        (further_at branch.now))) }
{
    let is_exact = is_exact(row, branch);
    out.put("[")?;
    push_elements(scratch, out, row.least(), branch)?;
    push_ending(scratch, out, row.least(), is_exact, branch)?;
    out.put("]")?;
    push_longest(out, row.most(), is_exact)?;
    Ok(())
}

/// Whether the elements alone tell a list: it has one length, and nothing is said of further
/// elements.
fn is_exact(row: &Row, branch: &Branch<Row>) -> bool
    ensures { result ≡ is_exact row.now.least row.now.most (rest_value (rest_below branch.now)) }
{
    match row.most() {
        None => false,
        Some(most) => row.least() == most && !has_rest(branch),
    }
}

/// Writes what ends the elements of a list, by their number and whether they alone tell it.
#[cycle(walk)]
#[tactic(auto, using(crate::proofs::Turns::one_or_none))]
fn push_ending<S: TextSink>(
    scratch: &mut Scratch,
    out: &mut S,
    count: u32,
    is_exact: bool,
    branch: &Branch<Row>,
) -> Result<(), S::SinkError>
    ensures told { OnOk result (Appends (S.taken out.old) (S.taken out.new)
        (ending_text count is_exact (further_at branch.now))) }
    ensures begun { OnErr result (WritesPrefix (S.taken out.old) (S.taken out.new)
        (ending_text count is_exact (further_at branch.now))) }
{
    if is_exact {
        Ok(())
    } else {
        push_dots(scratch, out, count == 0, branch)
    }
}

/// Writes `...` and what each further element is, behind elements or first of all.
#[cycle(walk)]
#[tactic(auto, using(crate::proofs::Turns::turns))]
fn push_dots<S: TextSink>(
    scratch: &mut Scratch,
    out: &mut S,
    is_first: bool,
    branch: &Branch<Row>,
) -> Result<(), S::SinkError>
    ensures told { OnOk result (Appends (S.taken out.old) (S.taken out.new)
        (separator_before (codes ", ") is_first ++ (codes "..." ++ rest_value_text (further_at branch.now)))) }
    ensures begun { OnErr result (WritesPrefix (S.taken out.old) (S.taken out.new)
        (separator_before (codes ", ") is_first ++ (codes "..." ++ rest_value_text (further_at branch.now)))) }
{
    separate(out, ", ", is_first)?;
    out.put("...")?;
    push_rest(scratch, out, branch)?;
    Ok(())
}

/// Writes what each further element is, where something is said of it.
#[cycle(walk)]
fn push_rest<S: TextSink>(
    scratch: &mut Scratch,
    out: &mut S,
    branch: &Branch<Row>,
) -> Result<(), S::SinkError>
    ensures told { OnOk result (Appends (S.taken out.old) (S.taken out.new)
        (rest_value_text (further_at branch.now))) }
    ensures begun { OnErr result (WritesPrefix (S.taken out.old) (S.taken out.new)
        (rest_value_text (further_at branch.now))) }
{
    match branch.rest() {
        None => Ok(()),
        Some(rest) => push_value(scratch, out, &rest),
    }
}

/// Writes as many elements of a place.
#[cycle(walk)]
fn push_elements<S: TextSink>(
    scratch: &mut Scratch,
    out: &mut S,
    count: u32,
    branch: &Branch<Row>,
) -> Result<(), S::SinkError>
    ensures told { OnOk result (Appends (S.taken out.old) (S.taken out.new)
        (join_texts (codes ", ") (element_texts (elements count (element_of branch.now))))) }
    ensures begun { OnErr result (WritesPrefix (S.taken out.old) (S.taken out.new)
        (join_texts (codes ", ") (element_texts (elements count (element_of branch.now))))) }
{
    for number in 0..count {
        separate(out, ", ", number == 0)?;
        push_element(scratch, out, number, branch)?;
    }
    Ok(())
}

/// Writes the element of a number.
#[cycle(walk)]
fn push_element<S: TextSink>(
    scratch: &mut Scratch,
    out: &mut S,
    number: u32,
    branch: &Branch<Row>,
) -> Result<(), S::SinkError>
    ensures told { OnOk result (Appends (S.taken out.old) (S.taken out.new)
        (value_text (element_of branch.now number))) }
    ensures begun { OnErr result (WritesPrefix (S.taken out.old) (S.taken out.new)
        (value_text (element_of branch.now number))) }
{
    match branch.find(&Step::Index(number)) {
        None => out.put("_"),
        Some(element) => push_value(scratch, out, &element),
    }
}
