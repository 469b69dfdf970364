//! What a put would change in a report.
ghost use Rattle.std.specs.Prelude.{◌≡◌, IfOk, IfErr};
ghost use Rattle.cue_layers.specs.View.{IsViewRefusal};
ghost use Rattle.cue_layers.specs.Refusals.{out_of_memory};
ghost use Rattle.cue_program.specs.Files.{texts_of_files};
ghost use Rattle.cue_layers_program.specs.Changes.{order};
ghost use Rattle.cue_layers_program.specs.Tries.{IsFormerReport, IsReport, IsTried, IsTryStop};

use crate::difference::new_lines;
use crate::map_file::{check_name, read_map};
use crate::putting::put_files;
use crate::stop::LayersStop;
use cue_layers::{LayerKind, Layers, LayersRefusal};
use cue_program::{Answer, FileSystem, SiteQuestion, answer_to};
use std::alloc::Global;
use std::io::Read;

/// The lines of the report after a put that are none of the report before it, as `put` would put it,
/// and the status that these lines have. Nothing is written. A view that has more rows than the
/// limit has no report, so that all lines after a put that makes it small enough are new.
///
/// # Errors
///
/// As `put`; `ViewTooLarge` where the view has more rows than the limit after the put.
pub fn attempt<H: AllocGlobal + FileSystem, R: Read>(
    rt: &mut H,
    kind: LayerKind,
    name: &str,
    map: &str,
    files: &[&str],
    limit: u64,
    input: &mut R,
) -> Result<Answer, LayersStop>
    ensures tried { IfOk result (IsTried H.makes H.held
        (order kind name.now map.now (texts_of_files files.now) (R.remaining input.old) limit)
        rt.old rt.new) }
    ensures stop { IfErr result (IsTryStop H.makes H.held
        (order kind name.now map.now (texts_of_files files.now) (R.remaining input.old) limit)
        rt.old rt.new) }
{
    check_name(name)?;
    let before = read_map(rt, map)?;
    let (after, _) = put_files(&*rt, &before, kind, name, files, input)?;
    let report = report_of(rt.alloc(), &after, limit)?;
    let former = former_report(rt.alloc(), &before, limit)?;
    Ok(new_lines(rt.alloc(), &former, &report)?)
}

/// The report of the view of a map.
fn report_of(alloc: Global, map: &Layers, limit: u64) -> Result<Vec<u8>, LayersRefusal>
    ensures report { IfOk result (λ report. IsReport limit map.now report.items) }
    ensures refused { IfErr result (IsViewRefusal limit map.now) }
{
    let view = map.view(alloc, limit)?;
    Ok(answer_to(alloc, SiteQuestion::Report, &view)?.bytes)
}

/// The report of the view of a map, which has no lines where the view is too large.
fn former_report(alloc: Global, map: &Layers, limit: u64) -> Result<Vec<u8>, LayersRefusal>
    ensures report { IfOk result (λ report. IsFormerReport limit map.now report.items) }
    ensures refused { IfErr result (λ why. why ≡ out_of_memory) }
{
    match report_of(alloc, map, limit) {
        Ok(report) => Ok(report),
        Err(LayersRefusal::ViewTooLarge) => Ok(Vec::new(alloc)),
        Err(why) => Err(why),
    }
}
