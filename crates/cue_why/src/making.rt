//! Which sources make what is reported at a path.
ghost use Rattle.std.specs.Prelude.{◌≡◌, ◌↔◌, [], map, IfOk, IsTrue};
ghost use Rattle.cue_row.specs.Steps.{step_of};
ghost use Rattle.cue_why.specs.Least.{IsLeastList, IsLeft};
ghost use Rattle.cue_why.specs.Reported.{IsLabelReported, IsReported};
ghost use Rattle.cue_why.specs.Sources.{SourcesMake, SourcesRefuse};

use crate::finding::Finding;
use crate::least::{reduce_sources, trace_all};
use crate::source::LayerSource;
use cue_lattice::Memory;
use cue_row::Step;
use std::alloc::Global;

/// The sources that make what is reported at a path.
#[derive(Drop)]
pub struct LeastMakers<'a> {
    pub sources: Vec<LayerSource<'a>>,
    /// The label at the end of the path is not allowed, and a value may be there: what makes this is
    /// said at the place above.
    pub of_label: bool,
}

/// The sources that make what the report of their view says at a path: a least list, of which none
/// can be left out. Each source in turn is left out, once, where what remains still makes it. Where
/// nothing is reported at the path there are none.
///
/// # Errors
///
/// `Memory`. However many rows the view would have, this costs what the sources have along the path.
pub fn makers<'a>(
    alloc: Global,
    sources: Vec<LayerSource<'a>>,
    path: &[Step],
) -> Result<LeastMakers<'a>, Memory>
    ensures none { ¬ IsReported (SourcesRefuse sources.entry.items) (map step_of path.now)
        → IfOk result (λ made. made.sources.items ≡ []) }
    ensures left { IsReported (SourcesRefuse sources.entry.items) (map step_of path.now)
        → IfOk result (λ made. IsLeft (SourcesMake sources.entry.items (map step_of path.now)) []
        sources.entry.items made.sources.items) }
    ensures least { IsReported (SourcesRefuse sources.entry.items) (map step_of path.now)
        → IfOk result (λ made.
        IsLeastList (SourcesMake sources.entry.items (map step_of path.now)) made.sources.items) }
    ensures label { IfOk result (λ made. IsTrue made.of_label
        ↔ IsLabelReported (SourcesRefuse sources.entry.items) (map step_of path.now)) }
{
    let (stack, whole) = trace_all(alloc, sources, path)?;
    match Finding::at(alloc, &whole, path)? {
        None => Ok(LeastMakers {
            sources: Vec::new(alloc),
            of_label: false,
        }),
        Some(finding) => Ok(LeastMakers {
            sources: reduce_sources(alloc, stack, finding, path)?,
            of_label: finding.is_of_label(),
        }),
    }
}
