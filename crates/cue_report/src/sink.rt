ghost use Rattle.std.specs.Prelude.{◌≡◌, ◌<◌, ◌-◌, List, length, OnOk, OnErr};
ghost use Rattle.cue_report.specs.Inner.GapSearch.{gaps_above, free_elements};
ghost use Rattle.cue_report.specs.Telling.{Tally};
ghost use Rattle.cue_report.specs.Inner.Telling.{WritesPieces, WritesPiecesPrefix};
ghost use Rattle.cue_report.specs.Inner.Trail.{shown_steps};
ghost use Rattle.cue_report.specs.declared.conflict.Conflict.{Conflict as Conflicts};
ghost use Rattle.cue_report.specs.declared.gap.Gap.{Gap as Gaps};

use cue_lattice::Memory;
use cue_table::StepRef;

/// How a search tells of the conflicts that it finds.
pub(crate) trait ConflictSink {
    /// What they are told to.
    type Out;

    /// What conflicts are told in.
    type Piece;

    /// Why no more is told.
    type SinkError: From<Memory> + Drop;

    // All that was told so far, and how a conflict is told.
    ghost tally: { Self → Self.Out → Tally Self.Piece };

    ghost piece: { Conflicts → List Self.Piece };

    /// How much was told so far. Of each conflict something is told.
    fn len(&self, out: &Self::Out) -> u64
        ensures len { result ≡ (tally self.now out.now).count }
        ensures some { (conflict : Conflicts) → 0 < length (piece conflict) };

    /// Tells of a conflict at the place to which these steps lead.
    fn conflict(
        &mut self,
        out: &mut Self::Out,
        steps: &[StepRef],
        no_value: bool,
        not_allowed: bool,
    ) -> Result<(), Self::SinkError>
        ensures told { OnOk result (WritesPieces (tally self.old out.old) (tally self.new out.new)
            (piece (record {
              path = shown_steps steps.now;
              no_value = no_value;
              not_allowed = not_allowed;
            }))) }
        ensures begun { OnErr result (WritesPiecesPrefix (tally self.old out.old) (tally self.new out.new)
            (piece (record {
              path = shown_steps steps.now;
              no_value = no_value;
              not_allowed = not_allowed;
            }))) };
}

/// How a search tells of the gaps that it finds.
pub(crate) trait GapSink {
    /// What they are told to.
    type Out;

    /// What gaps are told in.
    type Piece;

    /// Why no more is told.
    type SinkError: From<Memory> + Drop;

    // All that was told so far, and how a gap is told.
    ghost tally: { Self → Self.Out → Tally Self.Piece };

    ghost piece: { Gaps → List Self.Piece };

    /// How much was told so far. Of each gap something is told.
    fn len(&self, out: &Self::Out) -> u64
        ensures len { result ≡ (tally self.now out.now).count }
        ensures some { (gap : Gaps) → 0 < length (piece gap) };

    /// Tells of a gap at the place to which these steps lead.
    fn gap(
        &mut self,
        out: &mut Self::Out,
        steps: &[StepRef],
        missing: bool,
    ) -> Result<(), Self::SinkError>
        ensures told { OnOk result (WritesPieces (tally self.old out.old) (tally self.new out.new)
            (piece (record { path = shown_steps steps.now; missing = missing }))) }
        ensures begun { OnErr result (WritesPiecesPrefix (tally self.old out.old) (tally self.new out.new)
            (piece (record { path = shown_steps steps.now; missing = missing }))) };

    /// Tells of the elements of that place from the first on, before the end: they are free.
    fn free_elements(
        &mut self,
        out: &mut Self::Out,
        steps: &[StepRef],
        first: u32,
        end: u32,
    ) -> Result<(), Self::SinkError>
        ensures told { OnOk result (WritesPieces (tally self.old out.old) (tally self.new out.new)
            (gaps_above piece (shown_steps steps.now) (free_elements first (end - first)))) }
        ensures begun { OnErr result (WritesPiecesPrefix (tally self.old out.old) (tally self.new out.new)
            (gaps_above piece (shown_steps steps.now) (free_elements first (end - first)))) };
}
