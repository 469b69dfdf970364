//! Laws of policies and views, each on a call that carries it and does nothing.
ghost use Rattle.std.specs.Prelude.{List};
ghost use Rattle.std.specs.List.{AllByRecursion};
ghost use Rattle.cue_row.specs.Row.{RefusesAsked, RowRefusesQuestion};
ghost use Rattle.cue_row.specs.declared.parts.RowParts.{RowParts as RowValue};
ghost use Rattle.cue_table.specs.Many.{AreUnified};
ghost use Rattle.cue_table.specs.Meet.{IsMet};
ghost use Rattle.cue_table.specs.Refuses.{TableRefuses};
ghost use Rattle.cue_table.specs.Tree.{Tree, empty};
ghost use Rattle.cue_policies.specs.Laws.{AdmittedMeet, LayersAdmit, MeetingAreAdmitted};
ghost use Rattle.cue_policies.specs.Laws.{MoreRefuseMore, OrderIsNothing, PatternsAreNoLabels};
ghost use Rattle.cue_policies.specs.Laws.{PlainIsUnified, SomeAreAdmitted, TwoAreAll};
ghost use Rattle.cue_policies.specs.WellFormed.{IsWellFormed};

/// Well-formed policies are unified to a well-formed policy, and the table without rows is one.
pub fn policies_stay_well_formed()
    ensures empty { IsWellFormed (TableRefuses RowRefusesQuestion (empty {R = RowValue})) }
    ensures met { (a b met : Tree RowValue) → IsMet RefusesAsked a b met
        → IsWellFormed (TableRefuses RowRefusesQuestion a) → IsWellFormed (TableRefuses RowRefusesQuestion b)
        → IsWellFormed (TableRefuses RowRefusesQuestion met) }
    ensures unified { (tables : List (Tree RowValue)) (met : Tree RowValue)
        → AreUnified RefusesAsked tables met
        → AllByRecursion (λ table. IsWellFormed (TableRefuses RowRefusesQuestion table)) tables
        → IsWellFormed (TableRefuses RowRefusesQuestion met) }
{}

/// More layers and policies refuse more. So neither their order nor how often each comes makes a
/// difference.
pub fn views_in_any_order()
    ensures more { MoreRefuseMore }
    ensures order { OrderIsNothing }
{}

/// The unification of all layers proper and that of all policies have the view of all of them.
pub fn views_of_two()
    ensures { TwoAreAll }
{}

/// Without patterns the view is the unification, and patterns are never labels of the view.
pub fn views_without_patterns()
    ensures unified { PlainIsUnified }
    ensures labels { PatternsAreNoLabels }
{}

/// A document that all layers and policies admit meets their view. One that meets the view, and each
/// label of which is declared there, is admitted by all of them. So some document meets the view
/// exactly where all of them admit some document.
pub fn documents_of_views()
    ensures layers { LayersAdmit }
    ensures admitted { AdmittedMeet }
    ensures meeting { MeetingAreAdmitted }
    ensures some { SomeAreAdmitted }
{}
