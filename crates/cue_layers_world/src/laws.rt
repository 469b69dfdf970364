//! Laws of worlds of layers, each on a call that carries it and computes nothing.
ghost use Rattle.cue_layers_world.specs.Laws.{AreReachedOnce, HaveOneView, HaveEqualViewsOfOneSet};

/// A list of events with these outcomes leads to one world of sets at most.
pub fn sets_are_reached_once()
    ensures { AreReachedOnce }
{}

/// Two views of one map are the same table.
pub fn one_view_of_a_map()
    ensures { HaveOneView }
{}

/// Maps of one set of puts have equal layers bytes, and with one limit equal views, of which there
/// are the same conflicts, the same that is incomplete, the same export and the same printed text.
pub fn one_set_has_equal_views()
    ensures { HaveEqualViewsOfOneSet }
{}
