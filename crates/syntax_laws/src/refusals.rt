//! What the refusals of the parser leave open.

ghost use Rattle.syntax_laws.specs.OnePlace.{FitsOnePlace};

/// The tokens leave no choice of a refusal's place, and none of whether it tells of a form, of
/// nesting, or of neither: all refusals that fit them agree.
pub fn refusals_fit_one_place()
    ensures { FitsOnePlace }
{}
