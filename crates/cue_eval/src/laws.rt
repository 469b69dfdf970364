//! What the definitions promise of unification, of closing and of scalar expressions.

ghost use Rattle.cue_eval.specs.Laws.{UsesAreClosedBodies, IsUnification, IsMonotone};
ghost use Rattle.cue_eval.specs.Laws.{IsSplitAnywhere, IsClosedOnce, IsClosedForGood};
ghost use Rattle.cue_eval.specs.Laws.{IsClosedByParts, IsItsPair};
ghost use Rattle.cue_eval.specs.Closing.{AreOwnOrUsed, UsedAreClosed, IsClosedByOwn};
ghost use Rattle.cue_eval.specs.Origins.{ComesFromSources, PlacesAreOfKinds, LabelsAreOfStructs};
ghost use Rattle.cue_eval.specs.Origins.{LengthsAreOfLists, FieldsAreOfStructs, ElementsAreOfLists};
ghost use Rattle.cue_eval.specs.Origins.{FurtherElementsAreAlike, LevelsAreOfFields};
ghost use Rattle.cue_eval.specs.Origins.{PathsAreWithinDepth, UsualIsWithin};
ghost use Rattle.cue_eval.specs.Validity.{PathsAreWritten, UnwrittenLabelsAreAlike};
ghost use Rattle.cue_eval.specs.Validity.{UnwrittenTextsAreAlike, LengthsAreWithinSize};
ghost use Rattle.cue_eval.specs.Validity.{TextsAreValid, TextsWriteWords};

/// A use of a definition means its body, closed. `a & b` refuses exactly what one of both refuses,
/// so that declarations may stand in one struct or in several. Closing parts one by one is at least
/// as narrow as closing them together; closing twice is closing once; and a place where labels are
/// left out already is changed by no closing around it. A scalar expression refuses what its value
/// and its default do. It computes nothing: it states laws.
pub fn laws_of_meaning()
    ensures uses { UsesAreClosedBodies }
    ensures unified { IsUnification }
    ensures monotone { IsMonotone }
    ensures split { IsSplitAnywhere }
    ensures by_parts { IsClosedByParts }
    ensures for_good { IsClosedForGood }
    ensures once { IsClosedOnce }
    ensures scalars { IsItsPair }
{}

/// What is refused at a place comes from something written there, which refuses all that its kind
/// does. So where anything but a level is refused, nothing but scalars, nothing but a struct, or
/// nothing but a list may stand; labels and fields belong to structs, lengths and elements to
/// lists, whose further elements are alike, and levels to fields; no path has more steps than the
/// expression is deep; and what may not stand isn't usual. That is what the rules of valid tables
/// ask of kinds, parents, levels, lengths and paths. It computes nothing: it states laws.
pub fn laws_of_places()
    ensures origins { ComesFromSources }
    ensures kinds { PlacesAreOfKinds }
    ensures labels { LabelsAreOfStructs }
    ensures lengths { LengthsAreOfLists }
    ensures fields { FieldsAreOfStructs }
    ensures elements { ElementsAreOfLists }
    ensures further { FurtherElementsAreAlike }
    ensures levels { LevelsAreOfFields }
    ensures depths { PathsAreWithinDepth }
    ensures usual { UsualIsWithin }
{}

/// What closing adds to an expression: where labels are left out already it adds nothing
/// (`laws_of_meaning`), and elsewhere it leaves out what the expression's own struct literals don't
/// declare, where there are some and none, also in the definitions that it names, has a `...`. So
/// evaluation closes a body by walking what it writes itself. It computes nothing: it states laws.
pub fn laws_of_closing()
    ensures written { AreOwnOrUsed }
    ensures used { UsedAreClosed }
    ensures closed { IsClosedByOwn }
{}

/// A table in its one form that has the answers of a legal text is valid, where the text's labels
/// and strings are in UTF-8 and not too long, as the grammar's are. For the labels and texts that
/// an answer speaks of are written, or they are among those that are not, of which all are left out
/// or none is; and no list is longer than the text is large. It computes nothing: it states laws.
pub fn laws_of_validity()
    ensures paths { PathsAreWritten }
    ensures labels { UnwrittenLabelsAreAlike }
    ensures texts { UnwrittenTextsAreAlike }
    ensures lengths { LengthsAreWithinSize }
    ensures words { TextsWriteWords }
    ensures tables { TextsAreValid }
{}
