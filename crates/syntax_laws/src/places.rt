//! What the places in a tree tell.

ghost use Rattle.syntax_laws.specs.Places.{KeepsForm, KeepsLevels, IsSpelledAnywhere};

/// Whether a fragment is well formed doesn't depend on the places that its tree keeps.
pub fn form_keeps_without_places()
    ensures { KeepsForm }
{}

/// How many levels a fragment opens doesn't depend on the places that its tree keeps.
pub fn levels_keep_without_places()
    ensures { KeepsLevels }
{}

/// Tokens of the kinds that a tree of the grammar is spelled with are a text of the grammar,
/// wherever they stand, and its tree differs from that one by places alone.
pub fn tree_spelled_anywhere()
    ensures { IsSpelledAnywhere }
{}
