//! What the places in a tree say of its meaning.

ghost use Rattle.scope_laws.specs.Places.{KeepsChecks, KeepsMeaning};

/// What a text means, its size and its depth don't depend on the places that its tree keeps.
pub fn meaning_keeps_without_places()
    ensures { KeepsMeaning }
{}

/// Whether a text is legal, and which check refuses it, doesn't depend on the places that its tree
/// keeps.
pub fn checks_keep_without_places()
    ensures { KeepsChecks }
{}
