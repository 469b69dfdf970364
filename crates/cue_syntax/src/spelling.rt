//! What the grammar promises of a text.

ghost use Rattle.cue_syntax.specs.OneTree.{NoTwoTrees};

/// A text has one tree: two trees of the grammar that the same tokens spell are the same. It
/// computes nothing: it states a law.
pub fn one_tree()
    ensures { NoTwoTrees }
{}
