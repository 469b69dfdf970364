//! What the spot of a symbol tells.

ghost use Rattle.syntax_laws.specs.Following.{SpotsFollowTheGrammar};

/// Where tokens begin a text, the spot after them, which the last of them tell, is that of what the
/// grammar lets come next: of an operand, of a label, of a value, or of a declaration of the text.
pub fn spots_follow_the_grammar()
    ensures { SpotsFollowTheGrammar }
{}
