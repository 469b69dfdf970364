ghost use Rattle.std.specs.Prelude.{◌≡◌, ℕ, ℤ, List, [], ◌∷◌};
ghost use Rattle.std.specs.Fmt.{signed_decimal};
ghost use Rattle.cue_lattice.specs.Scalar.{IsInteger};
ghost use Rattle.cue_lattice.specs.Word.{IsWord};
ghost use Rattle.cue_lex.specs.declared.token.TokenKind.TheVariants as token;
ghost use Rattle.cue_row.specs.Quoted.{quote_text};
ghost use Rattle.cue_syntax.specs.Spelling.{spell_signed};
ghost use Rattle.print_laws.specs.Accepted.{IsAcceptedAgain};
ghost use Rattle.print_laws.specs.Kinds.{IsKindRead};
ghost use Rattle.print_laws.specs.Meant.{IsMeantAgain, IsTableAgain};
ghost use Rattle.print_laws.specs.PrintedTree.{signed_of_integer};
ghost use Rattle.print_laws.specs.Reading.{IsTextReadAgain};
ghost use Rattle.print_laws.specs.Spelled.{spelled_kinds};
ghost use Rattle.print_laws.specs.Taken.{IsLegalAgain};

/// The printed text of a valid table where something is known is too long for a fragment, or its
/// tokens are the spelling of the tree that the table is printed as.
///
/// It computes nothing: it states a law.
#[tactic(auto, using(crate::proofs::Laws::read_again))]
pub fn printed_text_is_read()
    ensures { IsTextReadAgain }
{}

/// The tree that a valid table is printed as, wherever its tokens stand, is a well-formed fragment
/// on which no check fails, or it is over a limit: on levels, on size or on the length of paths.
///
/// It computes nothing: it states a law.
#[tactic(auto, using(crate::proofs::Acceptance::accepted_again))]
pub fn printed_tree_is_accepted()
    ensures { IsAcceptedAgain }
{}

/// The printed text of a valid table where something is known is legal, and has the tree that the
/// table is printed as; or it is too long for a fragment, or over a limit of trees.
///
/// It computes nothing: it states a law.
#[tactic(auto, using(crate::proofs::Whole::legal_again))]
pub fn printed_text_is_legal()
    ensures { IsLegalAgain }
{}

/// The tree that a valid table is printed as, wherever its tokens stand, means the table: at each
/// path its declarations refuse just the questions that the table refuses there.
///
/// It computes nothing: it states a law.
#[tactic(auto, using(crate::proofs::MeantFiles::meant_again))]
pub fn printed_text_means_the_table()
    ensures { IsMeantAgain }
{}

/// The printed text of a valid table where something is known is over a limit, or it is legal and
/// means the table.
///
/// It computes nothing: it states a law.
#[tactic(auto, using(crate::proofs::Whole::table_again))]
pub fn printed_text_is_the_table_again()
    ensures { IsTableAgain }
{}

/// A quoted text is one token that stands for the text, in front of any rest that cannot go on.
///
/// It computes nothing: it states a law.
#[tactic(auto, using(crate::proofs::Laws::quoted_read))]
pub fn quoted_text_is_read()
    ensures { (text : List ℕ) → IsWord text → IsKindRead (quote_text text) (token.Text text ∷ []) }
{}

/// A printed integer of 64 bits is read with its sign, in front of any rest that cannot go on.
///
/// It computes nothing: it states a law.
#[tactic(auto, using(crate::proofs::Integers::integer_read))]
pub fn printed_integer_is_read()
    ensures { (n : ℤ) → IsInteger n
        → IsKindRead (signed_decimal n) (spelled_kinds (spell_signed (signed_of_integer n))) }
{}
