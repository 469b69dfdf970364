//! Which documents a text admits, and that what texts refuse is exact against them.
#![tactic(auto)]

ghost use Rattle.document_laws.specs.Admits.{IsExactOnTables};
ghost use Rattle.document_laws.specs.Tables.{AreExactTables};

/// An expression admits exactly the documents that meet what it refuses. What an expression admits
/// is told by cases on the expression and the document, without paths; what it refuses is told by
/// questions at paths. So the questions say all that there is to say of documents; and a document
/// is admitted by a text exactly where it meets the table that evaluation gives of the text, since
/// that table has the text's answers. It computes nothing: it states laws.
pub fn laws_of_documents()
    ensures expressions { IsExactOnTables }
    ensures tables { AreExactTables }
{}
