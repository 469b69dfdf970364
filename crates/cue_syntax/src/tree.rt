ghost use Rattle.cue_syntax.specs.Syntax.{entries};
ghost use Rattle.cue_syntax.specs.Grammar.{IsFragment};
ghost use Rattle.cue_syntax.specs.Inner.WellFormed.{prop};

use cue_lex::Word;

/// A fragment: its package clause, if any, and its declarations. By its type it follows the
/// grammar, opens at most 64 levels, and its names, labels and strings have at most 65,535 bytes,
/// so that what reads it needs no premise.
#[derive(Debug, Drop)]
pub struct File<'t> {
    pub package: Option<Package<'t>>,
    pub declarations: Vec<Declaration<'t>>,
    /// Whether a comma, written or inserted, stands after the last declaration.
    pub comma: bool,
    pub ghost well_formed: { IsFragment «package» (entries declarations.items) comma } by { prop },
}

/// A package clause. It says nothing of the fragment's value.
#[derive(Debug, Drop)]
pub struct Package<'t> {
    pub name: Identifier<'t>,
    /// Whether a comma, written or inserted, stands after the name. Where none does, the text ends
    /// there.
    pub comma: bool,
}

/// An identifier by its kind, with its sign.
#[derive(Debug, Drop)]
pub enum Identifier<'t> {
    Plain(Word<'t>),
    Definition(Word<'t>),
    Hidden(Word<'t>),
}

/// A declaration of a fragment or of a struct.
#[derive(Debug, Drop)]
#[cycle(tree)]
pub enum Declaration<'t> {
    /// `...`
    Ellipsis,
    /// `label: other: value`, with a chain of further labels between the first one and the value.
    Field {
        label: Label<'t>,
        chain: Vec<Label<'t>>,
        value: Expr<'t>,
    },
    /// `#Name: label: value`, with a chain of labels, which may be empty, before the value.
    Definition {
        /// The name with its `#`.
        name: Word<'t>,
        /// Where the name begins, in bytes.
        from: usize,
        chain: Vec<Label<'t>>,
        value: Expr<'t>,
    },
}

/// A label with its mark. A colon follows.
#[derive(Debug, Drop)]
pub struct Label<'t> {
    pub name: LabelName<'t>,
    pub mark: Mark,
}

/// The name of a label.
#[derive(Debug, Drop)]
pub enum LabelName<'t> {
    /// A plain name.
    Plain(Word<'t>),
    /// A string, as the text that it stands for.
    Quoted(Word<'t>),
}

/// What stands between a label and its colon.
#[derive(Clone, Copy, Debug, PartialEq, Eq)]
pub enum Mark {
    /// Nothing: a regular field.
    Regular,
    /// `?`
    Optional,
    /// `!`
    Required,
}

/// The sign of an integer.
#[derive(Clone, Copy, Debug, PartialEq, Eq)]
pub enum Sign {
    /// No sign.
    Absent,
    Minus,
    Plus,
}

/// An integer as it is written.
#[derive(Clone, Copy, Debug, PartialEq, Eq)]
pub struct Signed {
    pub sign: Sign,
    pub magnitude: u64,
}

/// The comparison of a bound.
#[derive(Clone, Copy, Debug, PartialEq, Eq)]
pub enum Comparison {
    /// `<`
    Less,
    /// `<=`
    AtMost,
    /// `>`
    Greater,
    /// `>=`
    AtLeast,
}

/// An expression. Parentheses and trailing commas are kept.
#[derive(Debug, Drop)]
#[cycle(tree)]
pub enum Expr<'t> {
    /// An identifier, and where it begins, in bytes.
    Name {
        name: Identifier<'t>,
        from: usize,
    },
    Integer(Signed),
    Text(Word<'t>),
    /// `_|_`
    Bottom,
    /// `<` and its like, before an integer.
    Bound(Comparison, Signed),
    /// `!=` before an integer.
    OtherInteger(Signed),
    /// `!=` before a string.
    OtherText(Word<'t>),
    /// An expression in parentheses.
    Parenthesis {
        inner: Box<Expr<'t>>,
        /// Whether a comma stands before the closing parenthesis.
        comma: bool,
    },
    /// A struct literal.
    Struct {
        declarations: Vec<Declaration<'t>>,
        /// Whether a comma stands after the last declaration.
        comma: bool,
    },
    /// `close` and a struct literal in parentheses.
    Close {
        /// Where `close` begins, in bytes.
        from: usize,
        declarations: Vec<Declaration<'t>>,
        /// Whether a comma stands after the last declaration.
        inner_comma: bool,
        /// Whether a comma stands before the closing parenthesis.
        comma: bool,
    },
    /// A list literal.
    List {
        elements: Vec<Expr<'t>>,
        rest: Rest<'t>,
        /// Whether a comma stands before the closing bracket.
        comma: bool,
    },
    /// Two or more parts joined by `&`.
    Conjunction(Vec<Expr<'t>>),
    /// Two or more terms joined by `|`.
    Disjunction(Vec<Term<'t>>),
}

/// What stands behind the last element of a list.
#[derive(Debug, Drop)]
#[cycle(tree)]
pub enum Rest<'t> {
    /// Nothing: the list ends with its elements.
    Ends,
    /// `...`
    GoesOn,
    /// `...` and an expression.
    Each(Box<Expr<'t>>),
}

/// A term of a disjunction.
#[derive(Debug, Drop)]
#[cycle(tree)]
pub struct Term<'t> {
    /// Whether it is marked `*`, as a default.
    pub marked: bool,
    /// Where it begins, after its mark, in bytes.
    pub from: usize,
    pub value: Expr<'t>,
}
