/// A punctuation mark.
#[derive(Clone, Copy, Debug, PartialEq, Eq)]
pub enum Punctuation {
    /// `{`
    OpenBrace,
    /// `}`
    CloseBrace,
    /// `[`
    OpenBracket,
    /// `]`
    CloseBracket,
    /// `(`
    OpenParenthesis,
    /// `)`
    CloseParenthesis,
    /// `:`
    Colon,
    /// A comma, written or inserted.
    Comma,
    /// `?`
    Question,
    /// `!`
    Exclamation,
    /// `|`
    Bar,
    /// `&`
    Ampersand,
    /// `*`
    Star,
    /// `-`
    Minus,
    /// `+`
    Plus,
    /// `<`
    Less,
    /// `<=`
    AtMost,
    /// `>`
    Greater,
    /// `>=`
    AtLeast,
    /// `!=`
    NotEqual,
    /// `...`
    Ellipsis,
}
