/// How many bytes a fragment's text may have at most.
pub const TEXT_LIMIT: usize = 1_048_576;

/// How many bytes an identifier, a label or a decoded string may have at most.
pub const WORD_LIMIT: usize = 65_535;

/// How many levels may be open at once: of parentheses, braces and brackets, and one for each label
/// of a chain after its first.
pub const LEVEL_LIMIT: usize = 64;

/// How many steps the path of a declared label or element may have at most.
pub const STEP_LIMIT: usize = 64;

/// How many elements the lists of a state may have at most.
pub const LENGTH_LIMIT: usize = 65_536;
