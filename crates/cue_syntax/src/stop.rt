use cue_lattice::Memory;

/// Why the parser stopped.
#[derive(Clone, Copy)]
pub enum Why {
    Memory(Memory),
    /// The tokens leave the grammar.
    Syntax,
    /// A token opens a level too many.
    Nesting,
}

/// Why the parser stopped, and how many tokens were left there.
#[derive(Clone, Copy)]
pub struct ParserStop {
    pub why: Why,
    pub left: usize,
}

impl From<Memory> for ParserStop {
    ghost use Rattle.cue_syntax.specs.Stops.{IsMemoryParserStop};

    ghost from_gives = { λ _ stop. IsMemoryParserStop stop };

    fn from(memory: Memory) -> ParserStop {
        ParserStop {
            why: Why::Memory(memory),
            left: 0,
        }
    }
}
