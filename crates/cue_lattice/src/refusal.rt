ghost use Rattle.std.specs.Prelude.{◌≡◌};
ghost use Rattle.std.specs.Option.{option_map};
ghost use Rattle.cue_lattice.specs.Refusal.{number_of, name_at, refusal_at};

use crate::Memory;
use std::fmt;

/// Which form of the CUE language that the profile leaves out was found.
#[derive(Clone, Copy, Debug, PartialEq, Eq, Hash)]
pub enum Form {
    /// A label that begins with `_` and is not quoted.
    HiddenLabel,
    /// A definition below the top of a fragment.
    NestedDefinition,
    /// A definition with `?` or `!`.
    MarkedDefinition,
    /// An expression in the place of a declaration.
    Embedding,
    /// A label in brackets or parentheses.
    DynamicLabel,
    /// A type after the `...` of a list.
    TypedRest,
    /// A type after the `...` of a struct.
    TypedEllipsis,
    /// A bound whose argument is no literal of the kind that the profile has.
    Bound,
    /// A call of anything but `close`.
    Call,
    /// An argument of `close` that is no struct literal.
    CloseArgument,
    /// A clause: `let`, `for`, `if` or `import`.
    Clause,
}

/// Why something was refused. Each kind has a number that stays the same for good, and a name.
#[derive(Clone, Copy, Debug, PartialEq, Eq, Hash)]
pub enum Kind {
    TooLong,
    BadCharacter,
    BadString,
    BadNumber,
    IntRange,
    TextTooLong,
    Syntax,
    Nesting,
    LeftOut(Form),
    UnknownName,
    FieldReference,
    Repeated,
    Cycle,
    TooLarge,
    TooDeep,
    NotScalar,
    Version,
    NotState,
    FrameTooLong,
    BadRequest,
    TurnsUsed,
    Device,
    ReplyTooLong,
    Memory,
    Failed,
}

/// A refusal: why, and at which byte of the text. Refusals that are of no text have place 0.
#[derive(Clone, Copy, Debug, PartialEq, Eq, Hash)]
pub struct Refusal {
    pub kind: Kind,
    pub place: u64,
}

impl Kind {
    /// The number of the kind, from 1 to 25.
    pub fn number(&self) -> u8
        ensures { result ≡ number_of self.now }
    {
        match self {
            Kind::TooLong => 1,
            Kind::BadCharacter => 2,
            Kind::BadString => 3,
            Kind::BadNumber => 4,
            Kind::IntRange => 5,
            Kind::TextTooLong => 6,
            Kind::Syntax => 7,
            Kind::Nesting => 8,
            Kind::LeftOut(_) => 9,
            Kind::UnknownName => 10,
            Kind::FieldReference => 11,
            Kind::Repeated => 12,
            Kind::Cycle => 13,
            Kind::TooLarge => 14,
            Kind::TooDeep => 15,
            Kind::NotScalar => 16,
            Kind::Version => 17,
            Kind::NotState => 18,
            Kind::FrameTooLong => 19,
            Kind::BadRequest => 20,
            Kind::TurnsUsed => 21,
            Kind::Device => 22,
            Kind::ReplyTooLong => 23,
            Kind::Memory => 24,
            Kind::Failed => 25,
        }
    }

    /// The name of the kind, without the form of a `LeftOut`.
    pub fn name(&self) -> &'static str
        ensures { name_at (number_of self.now) ≡ Some result.now }
    {
        Kind::name_of(self.number()).unwrap()
    }

    /// The name of the kind that has this number, where one has.
    pub fn name_of(number: u8) -> Option<&'static str>
        ensures { option_map (λ name. name.now) result ≡ name_at number }
    {
        Some(match number {
            0 => return None,
            1 => "TooLong",
            2 => "BadCharacter",
            3 => "BadString",
            4 => "BadNumber",
            5 => "IntRange",
            6 => "TextTooLong",
            7 => "Syntax",
            8 => "Nesting",
            9 => "LeftOut",
            10 => "UnknownName",
            11 => "FieldReference",
            12 => "Repeated",
            13 => "Cycle",
            14 => "TooLarge",
            15 => "TooDeep",
            16 => "NotScalar",
            17 => "Version",
            18 => "NotState",
            19 => "FrameTooLong",
            20 => "BadRequest",
            21 => "TurnsUsed",
            22 => "Device",
            23 => "ReplyTooLong",
            24 => "Memory",
            25 => "Failed",
            26..=u8::MAX => return None,
        })
    }
}

impl Refusal {
    /// The refusal for this reason, at this byte of the text.
    pub fn at(kind: Kind, place: usize) -> Refusal
        ensures { result ≡ refusal_at kind place }
    {
        Refusal {
            kind,
            place: place as u64,
        }
    }
}

impl From<Memory> for Refusal {
    ghost use Rattle.cue_lattice.specs.Refusal.{memory};

    ghost from_gives = { λ _ refusal. refusal ≡ memory };

    fn from(_memory: Memory) -> Refusal {
        Refusal::at(Kind::Memory, 0)
    }
}

impl fmt::Display for Form {
    fn fmt<W: fmt::Write>(&self, f: &mut fmt::Formatter<W>) -> fmt::Result {
        f.write_str(match self {
            Form::HiddenLabel => "HiddenLabel",
            Form::NestedDefinition => "NestedDefinition",
            Form::MarkedDefinition => "MarkedDefinition",
            Form::Embedding => "Embedding",
            Form::DynamicLabel => "DynamicLabel",
            Form::TypedRest => "TypedRest",
            Form::TypedEllipsis => "TypedEllipsis",
            Form::Bound => "Bound",
            Form::Call => "Call",
            Form::CloseArgument => "CloseArgument",
            Form::Clause => "Clause",
        })
    }
}
