ghost use Rattle.std.specs.Prelude.{◌≡◌};
ghost use Rattle.cue_scope.specs.Named.{named_of, is_literal};

/// A set of scalars that has a name of its own.
#[derive(Clone, Copy, Debug, PartialEq, Eq)]
pub enum Named {
    /// `int`
    Int,
    /// `string`
    Text,
    /// `bool`
    Bool,
    /// `int8`
    Int8,
    /// `uint8`
    Uint8,
    /// `int16`
    Int16,
    /// `uint16`
    Uint16,
    /// `int32`
    Int32,
    /// `uint32`
    Uint32,
    /// `int64`
    Int64,
    /// `uint`
    Uint,
}

impl Named {
    /// The set of this name, if there is one.
    #[inline(always)]
    pub fn of(name: &str) -> Option<Named>
        ensures { result ≡ named_of name.now }
    {
        match name {
            "int" => Some(Named::Int),
            "string" => Some(Named::Text),
            "bool" => Some(Named::Bool),
            "int8" => Some(Named::Int8),
            "uint8" => Some(Named::Uint8),
            "int16" => Some(Named::Int16),
            "uint16" => Some(Named::Uint16),
            "int32" => Some(Named::Int32),
            "uint32" => Some(Named::Uint32),
            "int64" => Some(Named::Int64),
            "uint" => Some(Named::Uint),
            _ => None,
        }
    }
}

/// Whether the name is that of a scalar: `true`, `false` or `null`.
pub(crate) fn is_literal(name: &str) -> bool
    ensures { result ≡ is_literal name.now }
{
    name == "true" || name == "false" || name == "null"
}
