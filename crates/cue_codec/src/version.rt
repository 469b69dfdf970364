//! The versions of state bytes.

ghost use Rattle.std.specs.Prelude.{◌≡◌, IfSome, IfNone};
ghost use Rattle.cue_codec.specs.Version.{version_byte, IsNoVersion};

/// Which of the formats state bytes are in. A version stays readable for good.
#[derive(Clone, Copy, Debug, PartialEq, Eq)]
pub enum Version {
    /// The first format, which tells no rest of a list.
    First,
    /// The format that tells what the elements of a list are from an index on.
    Second,
}

impl Version {
    /// The version that is written.
    pub const WRITTEN: Version = Version::Second;

    /// The byte that stands for the version.
    pub fn byte(self) -> u8
        ensures { result ≡ version_byte self }
    {
        match self {
            Version::First => 1,
            Version::Second => 2,
        }
    }

    /// The version that a byte stands for, where there is one.
    pub(crate) fn from_byte(byte: u8) -> Option<Version>
        ensures some { IfSome result (λ version. version_byte version ≡ byte) }
        ensures none { IfNone result (IsNoVersion byte) }
    {
        match byte {
            1 => Some(Version::First),
            2 => Some(Version::Second),
            _ => None,
        }
    }
}
