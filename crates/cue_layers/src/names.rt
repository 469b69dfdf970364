//! The names of layers.
ghost use Rattle.std.specs.Prelude.{◌↔◌, IsTrue, IfSome, IfNone};
ghost use Rattle.cue_layers.specs.Names.{IsWordByte, MayFollow, IsLayerName, IsBadAt};
ghost use Rattle.cue_layers.specs.Inner.Naming.{MayStand};

/// The most bytes of a name.
const NAME_LIMIT: usize = 255;

/// Whether a byte is a letter or a digit of ASCII, or `_`.
fn is_word_byte(byte: u8) -> bool
    ensures { IsTrue result ↔ IsWordByte byte }
{
    matches!(byte, b'0'..=b'9' | b'A'..=b'Z' | b'a'..=b'z' | b'_')
}

/// Whether a byte may follow another one in a name, which begins as if behind a `/`.
fn may_follow(before: u8, byte: u8) -> bool
    ensures { IsTrue result ↔ MayFollow before byte }
{
    is_word_byte(byte) || (before != b'/' && matches!(byte, b'.' | b'-' | b'/'))
}

/// Whether some name has a byte at an index, behind another byte.
fn may_stand(index: usize, before: u8, byte: u8) -> bool
    ensures { IsTrue result ↔ MayStand index before byte }
{
    index < NAME_LIMIT && may_follow(before, byte) && (index + 1 < NAME_LIMIT || byte != b'/')
}

/// Where a name of layers is bad: the length of its longest beginning with which some name begins.
/// Nothing is returned for a name.
pub fn bad_place(name: &[u8]) -> Option<usize>
    ensures name { IfNone result (IsLayerName name.now) }
    ensures place { IfSome result (IsBadAt name.now) }
{
    let mut before = b'/';
    for (i, &byte) in name.iter().enumerate() {
        if !may_stand(i, before, byte) {
            return Some(i);
        }
        before = byte;
    }
    if before == b'/' {
        return Some(name.len());
    }
    None
}
