//! Hosts and origins in the fields of a request.
ghost use Rattle.std.specs.Prelude.{◌↔◌, ℕ, List, IsTrue, IfSome, IfNone};
ghost use Rattle.cue_doors.specs.Hosts.{IsAddress, IsPort, Names};
ghost use Rattle.cue_doors.specs.Requests.{IsBehindScheme, IsOriginOf};

/// Whether these bytes are a colon with the digits of a port, or none at all.
fn is_port(rest: &[u8]) -> bool
    ensures { IsTrue result ↔ IsPort rest.now }
{
    match rest.split_first() {
        None => true,
        Some((first, digits)) => *first == b':' && digits.iter().all(u8::is_ascii_digit),
    }
}

/// Whether a field names this host, in any case, with a port or without.
pub(crate) fn names(host: &str, field: &[u8]) -> bool
    ensures { IsTrue result ↔ Names host.now field.now }
{
    match field.split_at_checked(host.len()) {
        None => false,
        Some((front, rest)) => front.eq_ignore_ascii_case(host.as_bytes()) && is_port(rest),
    }
}

/// Whether a field names an address: in brackets, or of digits.
pub(crate) fn is_address(field: &[u8]) -> bool
    ensures { IsTrue result ↔ IsAddress field.now }
{
    let is_numeric = |byte: &u8| byte.is_ascii_digit() || *byte == b'.' || *byte == b':';
    field.first() == Some(&b'[') || field.iter().all(is_numeric)
}

/// What is behind the scheme of an origin, where that is http or https.
fn behind_scheme(origin: &[u8]) -> Option<&[u8]>
    ensures some { IfSome result (λ rest. IsBehindScheme origin.now rest.now) }
    ensures none { IfNone result ((rest : List ℕ) → ¬ IsBehindScheme origin.now rest) }
{
    match origin.strip_prefix(b"http://") {
        Some(rest) => Some(rest),
        None => origin.strip_prefix(b"https://"),
    }
}

/// Whether a page of this host has this origin.
pub(crate) fn is_origin_of(host: &[u8], origin: &[u8]) -> bool
    ensures { IsTrue result ↔ IsOriginOf host.now origin.now }
{
    match behind_scheme(origin) {
        None => false,
        Some(rest) => rest.eq_ignore_ascii_case(host),
    }
}
