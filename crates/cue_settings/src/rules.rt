ghost use Rattle.std.specs.Prelude.{◌≡◌, ◌↔◌, ◌⊎◌, IsTrue, IfSome, IfNone};

/// Whether a site may listen: anywhere where writes need a token, and else on a loopback address
/// alone, since anybody who reaches it may write.
pub fn may_listen(has_tokens: bool, is_loopback: bool) -> bool
    ensures { IsTrue result ↔ (IsTrue has_tokens ⊎ IsTrue is_loopback) }
{
    has_tokens || is_loopback
}

/// The most bytes of an answer about the table: so many as were given, or 64 MiB.
pub fn answer_limit(given: Option<u64>) -> usize
    ensures given { IfSome given (λ bytes. result ≡ bytes) }
    ensures usual { IfNone given (result ≡ 67108864) }
{
    match given {
        Some(bytes) => bytes as usize,
        None => 64 * 1024 * 1024,
    }
}
