//! Identifiers (RFC 7950, section 6.2).
ghost use Rattle.std.specs.Prelude.{◌≡◌};
ghost use Rattle.std.specs.List.{list_all};
ghost use Rattle.yang_scope.specs.Identifiers.{begins_identifier, continues_identifier, is_identifier};

fn begins_identifier(byte: u8) -> bool
    ensures { result ≡ begins_identifier byte }
{
    matches!(byte, b'A'..=b'Z' | b'a'..=b'z' | b'_')
}

fn continues_identifier(byte: u8) -> bool
    ensures { result ≡ continues_identifier byte }
{
    begins_identifier(byte) || matches!(byte, b'0'..=b'9' | b'-' | b'.')
}

fn all_continue(bytes: &[u8]) -> bool
    ensures { result ≡ list_all continues_identifier bytes.now }
{
    bytes.iter().all(|byte| continues_identifier(*byte))
}

/// Whether a text is an identifier.
pub fn is_identifier(text: &str) -> bool
    ensures { result ≡ is_identifier text.now }
{
    match text.as_bytes() {
        [] => false,
        [first, rest @ ..] => begins_identifier(*first) && all_continue(rest),
    }
}
