//! Numbers in lengths and ranges.
ghost use Rattle.std.specs.Prelude.{◌≡◌};
ghost use Rattle.std.specs.List.{list_all};
ghost use Rattle.yang_scope.specs.Identifiers.{is_digit};
ghost use Rattle.yang_values.specs.Numbers.{is_decimal, is_integer, bound_number};

fn is_digit(byte: u8) -> bool
    ensures { result ≡ is_digit byte }
{
    matches!(byte, b'0'..=b'9')
}

fn are_digits(bytes: &[u8]) -> bool
    ensures { result ≡ list_all is_digit bytes.now }
{
    bytes.iter().all(|byte| is_digit(*byte))
}

/// Whether bytes are one or more digits, the first of several not zero.
fn is_decimal(bytes: &[u8]) -> bool
    ensures { result ≡ is_decimal bytes.now }
{
    match bytes {
        [] => false,
        [only] => is_digit(*only),
        [first, rest @ ..] => is_digit(*first) && *first != b'0' && are_digits(rest),
    }
}

/// Whether bytes are a decimal, or one behind a minus.
fn is_integer(bytes: &[u8]) -> bool
    ensures { result ≡ is_integer bytes.now }
{
    match bytes {
        [] => false,
        [b'-', digits @ ..] => is_decimal(digits),
        digits => is_decimal(digits),
    }
}

/// The number that a text is, where it is one of 128 bits.
pub(crate) fn bound_number(text: &str) -> Option<i128>
    ensures { result ≡ bound_number text.now }
{
    if is_integer(text.as_bytes()) {
        text.parse::<i128>().ok()
    } else {
        None
    }
}
