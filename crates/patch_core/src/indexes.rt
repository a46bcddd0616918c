//! What a token means at a list (RFC 6901, section 4).
ghost use Rattle.std.specs.Prelude.{◌≡◌, ◌≤◌, ◌^◌, MatchOption};
ghost use Rattle.std.specs.List.{list_all};
ghost use Rattle.std.specs.Char.{is_ascii_digit};
ghost use Rattle.patch_core.specs.Indexes.{is_dash, is_index, list_token, number, with_digit};
ghost use Rattle.patch_core.specs.ListSpots.{Stands};

use host_core::Txt;

/// Where a token leads in a list of a given length.
pub(crate) enum Spot {
    /// To an item.
    At(usize),
    /// Right behind the last item, by its index.
    End,
    /// Farther behind.
    Past,
    /// Behind the last item, by `-`.
    Dash,
    /// The token is neither an index nor `-`.
    NoIndex,
}

/// Whether a token is `-`.
fn is_dash(token: &[u8]) -> bool
    ensures { result ≡ is_dash token.now }
{
    matches!(token, [b'-'])
}

/// Whether all characters are decimal digits.
fn all_digits(token: &[u8]) -> bool
    ensures { result ≡ list_all is_ascii_digit token.now }
{
    token.iter().all(|b| b.is_ascii_digit())
}

/// Whether a token is an index.
fn is_index(token: &[u8]) -> bool
    ensures { result ≡ is_index token.now }
{
    match token {
        [] => false,
        [digit] => digit.is_ascii_digit(),
        [first, ..] => *first != b'0' && all_digits(token),
    }
}

/// The number with one more digit, or None where it is too large.
fn with_digit(sum: usize, digit: u8) -> Option<usize>
    ensures { MatchOption result (2 ^ 64 ≤ with_digit sum digit) (λ n. n ≡ with_digit sum digit) }
{
    let value = usize::from(digit.saturating_sub(b'0'));
    sum.checked_mul(10)?.checked_add(value)
}

/// The number that digits write, or None where it is too large.
fn number(digits: &[u8]) -> Option<usize>
    ensures { MatchOption result (2 ^ 64 ≤ number digits.now) (λ n. n ≡ number digits.now) }
{
    let mut sum: usize = 0;
    for digit in digits {
        sum = with_digit(sum, *digit)?;
    }
    Some(sum)
}

/// Where a token leads in a list. An index may have any number of digits.
pub(crate) fn spot_of(token: &Txt, len: usize) -> Spot
    ensures { Stands len result (list_token token.now) }
{
    let bytes = token.as_str().as_bytes();
    if is_dash(bytes) {
        return Spot::Dash;
    }
    if !is_index(bytes) {
        return Spot::NoIndex;
    }
    match number(bytes) {
        None => Spot::Past,
        Some(i) => {
            if i < len {
                Spot::At(i)
            } else if i == len {
                Spot::End
            } else {
                Spot::Past
            }
        }
    }
}
