//! The numbers that digits write.
ghost use Rattle.std.specs.Prelude.{◌≡◌, ◌≤◌, IfSome};
ghost use Rattle.gcu_words.specs.Decimals.{decimal_within, number_within};

/// The number that digits write without leading zeros, where it is no greater than that.
pub(crate) fn decimal_within(digits: &[u8], most: u16) -> Option<u32>
    ensures number { result ≡ decimal_within most digits.now }
    ensures most { IfSome result (λ n. n ≤ most) }
{
    match digits {
        [] => None,
        [_] => number_within(digits, most),
        [first, ..] => {
            if *first == b'0' {
                return None;
            }
            number_within(digits, most)
        }
    }
}

/// The number that digits write, where it is no greater than that.
pub(crate) fn number_within(digits: &[u8], most: u16) -> Option<u32>
    ensures number { result ≡ number_within most digits.now }
    ensures most { IfSome result (λ n. n ≤ most) }
{
    let mut sum: u32 = 0;
    for digit in digits {
        if !digit.is_ascii_digit() {
            return None;
        }
        sum = sum * 10 + u32::from(*digit - b'0');
        if sum > u32::from(most) {
            return None;
        }
    }
    Some(sum)
}
