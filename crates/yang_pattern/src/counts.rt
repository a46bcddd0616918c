//! The numbers between the braces of a quantifier, letter by letter.

ghost use Rattle.std.specs.Prelude.{◌≡◌, ◌<◌, None};
ghost use Rattle.yang_pattern.specs.declared.counts.OpenCount.TheVariants.{First};
ghost use Rattle.yang_pattern.specs.Counts.{with_digit, count_comma, count_digit, count_with, count_close};

use crate::letters::Letter;
use crate::symbols::Quantifier;

/// What is read between open braces. A number is None before its first digit.
#[derive(Clone, Copy)]
pub enum OpenCount {
    First(Option<u8>),
    /// The first number and a comma.
    Second(u8, Option<u8>),
}

/// A number with one digit more. None behind a leading zero, or above 255.
fn with_digit(number: Option<u8>, digit: u8) -> Option<u8>
    requires { digit < 10 }
    ensures { result ≡ with_digit number digit }
{
    match number {
        None => Some(digit),
        Some(0) => None,
        Some(before) => before.checked_mul(10)?.checked_add(digit),
    }
}

impl OpenCount {
    pub fn new() -> OpenCount
        ensures { result ≡ First None }
    {
        OpenCount::First(None)
    }

    fn comma(self) -> Option<OpenCount>
        ensures { result ≡ count_comma self }
    {
        match self {
            OpenCount::First(Some(least)) => Some(OpenCount::Second(least, None)),
            _ => None,
        }
    }

    fn digit(self, digit: u8) -> Option<OpenCount>
        requires { digit < 10 }
        ensures { result ≡ count_digit self digit }
    {
        match self {
            OpenCount::First(number) => match with_digit(number, digit) {
                None => None,
                Some(least) => Some(OpenCount::First(Some(least))),
            },
            OpenCount::Second(least, number) => match with_digit(number, digit) {
                None => None,
                Some(most) => Some(OpenCount::Second(least, Some(most))),
            },
        }
    }

    /// A letter other than the closing brace. None where it can't stand here.
    pub fn with(self, letter: Letter) -> Option<OpenCount>
        ensures { result ≡ count_with self letter }
    {
        let c = letter.character;
        if letter.escaped {
            None
        } else if c == ',' {
            self.comma()
        } else if '0' <= c && c <= '9' {
            self.digit((c as u32 - '0' as u32) as u8)
        } else {
            None
        }
    }

    /// The closing brace. None where a number is missing, or the first is above the second.
    pub fn close(self) -> Option<Quantifier>
        ensures { result ≡ count_close self }
    {
        match self {
            OpenCount::First(None) => None,
            OpenCount::First(Some(least)) => Some(Quantifier::Between { least, more: 0 }),
            OpenCount::Second(least, None) => Some(Quantifier::AtLeast(least)),
            OpenCount::Second(least, Some(most)) => {
                if least <= most {
                    Some(Quantifier::Between {
                        least,
                        more: most - least,
                    })
                } else {
                    None
                }
            }
        }
    }
}
