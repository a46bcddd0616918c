//! The tokens of an expression.

use crate::Cmp;
use host_core::Txt;

/// A token that is always the same text. `Up` is `..` and `Stay` is `.`.
#[derive(Clone, Copy, Debug, PartialEq, Eq)]
pub(crate) enum Sign {
    Slash,
    Open,
    Close,
    OpenBracket,
    CloseBracket,
    Compare(Cmp),
    Up,
    Stay,
}

/// A token: a sign, a name with its prefix, what stands between two quotes, or a number.
#[derive(Drop)]
pub(crate) enum Token {
    Sign(Sign),
    Name(Option<Txt>, Txt),
    Literal(Txt),
    Number(u32),
}
