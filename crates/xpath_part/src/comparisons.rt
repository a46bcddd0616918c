//! How `count` is compared with a number.

/// A comparison of two numbers (XPath 1.0, section 3.4).
#[derive(Clone, Copy, Debug, PartialEq, Eq)]
pub enum Cmp {
    Equal,
    Differ,
    Less,
    AtMost,
    More,
    AtLeast,
}
