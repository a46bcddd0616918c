//! What may be wrong with a configuration.
ghost use Rattle.std.specs.Prelude.{◌≡◌};

/// A rule of validity. Its number is its place in the list of rules, from 1.
#[derive(Clone, Copy, Debug, Drop, Eq, PartialEq)]
pub enum RuleName {
    KeyShape,
    KeyReference,
    UnknownField,
    WrongKind,
    BadValue,
    DuplicateItem,
    MissingField,
    Must,
}

/// A rule that an entry breaks, and where. `table` and `key` are positions in the configuration. `field`
/// is the position in the entry for the rules of a field, the number of the part for a reference of the
/// key, the number among the shape's fields for a missing one and among its musts for a must, and else 0.
#[derive(Clone, Copy, Debug, Drop, Eq, PartialEq)]
pub struct Violation {
    pub table: usize,
    pub key: usize,
    pub field: usize,
    /// The number of the rule.
    pub rule: u32,
}

impl RuleName {
    ghost use Rattle.conf_check.specs.Validity.{rule_number};

    /// The number of the rule.
    pub(crate) fn number(self) -> u32
        ensures { result ≡ rule_number self }
    {
        match self {
            RuleName::KeyShape => 1,
            RuleName::KeyReference => 2,
            RuleName::UnknownField => 3,
            RuleName::WrongKind => 4,
            RuleName::BadValue => 5,
            RuleName::DuplicateItem => 6,
            RuleName::MissingField => 7,
            RuleName::Must => 8,
        }
    }
}
