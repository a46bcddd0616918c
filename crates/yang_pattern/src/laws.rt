//! What can be told of patterns and of texts. The bodies do nothing: the laws are the contracts.

ghost use Rattle.std.specs.Prelude.{List, ℕ};
ghost use Rattle.yang_pattern.specs.Decided.{IsDecided};
ghost use Rattle.yang_pattern.specs.Language.{IsPattern, MatchesText};

/// There is a function that tells the texts that are patterns from the others.
pub fn patterns_are_decided()
    ensures { IsDecided IsPattern }
{}

/// For each text there is a function that tells what it matches as a pattern; a text that is no
/// pattern matches nothing.
pub fn matches_are_decided()
    ensures { (pattern : List ℕ) → IsDecided (MatchesText pattern) }
{}
