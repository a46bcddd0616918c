//! Lines of a text.
ghost use Rattle.std.specs.Prelude.{◌≡◌, ◌∷◌, ◌++◌, MatchOption};
ghost use Rattle.host_core.specs.Characters.{line_feed};
ghost use Rattle.plan_texts.specs.Lines.{HasNoFeed};

/// The first line of a text without its line feed, and what follows it. A text without a line feed has no
/// line.
pub(crate) fn split_line(text: &[u8]) -> Option<(&[u8], &[u8])>
    ensures { MatchOption result (HasNoFeed text.now)
        (λ x. HasNoFeed x.0.now × (text.now ≡ x.0.now ++ line_feed ∷ x.1.now)) }
{
    for i in 0..text.len() {
        if text[i] == b'\n' {
            return Some((&text[..i], &text[i + 1..]));
        }
    }
    None
}
