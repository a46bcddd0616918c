//! What stands after the moves of a plan.
ghost use Rattle.plan_texts.specs.Ends.{IsEnd};

/// The line that may stand there.
const DONE: &[u8] = b"done\n";

/// What stands after the moves.
#[derive(Clone, Copy)]
pub(crate) enum End {
    /// Nothing, or the line `done`.
    Good,
    /// Something else.
    Other,
    /// Something after the line `done`.
    More,
}

/// What a text after the moves is.
pub(crate) fn end_of(text: &[u8]) -> End
    ensures { IsEnd text.now result }
{
    if text.is_empty() {
        return End::Good;
    }
    match text.strip_prefix(DONE) {
        Some(rest) => {
            if rest.is_empty() {
                End::Good
            } else {
                End::More
            }
        }
        None => End::Other,
    }
}
