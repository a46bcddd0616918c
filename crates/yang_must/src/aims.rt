//! What a path of an expression gives.

/// What a path gives: the nodes that it selects, where it is alone or counted, or their texts, on a
/// side of a comparison.
#[derive(Clone, Copy, PartialEq, Eq)]
pub(crate) enum Aim {
    Nodes,
    Texts,
}
