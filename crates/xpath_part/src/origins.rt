//! Where a path begins.

/// Where a path begins (XPath 1.0, section 2): at the root, at the context node, or at the node that
/// `current()` means.
#[derive(Clone, Copy, Debug, PartialEq, Eq)]
pub enum Origin {
    Root,
    Context,
    Current,
}
