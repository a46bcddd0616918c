//! What each kind of statement may hold.

/// A kind of statement: what it may hold, and what its argument is.
#[derive(Clone, Copy, Debug, PartialEq, Eq)]
pub(crate) enum Kind {
    File,
    Module,
    YangVersion,
    /// An argument that is any text, and no statements in braces but remarks' own.
    Word,
    Prefix,
    Import,
    Revision,
    Typedef,
    ModuleContainer,
    TableContainer,
    TableList,
    FixedContainer,
    Key,
    Leaf,
    LeafList,
    Mandatory,
    Must,
    Enum,
    Path,
    Bounds,
    Pattern,
    /// A type before its name is looked at.
    NamedType,
    TextType,
    NumberType,
    EnumerationType,
    LeafrefType,
    UnionType,
    /// A type that holds nothing.
    PlainType,
    /// A type whose name names nothing, or whose base is on a circle.
    UnknownType,
}
