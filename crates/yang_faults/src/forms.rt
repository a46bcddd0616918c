//! The forms of arguments.
ghost use Rattle.std.specs.Prelude.{◌≡◌};
ghost use Rattle.yang_scope.specs.Identifiers.{is_identifier};
ghost use Rattle.yang_faults.specs.Forms.{is_version, is_truth, is_form};

use crate::kinds::Kind;
use yang_scope::{is_built_in_type, is_identifier};

/// Whether a text is a version of YANG.
fn is_version(text: &str) -> bool
    ensures { result ≡ is_version text.now }
{
    text == "1" || text == "1.1"
}

/// Whether a text is `true` or `false`.
fn is_truth(text: &str) -> bool
    ensures { result ≡ is_truth text.now }
{
    text == "true" || text == "false"
}

/// Whether an argument is of the form that its kind asks for.
pub(crate) fn is_form(kind: Kind, text: &str) -> bool
    ensures { result ≡ is_form kind text.now }
{
    match kind {
        Kind::Module
        | Kind::Prefix
        | Kind::ModuleContainer
        | Kind::TableContainer
        | Kind::TableList
        | Kind::FixedContainer
        | Kind::Leaf
        | Kind::LeafList => is_identifier(text),
        Kind::Typedef => is_identifier(text) && !is_built_in_type(text),
        Kind::YangVersion => is_version(text),
        Kind::Mandatory => is_truth(text),
        Kind::File
        | Kind::Word
        | Kind::Import
        | Kind::Revision
        | Kind::Must
        | Kind::Key
        | Kind::Path
        | Kind::Enum
        | Kind::Bounds
        | Kind::Pattern
        | Kind::NamedType
        | Kind::TextType
        | Kind::NumberType
        | Kind::EnumerationType
        | Kind::LeafrefType
        | Kind::UnionType
        | Kind::PlainType
        | Kind::UnknownType => true,
    }
}
