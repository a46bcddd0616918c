//! The table of statements: for each kind, the statements that it may hold and those that it must.
ghost use Rattle.std.specs.Prelude.{◌≡◌, ◌&&◌, map, option_copied};
ghost use Rattle.std.specs.List.{find, list_any};
ghost use Rattle.std.specs.Str.{bytes_eq};
ghost use Rattle.yang_faults.specs.Rows.{row, needs, givers, holds_remarks, is_remark, kind_below, kind_found};
ghost use Rattle.yang_faults.specs.Entries.{allowed, needed};

use crate::kinds::Kind;

/// A statement that another one may hold.
#[derive(Clone, Copy)]
pub(crate) struct Entry {
    pub(crate) keyword: &'static str,
    /// Whether it may stand there once at most.
    pub(crate) single: bool,
    pub(crate) kind: Kind,
}

/// A statement that another one has to hold, or else that of the other keyword.
#[derive(Clone, Copy)]
pub(crate) struct Need {
    pub(crate) keyword: &'static str,
    pub(crate) other: Option<&'static str>,
}

static FILE: [Entry; 1] = [Entry {
    keyword: "module",
    single: true,
    kind: Kind::Module,
}];

static MODULE: [Entry; 7] = [
    Entry {
        keyword: "yang-version",
        single: true,
        kind: Kind::YangVersion,
    },
    Entry {
        keyword: "namespace",
        single: true,
        kind: Kind::Word,
    },
    Entry {
        keyword: "prefix",
        single: true,
        kind: Kind::Prefix,
    },
    Entry {
        keyword: "import",
        single: false,
        kind: Kind::Import,
    },
    Entry {
        keyword: "revision",
        single: false,
        kind: Kind::Revision,
    },
    Entry {
        keyword: "typedef",
        single: false,
        kind: Kind::Typedef,
    },
    Entry {
        keyword: "container",
        single: true,
        kind: Kind::ModuleContainer,
    },
];

static IMPORT: [Entry; 2] = [
    Entry {
        keyword: "prefix",
        single: true,
        kind: Kind::Prefix,
    },
    Entry {
        keyword: "revision-date",
        single: true,
        kind: Kind::Word,
    },
];

static TYPEDEF: [Entry; 1] = [Entry {
    keyword: "type",
    single: true,
    kind: Kind::NamedType,
}];

static MODULE_CONTAINER: [Entry; 1] = [Entry {
    keyword: "container",
    single: false,
    kind: Kind::TableContainer,
}];

static TABLE_CONTAINER: [Entry; 2] = [
    Entry {
        keyword: "list",
        single: false,
        kind: Kind::TableList,
    },
    Entry {
        keyword: "container",
        single: false,
        kind: Kind::FixedContainer,
    },
];

static TABLE_LIST: [Entry; 4] = [
    Entry {
        keyword: "key",
        single: true,
        kind: Kind::Key,
    },
    Entry {
        keyword: "leaf",
        single: false,
        kind: Kind::Leaf,
    },
    Entry {
        keyword: "leaf-list",
        single: false,
        kind: Kind::LeafList,
    },
    Entry {
        keyword: "must",
        single: false,
        kind: Kind::Must,
    },
];

static FIXED_CONTAINER: [Entry; 3] = [
    Entry {
        keyword: "leaf",
        single: false,
        kind: Kind::Leaf,
    },
    Entry {
        keyword: "leaf-list",
        single: false,
        kind: Kind::LeafList,
    },
    Entry {
        keyword: "must",
        single: false,
        kind: Kind::Must,
    },
];

static LEAF: [Entry; 4] = [
    Entry {
        keyword: "type",
        single: true,
        kind: Kind::NamedType,
    },
    Entry {
        keyword: "mandatory",
        single: true,
        kind: Kind::Mandatory,
    },
    Entry {
        keyword: "default",
        single: true,
        kind: Kind::Word,
    },
    Entry {
        keyword: "must",
        single: false,
        kind: Kind::Must,
    },
];

static LEAF_LIST: [Entry; 1] = [Entry {
    keyword: "type",
    single: true,
    kind: Kind::NamedType,
}];

static ENUM: [Entry; 1] = [Entry {
    keyword: "value",
    single: true,
    kind: Kind::Word,
}];

static TEXT_TYPE: [Entry; 2] = [
    Entry {
        keyword: "length",
        single: true,
        kind: Kind::Bounds,
    },
    Entry {
        keyword: "pattern",
        single: false,
        kind: Kind::Pattern,
    },
];

static NUMBER_TYPE: [Entry; 1] = [Entry {
    keyword: "range",
    single: true,
    kind: Kind::Bounds,
}];

static ENUMERATION_TYPE: [Entry; 1] = [Entry {
    keyword: "enum",
    single: false,
    kind: Kind::Enum,
}];

static LEAFREF_TYPE: [Entry; 1] = [Entry {
    keyword: "path",
    single: true,
    kind: Kind::Path,
}];

static UNION_TYPE: [Entry; 1] = [Entry {
    keyword: "type",
    single: false,
    kind: Kind::NamedType,
}];

static UNKNOWN_TYPE: [Entry; 3] = [
    Entry {
        keyword: "length",
        single: true,
        kind: Kind::Bounds,
    },
    Entry {
        keyword: "pattern",
        single: false,
        kind: Kind::Pattern,
    },
    Entry {
        keyword: "range",
        single: true,
        kind: Kind::Bounds,
    },
];

static MODULE_NEEDS: [Need; 3] = [
    Need {
        keyword: "namespace",
        other: None,
    },
    Need {
        keyword: "prefix",
        other: None,
    },
    Need {
        keyword: "container",
        other: None,
    },
];

static IMPORT_NEEDS: [Need; 1] = [Need {
    keyword: "prefix",
    other: None,
}];

static TYPEDEF_NEEDS: [Need; 1] = [Need {
    keyword: "type",
    other: None,
}];

static MODULE_CONTAINER_NEEDS: [Need; 1] = [Need {
    keyword: "container",
    other: None,
}];

static TABLE_CONTAINER_NEEDS: [Need; 1] = [Need {
    keyword: "list",
    other: Some("container"),
}];

static TABLE_LIST_NEEDS: [Need; 1] = [Need {
    keyword: "key",
    other: None,
}];

static LEAF_NEEDS: [Need; 1] = [Need {
    keyword: "type",
    other: None,
}];

static LEAF_LIST_NEEDS: [Need; 1] = [Need {
    keyword: "type",
    other: None,
}];

static ENUMERATION_TYPE_NEEDS: [Need; 1] = [Need {
    keyword: "enum",
    other: None,
}];

static LEAFREF_TYPE_NEEDS: [Need; 1] = [Need {
    keyword: "path",
    other: None,
}];

static UNION_TYPE_NEEDS: [Need; 1] = [Need {
    keyword: "type",
    other: None,
}];

static MODULE_GIVERS: [Need; 1] = [Need {
    keyword: "typedef",
    other: None,
}];

static MODULE_CONTAINER_GIVERS: [Need; 1] = [Need {
    keyword: "container",
    other: None,
}];

static TABLE_CONTAINER_GIVERS: [Need; 1] = [Need {
    keyword: "list",
    other: Some("container"),
}];

static TABLE_LIST_GIVERS: [Need; 1] = [Need {
    keyword: "leaf",
    other: Some("leaf-list"),
}];

static FIXED_CONTAINER_GIVERS: [Need; 1] = [Need {
    keyword: "leaf",
    other: Some("leaf-list"),
}];

static ENUMERATION_TYPE_GIVERS: [Need; 1] = [Need {
    keyword: "enum",
    other: None,
}];

static REMARKS: [&str; 9] = [
    "description",
    "reference",
    "organization",
    "contact",
    "status",
    "units",
    "ordered-by",
    "error-message",
    "error-app-tag",
];

/// What a kind may hold, remarks apart, what it has to hold, and which of these give names of which none
/// may be given twice.
#[derive(Clone, Copy, Drop)]
struct KindRules {
    row: &'static [Entry],
    needs: &'static [Need],
    givers: &'static [Need],
}

impl KindRules {
    fn new(row: &'static [Entry], needs: &'static [Need], givers: &'static [Need]) -> KindRules
        ensures row { result.row.now ≡ row.now }
        ensures needs { result.needs.now ≡ needs.now }
        ensures givers { result.givers.now ≡ givers.now }
    {
        KindRules { row, needs, givers }
    }
}

/// The table of statements, a kind a line.
fn rules(kind: Kind) -> KindRules
    ensures row { map allowed result.row.now ≡ row kind }
    ensures needs { map needed result.needs.now ≡ needs kind }
    ensures givers { map needed result.givers.now ≡ givers kind }
{
    match kind {
        Kind::File => KindRules::new(&FILE, &[], &[]),
        Kind::Module => KindRules::new(&MODULE, &MODULE_NEEDS, &MODULE_GIVERS),
        Kind::Import => KindRules::new(&IMPORT, &IMPORT_NEEDS, &[]),
        Kind::Typedef => KindRules::new(&TYPEDEF, &TYPEDEF_NEEDS, &[]),
        Kind::ModuleContainer => KindRules::new(
            &MODULE_CONTAINER,
            &MODULE_CONTAINER_NEEDS,
            &MODULE_CONTAINER_GIVERS,
        ),
        Kind::TableContainer => KindRules::new(
            &TABLE_CONTAINER,
            &TABLE_CONTAINER_NEEDS,
            &TABLE_CONTAINER_GIVERS,
        ),
        Kind::TableList => KindRules::new(&TABLE_LIST, &TABLE_LIST_NEEDS, &TABLE_LIST_GIVERS),
        Kind::FixedContainer => KindRules::new(&FIXED_CONTAINER, &[], &FIXED_CONTAINER_GIVERS),
        Kind::Leaf => KindRules::new(&LEAF, &LEAF_NEEDS, &[]),
        Kind::LeafList => KindRules::new(&LEAF_LIST, &LEAF_LIST_NEEDS, &[]),
        Kind::Enum => KindRules::new(&ENUM, &[], &[]),
        Kind::TextType => KindRules::new(&TEXT_TYPE, &[], &[]),
        Kind::NumberType => KindRules::new(&NUMBER_TYPE, &[], &[]),
        Kind::EnumerationType => KindRules::new(
            &ENUMERATION_TYPE,
            &ENUMERATION_TYPE_NEEDS,
            &ENUMERATION_TYPE_GIVERS,
        ),
        Kind::LeafrefType => KindRules::new(&LEAFREF_TYPE, &LEAFREF_TYPE_NEEDS, &[]),
        Kind::UnionType => KindRules::new(&UNION_TYPE, &UNION_TYPE_NEEDS, &[]),
        Kind::UnknownType => KindRules::new(&UNKNOWN_TYPE, &[], &[]),
        Kind::YangVersion
        | Kind::Word
        | Kind::Prefix
        | Kind::Revision
        | Kind::Key
        | Kind::Mandatory
        | Kind::Must
        | Kind::Path
        | Kind::Bounds
        | Kind::Pattern
        | Kind::NamedType
        | Kind::PlainType => KindRules::new(&[], &[], &[]),
    }
}

/// The statements that a kind may hold, remarks apart.
pub(crate) fn row(kind: Kind) -> &'static [Entry]
    ensures { map allowed result.now ≡ row kind }
{
    rules(kind).row
}

/// The statements that a kind has to hold.
pub(crate) fn needs(kind: Kind) -> &'static [Need]
    ensures { map needed result.now ≡ needs kind }
{
    rules(kind).needs
}

/// The statements in a kind that give names, of which none may be given twice.
pub(crate) fn givers(kind: Kind) -> &'static [Need]
    ensures { map needed result.now ≡ givers kind }
{
    rules(kind).givers
}

/// Whether a kind may hold remarks.
fn holds_remarks(kind: Kind) -> bool
    ensures { result ≡ holds_remarks kind }
{
    match kind {
        Kind::Module
        | Kind::Import
        | Kind::Revision
        | Kind::Typedef
        | Kind::ModuleContainer
        | Kind::TableContainer
        | Kind::TableList
        | Kind::FixedContainer
        | Kind::Leaf
        | Kind::LeafList
        | Kind::Must
        | Kind::Enum
        | Kind::Bounds
        | Kind::Pattern => true,
        Kind::File
        | Kind::YangVersion
        | Kind::Word
        | Kind::Prefix
        | Kind::Key
        | Kind::Mandatory
        | Kind::Path
        | Kind::NamedType
        | Kind::TextType
        | Kind::NumberType
        | Kind::EnumerationType
        | Kind::LeafrefType
        | Kind::UnionType
        | Kind::PlainType
        | Kind::UnknownType => false,
    }
}

/// Whether a text is among some texts.
fn is_among(texts: &[&str], text: &str) -> bool
    ensures { result ≡ list_any (λ t. bytes_eq t.now text.now) texts.now }
{
    texts.iter().any(|t| *t == text)
}

/// Whether a keyword is that of a remark.
fn is_remark(keyword: &str) -> bool
    ensures { result ≡ is_remark keyword.now }
{
    is_among(&REMARKS, keyword)
}

/// The entry of a keyword in a row.
fn entry_named<'a>(row: &'a [Entry], keyword: &str) -> Option<&'a Entry>
    ensures { option_copied result ≡ find (λ e. bytes_eq keyword.now e.keyword.now) row.now }
{
    row.iter().find(|entry| keyword == entry.keyword)
}

/// Whether a statement is a remark in one of a kind.
fn is_remark_below(kind: Kind, keyword: &str) -> bool
    ensures { result ≡ (holds_remarks kind && is_remark keyword.now) }
{
    holds_remarks(kind) && is_remark(keyword)
}

/// The kind of a remark, for a remark.
fn word_if(is_remark: bool) -> Option<Kind>
    ensures { result ≡ kind_found None is_remark }
{
    if is_remark { Some(Kind::Word) } else { None }
}

/// The kind of a statement in one of a kind, or None where it may not stand there.
pub(crate) fn kind_below(kind: Kind, keyword: &str) -> Option<Kind>
    ensures { result ≡ kind_below kind keyword.now }
{
    match entry_named(row(kind), keyword) {
        Some(entry) => Some(entry.kind),
        None => word_if(is_remark_below(kind, keyword)),
    }
}
