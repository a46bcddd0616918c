//! The errors of this crate.
use host_core::Txt;
use thiserror::Error;

/// Why bytes are no tree.
#[derive(Debug, Drop, Error)]
pub enum ReadError {
    /// They are no JSON text that serde_json reads: not UTF-8, not of the grammar, or nested too deep.
    #[error("not a JSON text")]
    BadJson,
    /// A number, true, false or null stands at this place, an RFC 6901 pointer; it is the first in
    /// sorted order.
    #[error("not a text, a list or a map")]
    BadKind { place: Txt },
    #[error("out of memory")]
    Memory,
}

/// Why a tree is no configuration.
#[derive(Debug, Drop, Error)]
pub enum ShapeError {
    /// The node at this place, an RFC 6901 pointer, has the wrong shape or an empty name; it is the
    /// first in sorted order.
    #[error("not of the shape of a configuration")]
    Shape { place: Txt },
    #[error("out of memory")]
    Memory,
}
