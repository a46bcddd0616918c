//! A crash of a host in memory: it starts again from one of the images that may be left.
use crate::Sequence;

/// Which of the images a crash leaves. A pick that doesn't fit leaves the files as they read.
#[derive(Drop)]
pub enum Pick {
    /// No file of the name whose bytes are pending.
    Gone,
    /// A file of these bytes, of the name whose bytes are pending.
    Bytes(Sequence<u8>),
    /// The files before the pending change of names.
    Before,
    /// The files after it.
    After,
}
