//! What the name of a type may stand for.

use crate::bases::Base;

/// What the name of a type stands for.
#[derive(Clone, Copy)]
pub enum Meaning {
    /// A type that is built in.
    Ends(Base),
    /// A typedef: the number of its module, and its place in it. Both are counted from 0.
    Goes(usize, usize),
    Nothing,
}

/// The module that a prefix stands for.
#[derive(Clone, Copy)]
pub(crate) enum Space {
    /// A module of the files, by its number.
    Files(usize),
    Inet,
    Yang,
    Nowhere,
}
