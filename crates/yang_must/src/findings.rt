//! What is found while the paths of an expression are followed.
ghost use Rattle.std.specs.Prelude.{◌≡◌, [], false};
ghost use Rattle.yang_must.specs.Findings.{IsSetOf};

use crate::name_sets::NameSet;
use std::alloc::Global;

/// What was found so far.
#[derive(Drop)]
pub(crate) struct Findings {
    /// Whether a step of a path names nothing.
    pub(crate) unknown: bool,
    /// Whether a path ends where it may not.
    pub(crate) misplaced: bool,
    /// The tables on whose containers paths stand.
    pub(crate) reads: NameSet,
}

impl Findings {
    /// Nothing found.
    pub(crate) fn new(alloc: Global) -> Findings
        ensures unknown { result.unknown ≡ false }
        ensures misplaced { result.misplaced ≡ false }
        ensures reads { IsSetOf result.reads.names [] }
    {
        Findings {
            unknown: false,
            misplaced: false,
            reads: NameSet::new(alloc),
        }
    }
}
