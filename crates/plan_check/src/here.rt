//! Where a move is looked at.

use conf_doc::Config;
use move_core::Ctx;

/// By what moves are judged, the configuration before the move, and goal.
#[derive(Clone, Copy, Drop)]
pub(crate) struct Here<'a> {
    pub(crate) ctx: &'a Ctx,
    pub(crate) cur: &'a Config,
    pub(crate) goal: &'a Config,
}
