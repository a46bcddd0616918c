//! What the file of a checkpoint holds, in either format.
ghost use Rattle.std.specs.Prelude.{◌≡◌, IfOk};
ghost use Rattle.conf_doc.specs.Trees.{document};
ghost use Rattle.conf_doc.specs.WellFormed.{IsConfig};
ghost use Rattle.checkpoints.specs.Formats.{config_of, content, content_of as held_by, with_number as numbered};
ghost use Rattle.checkpoints.specs.Reads.{Finds};

use crate::PointError;
use crate::format::{number_in, take_config};
use conf_doc::{Config, ReadError, ShapeError, Tree, config_of_tree, read_tree};
use std::alloc::Global;

/// A configuration, and the sequence number of its checkpoint.
#[derive(Drop)]
pub(crate) struct Content {
    pub(crate) config: Config,
    pub(crate) number: u32,
}

/// What the bytes of a file hold. Its text is JSON (RFC 8259) of any layout.
pub(crate) fn read_content(alloc: Global, bytes: &[u8]) -> Result<Content, PointError>
    ensures content { Finds (content bytes.now) result }
    ensures formed { IfOk result (λ c. IsConfig c.config) }
{
    match read_tree(alloc, bytes) {
        Ok(tree) => content_of(alloc, tree),
        Err(ReadError::Memory) => Err(PointError::Memory),
        Err(_) => Err(PointError::NotConfig),
    }
}

/// What a tree holds: one of format 2 has a number, and any other is to be a configuration.
fn content_of(alloc: Global, tree: Tree) -> Result<Content, PointError>
    ensures content { Finds (held_by (document tree)) result }
    ensures formed { IfOk result (λ c. IsConfig c.config) }
{
    let number = number_in(alloc, &tree)?;
    match number {
        Some(number) => match take_config(tree) {
            Some(config) => with_number(alloc, number, config),
            None => Err(PointError::NotConfig),
        },
        None => with_number(alloc, 0, tree),
    }
}

/// The configuration that a tree is, with that number.
fn with_number(alloc: Global, number: u32, tree: Tree) -> Result<Content, PointError>
    ensures content { Finds (numbered number (config_of (document tree))) result }
    ensures formed { IfOk result (λ c. IsConfig c.config) }
{
    match config_of_tree(alloc, tree) {
        Ok(config) => Ok(Content { config, number }),
        Err(ShapeError::Shape { .. }) => Err(PointError::NotConfig),
        Err(ShapeError::Memory) => Err(PointError::Memory),
    }
}
