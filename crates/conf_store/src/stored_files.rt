//! A file that holds a configuration.
ghost use Rattle.std.specs.Prelude.{◌≡◌, IfOk, IsErrOf, true};
ghost use Rattle.host_core.specs.Answers.{Gives};
ghost use Rattle.conf_doc.specs.Shaping.{configuration};
ghost use Rattle.conf_doc.specs.Trees.{document};
ghost use Rattle.conf_doc.specs.WellFormed.{IsConfig};
ghost use Rattle.conf_store.specs.Reads.{load_fault};
ghost use Rattle.conf_store.specs.Stored.{config_in, or_why};
ghost use Rattle.conf_store.specs.Shapes.{is_config};
ghost use Rattle.conf_store.specs.Walk.{document_in, shaped, shaped_in};
ghost use Rattle.conf_store.specs.declared.errors.LoadError.TheVariants.{Disk as disk_failed};
ghost use Rattle.conf_store.specs.declared.errors.StoredWhy.TheVariants.{BadShape};

use crate::shapes::Shaped;
use crate::{LoadError, StoredWhy};
use conf_doc::{Config, ReadError, ShapeError, Tree, config_of_tree, read_tree};
use std::alloc::Global;

/// The tree that the bytes of a file hold.
pub(crate) fn read_document(alloc: Global, bytes: &[u8]) -> Result<Tree, LoadError>
    ensures document { Gives document load_fault result (document_in bytes.now) }
    ensures cause { IsErrOf result disk_failed → ⊥ }
{
    match read_tree(alloc, bytes) {
        Ok(tree) => Ok(tree),
        Err(ReadError::BadJson) => Err(LoadError::Bad(StoredWhy::BadJson)),
        Err(ReadError::BadKind { .. }) => Err(LoadError::Bad(StoredWhy::BadKind)),
        Err(ReadError::Memory) => Err(LoadError::Memory),
    }
}

/// The configuration that the bytes of a file hold, in any layout, or `Bad` with why they hold none. It answers
/// no `Disk`.
pub fn read_config(alloc: Global, bytes: &[u8]) -> Result<Config, LoadError>
    ensures config { Gives (λ c. c) load_fault result (config_in bytes.now) }
    ensures formed { IfOk result IsConfig }
    ensures cause { IsErrOf result disk_failed → ⊥ }
{
    let tree = read_document(alloc, bytes)?;
    shape_config(alloc, tree)
}

/// The tree that the bytes of a file hold, where it is a configuration's.
pub(crate) fn read_shaped(alloc: Global, bytes: &[u8]) -> Result<Tree, LoadError>
    ensures document { Gives document load_fault result
        (shaped_in bytes.now) }
    ensures shaped { IfOk result (λ t. is_config (document t) ≡ true) }
    ensures cause { IsErrOf result disk_failed → ⊥ }
{
    let tree = read_document(alloc, bytes)?;
    test_shape(StoredWhy::BadShape, tree)
}

/// The tree, where it is a configuration's.
pub(crate) fn test_shape(why: StoredWhy, tree: Tree) -> Result<Tree, LoadError>
    ensures document { Gives document load_fault result (shaped why (document tree)) }
    ensures shaped { IfOk result (λ t. is_config (document t) ≡ true) }
    ensures cause { IsErrOf result disk_failed → ⊥ }
{
    if Config::is_shaped(&tree) {
        return Ok(tree);
    }
    Err(LoadError::Bad(why))
}

/// The configuration that a tree is.
pub(crate) fn shape_config(alloc: Global, tree: Tree) -> Result<Config, LoadError>
    ensures config { Gives (λ c. c) load_fault result
        (or_why BadShape (configuration (document tree))) }
    ensures formed { IfOk result IsConfig }
    ensures cause { IsErrOf result disk_failed → ⊥ }
{
    match config_of_tree(alloc, tree) {
        Ok(config) => Ok(config),
        Err(ShapeError::Shape { .. }) => Err(LoadError::Bad(StoredWhy::BadShape)),
        Err(ShapeError::Memory) => Err(LoadError::Memory),
    }
}
