//! The text of a file of format 2.
ghost use Rattle.std.specs.Prelude.{◌≡◌, IfOk, None, Some};
ghost use Rattle.conf_doc.specs.Trees.{document};
ghost use Rattle.conf_doc.specs.WellFormed.{IsConfig};
ghost use Rattle.checkpoints.specs.Formats.{content, point_text, point_tree as tree_of_point};
ghost use Rattle.checkpoints.specs.Migrations.{old_held};

use crate::format::{CONFIG, FORMAT, FORMAT_2, SEQUENCE};
use crate::tree_text::pretty_bytes;
use conf_doc::{Config, Members, Tree, tree_of};
use host_core::{Memory, Txt};
use std::alloc::Global;

/// The text of the file of a configuration and a sequence number. It is read as those again, and isn't of the
/// old format.
pub(crate) fn point_bytes(alloc: Global, config: &Config, number: u32) -> Result<Vec<u8>, Memory>
    ensures text { IfOk result (λ b. b.items ≡ point_text config.now number) }
    ensures content { IfOk result
        (λ b. content b.items ≡ Some (record { config = config.now; number = number })) }
    ensures format { IfOk result (λ b. old_held b.items ≡ None) }
{
    let tree = point_tree(alloc, config, number)?;
    pretty_bytes(alloc, &tree)
}

/// The map of a configuration, the format and a sequence number.
fn point_tree(alloc: Global, config: &Config, number: u32) -> Result<Tree, Memory>
    ensures tree { IfOk result (λ t. document t ≡ tree_of_point config.now number) }
    ensures formed { IsConfig config.now }
{
    let _ = config.len();
    let mut members = Members::new(alloc);
    members.set(Txt::new(alloc, CONFIG)?, tree_of(alloc, config)?)?;
    members.set(
        Txt::new(alloc, FORMAT)?,
        Tree::Text(Txt::new(alloc, FORMAT_2)?),
    )?;
    let digits = format!(in alloc; "{number}")?;
    members.set(Txt::new(alloc, SEQUENCE)?, Tree::Text(Txt::from(digits)))?;
    Ok(Tree::Map(members))
}
