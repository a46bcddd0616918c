//! The stored configuration, as its tree.
ghost use Rattle.std.specs.Prelude.{◌≤◌, IfErr};
ghost use Rattle.host_core.specs.Names.{longest_plain_name};
ghost use Rattle.conf_doc.specs.Trees.{document};
ghost use Rattle.gcu_inputs.specs.Preparing.{Finds, Refuses};
ghost use Rattle.gcu_inputs.specs.Reads.{ReadsFiles};
ghost use Rattle.gcu_requests.specs.Trees.{stored_document};

use conf_doc::Tree;
use conf_store::{LoadError, load_tree};
use gcu_output::Outcome;
use host_core::Host;
use std::alloc::Global;

/// Reads the configuration that the folder stands for, as its tree.
pub(crate) fn read_stored<H: Host>(alloc: Global, host: &mut H) -> Result<Tree, Outcome>
    requires { longest_plain_name ≤ H.longest_name }
    ensures answer { Finds (H.told host.old) document result stored_document }
    ensures reads { ReadsFiles H.told H.counts H.moment H.left_since H.goes_on host.old host.new }
    ensures cause { IfErr result (Refuses (H.counts host.old) (H.counts host.new)) }
{
    match load_tree(alloc, host) {
        Ok(tree) => Ok(tree),
        Err(LoadError::Bad(why)) => Err(Outcome::BadStored { why }),
        Err(LoadError::Disk) => Err(Outcome::DiskFault { step: 0 }),
        Err(LoadError::Memory) => Err(Outcome::Memory),
    }
}
