//! The stored configuration.
ghost use Rattle.std.specs.Prelude.{◌≤◌, IfErr, IfOk, IfSome};
ghost use Rattle.std.specs.List.{AllPass};
ghost use Rattle.host_core.specs.Names.{longest_plain_name};
ghost use Rattle.conf_doc.specs.WellFormed.{IsConfig};
ghost use Rattle.conf_store.specs.Files.{is_step_name};
ghost use Rattle.conf_store.specs.Folds.{StandsFor};
ghost use Rattle.gcu_inputs.specs.StoredAsked.{stored_asked};
ghost use Rattle.gcu_inputs.specs.Preparing.{Finds, Refuses};
ghost use Rattle.gcu_inputs.specs.Reads.{ReadsFiles};

use conf_doc::Config;
use conf_store::{LoadError, Stored, load};
use gcu_output::Outcome;
use host_core::Host;
use std::alloc::Global;

/// Reads the configuration that the folder stands for.
pub fn read_config<H: Host>(alloc: Global, host: &mut H) -> Result<Config, Outcome>
    requires { longest_plain_name ≤ H.longest_name }
    ensures answer { Finds (H.told host.old) (λ c. c) result stored_asked }
    ensures reads { ReadsFiles H.told H.counts H.moment H.left_since H.goes_on host.old host.new }
    ensures cause { IfErr result (Refuses (H.counts host.old) (H.counts host.new)) }
{
    match load(alloc, host) {
        Ok(Stored { config, .. }) => Ok(config),
        Err(LoadError::Bad(why)) => Err(Outcome::BadStored { why }),
        Err(LoadError::Disk) => Err(Outcome::DiskFault { step: 0 }),
        Err(LoadError::Memory) => Err(Outcome::Memory),
    }
}

/// Reads what the folder stands for, with the files that a fold takes away.
pub fn read_folder<H: Host>(alloc: Global, host: &mut H) -> Result<Stored, Outcome>
    requires { longest_plain_name ≤ H.longest_name }
    ensures answer { Finds (H.told host.old) (λ what. what.config) result stored_asked }
    ensures stands { IfOk result
        (λ what. IfSome (H.told host.old) (λ s. StandsFor what s.files)) }
    ensures names { IfOk result (λ what. AllPass is_step_name what.steps) }
    ensures formed { IfOk result (λ what. IsConfig what.config) }
    ensures reads { ReadsFiles H.told H.counts H.moment H.left_since H.goes_on host.old host.new }
    ensures cause { IfErr result (Refuses (H.counts host.old) (H.counts host.new)) }
{
    match load(alloc, host) {
        Ok(what) => Ok(what),
        Err(LoadError::Bad(why)) => Err(Outcome::BadStored { why }),
        Err(LoadError::Disk) => Err(Outcome::DiskFault { step: 0 }),
        Err(LoadError::Memory) => Err(Outcome::Memory),
    }
}
