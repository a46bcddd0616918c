//! The nodes of a configuration, which an expression speaks of.
ghost use Rattle.std.specs.Prelude.{◌≡◌};
ghost use Rattle.conf_check.specs.Belongings.{Known, Known-once};

use crate::belongings::belongings_are_one;
use conf_doc::Config;
use yang_model::Models;

/// A configuration as a tree of nodes by its models. It borrows both, and takes no memory.
#[derive(Drop)]
pub(crate) struct ConfigNodes<'a> {
    pub(crate) models: &'a Models,
    pub(crate) config: &'a Config,
    ghost known: { Known models.now config.now } by { Known-once models.now config.now },
}

/// The nodes of a configuration. That the shapes of its entries are known is a law, so nothing is asked.
pub(crate) fn nodes_of<'a>(models: &'a Models, config: &'a Config) -> ConfigNodes<'a>
    ensures models { result.models.now ≡ models.now }
    ensures config { result.config.now ≡ config.now }
{
    belongings_are_one(models, config);
    ConfigNodes { models, config }
}
