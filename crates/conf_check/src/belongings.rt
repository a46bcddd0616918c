//! That the shapes of all entries are known. The bodies do nothing: each law is its contract.
ghost use Rattle.std.specs.Prelude.{◌≡◌};
ghost use Rattle.conf_check.specs.Belongings.{Belongings, AreBelongings};

use conf_doc::Config;
use yang_model::Models;
use yang_types::texts_are_decided;

/// Each entry of a configuration belongs to one shape of its table or to none, and there is exactly one
/// list of these.
pub fn belongings_are_one(models: &Models, config: &Config)
    ensures there { (b : Belongings) × AreBelongings models.now config.now b }
    ensures once { (a b : Belongings) → AreBelongings models.now config.now a
        → AreBelongings models.now config.now b → a ≡ b }
{
    texts_are_decided();
}
