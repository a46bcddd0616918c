//! What holds of changes of several scopes.
ghost use Rattle.scope_commands.specs.OneAnswer.{PlansOfScopesAreOne};

use plan_search::searches_have_one_answer;
use yang_model::{models_are_one, readers_exist};

/// A change of several scopes has one right answer in each state: the first refusal, also that a scope has no plan,
/// or the plans of all. The body does nothing: the law is the contract.
pub fn plans_of_scopes_are_one()
    ensures { PlansOfScopesAreOne }
{
    models_are_one();
    readers_exist();
    searches_have_one_answer();
}
