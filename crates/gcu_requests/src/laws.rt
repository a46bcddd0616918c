//! What holds of what is asked.
ghost use Rattle.gcu_requests.specs.OneAnswer.{AskedIsOne};

use plan_check::{plan_faults_are_one, plan_texts_are_one, plans_are_accepted};
use yang_model::{models_are_one, readers_exist};

/// Words have one right answer in each state, the first refusal or the request. The body does nothing: the
/// law is the contract.
pub fn asked_has_one_answer()
    ensures { AskedIsOne }
{
    models_are_one();
    readers_exist();
    plan_texts_are_one();
    plan_faults_are_one();
    plans_are_accepted();
}
