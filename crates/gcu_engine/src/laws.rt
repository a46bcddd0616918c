//! Laws of what the headline says of inputs and folders, and of the right answers to words, which no code runs.
ghost use Rattle.std.specs.Prelude.{◌≡◌, ◌↔◌, ℕ, List, Ok, Some};
ghost use Rattle.serde_json.specs.Data.{Data};
ghost use Rattle.host_core.specs.State.{Files};
ghost use Rattle.conf_doc.specs.Document.{Document};
ghost use Rattle.conf_doc.specs.Reading.{json};
ghost use Rattle.conf_doc.specs.declared.configuration.Config.{Config as Configuration};
ghost use Rattle.patch_core.specs.Apply.{apply_plain};
ghost use Rattle.patch_core.specs.Operation.{Operation};
ghost use Rattle.patch_core.specs.Reading.{patch};
ghost use Rattle.conf_store.specs.Stored.{stored};
ghost use Rattle.move_core.specs.RulesFile.{rules};
ghost use Rattle.move_core.specs.declared.settings.Settings.{Settings};
ghost use Rattle.gcu_engine.specs.Folder.{Stores};
ghost use Rattle.gcu_engine.specs.OneAnswer.{RightAnswersAreOne};
ghost use Rattle.gcu_engine.specs.Patching.{HoldOperations, IsPatched};
ghost use Rattle.gcu_engine.specs.RulesValues.{IsSettings};

use gcu_requests::asked_has_one_answer;
use scope_commands::plans_of_scopes_are_one;

/// The settings that are read of a rules file are those that its JSON value says.
pub fn settings_read_are_said()
    ensures said { (bytes : List ℕ) (settings : Settings) → rules bytes ≡ Ok settings
        → (d : Data) × (json bytes ≡ Some d) × IsSettings d settings }
    ensures read { (bytes : List ℕ) (d : Data) (settings : Settings)
        → json bytes ≡ Some d → IsSettings d settings → rules bytes ≡ Ok settings }
{}

/// The operations that are read of a patch are those that its JSON value says, and what they make of a document
/// is their result by RFC 6902, or none where one of them fails.
pub fn patches_read_are_said()
    ensures held { (bytes : List ℕ) (ops : List Operation)
        → HoldOperations bytes ops ↔ (patch bytes ≡ Ok ops) }
    ensures made { (ops : List Operation) (d e : Document)
        → IsPatched ops d e ↔ (apply_plain ops d ≡ Ok e) }
{}

/// The configuration that is read of a folder is the one that its files stand for.
pub fn folders_read_are_said()
    ensures { (files : Files) (config : Configuration)
        → Stores files config ↔ (stored files ≡ Ok config) }
{}

/// Words have one right answer in each state, the first refusal or the request, whichever scopes they name: of a
/// command over the files of one ASIC, and of a change of several scopes, too.
pub fn right_answers_are_one()
    ensures { RightAnswersAreOne }
{
    asked_has_one_answer();
    plans_of_scopes_are_one();
}
