//! What holds of every answer.
ghost use Rattle.std.specs.Prelude.{◌≡◌, List, ℕ, Option};
ghost use Rattle.yang_scope.specs.Modules.{Module};
ghost use Rattle.yang_text.specs.Declarations.{Declaration};
ghost use Rattle.yang_model.specs.Answers.{AreModelsOf};
ghost use Rattle.yang_model.specs.Belongs.{Belongs};
ghost use Rattle.yang_model.specs.FlatModels.{flat_models};
ghost use Rattle.yang_model.specs.Leaves.{stored, written};
ghost use Rattle.yang_model.specs.ModelSets.{ModelSet};
ghost use Rattle.yang_model.specs.Readers.{Readers, AreTrue};
ghost use Rattle.yang_model.specs.Shapes.{models_of};
ghost use Rattle.yang_model.specs.declared.shapes.Shape.{Shape};

use yang_faults::tests_exist;
use yang_must::reader_reads;

/// An entry belongs to one shape of its table, or to none. The body does nothing: the law is the contract.
pub fn belongs_once()
    ensures { (shapes : List Shape) (key : List ℕ) (a b : Option ℕ)
        → Belongs shapes key a → Belongs shapes key b → a ≡ b }
{}

/// Files have one list of models at most.
pub fn models_are_one()
    ensures { (files : List (List Declaration)) (a b : ModelSet)
        → AreModelsOf files a → AreModelsOf files b → a ≡ b }
{
    readers_exist();
}

/// The models that are stored of modules are those that are written, with the flat forms of their types. The
/// body does nothing: the law is the contract.
pub fn models_are_stored_flat()
    ensures { (modules : List Module) (readers : Readers)
        → models_of stored modules readers ≡ flat_models (models_of written modules readers) }
{}

/// There are functions that read what they are to read, so what is said of all such functions is said of
/// some.
pub fn readers_exist()
    ensures { (readers : Readers) × AreTrue readers }
{
    tests_exist();
    reader_reads();
}

/// No two readers that read what they are to read differ. The body does nothing: the law is the contract.
pub fn readers_are_one()
    ensures { (a b : Readers) → AreTrue a → AreTrue b → a ≡ b }
{}
