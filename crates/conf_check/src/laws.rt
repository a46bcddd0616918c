//! Laws of the definitions. The bodies do nothing: each law is its contract.
ghost use Rattle.std.specs.Prelude.{◌≡◌, ◌↔◌, List, [], ℕ};
ghost use Rattle.conf_doc.specs.declared.configuration.Config.{Config};
ghost use Rattle.conf_check.specs.Acceptance.{AcceptsIn, IsSatisfied, IsWanted};
ghost use Rattle.conf_check.specs.MustReads.{HasOneTruth};
ghost use Rattle.conf_check.specs.Validity.{Breach, IsBreach, IsValid};
ghost use Rattle.conf_check.specs.Wants.{Want, IsWantAt};
ghost use Rattle.conf_check.specs.declared.want_iter.WantPlace.{WantPlace};
ghost use Rattle.yang_model.specs.Answers.{faults};
ghost use Rattle.yang_model.specs.FlatModels.{flat_models};
ghost use Rattle.yang_model.specs.Leaves.{stored};
ghost use Rattle.yang_model.specs.ModelSets.{ModelSet};
ghost use Rattle.yang_model.specs.Readers.{Readers};
ghost use Rattle.yang_model.specs.Shapes.{models_of};
ghost use Rattle.yang_scope.specs.Modules.{modules_of};
ghost use Rattle.yang_text.specs.Declarations.{Declaration};
ghost use Rattle.yang_types.specs.DataType.{DataType};
ghost use Rattle.yang_types.specs.Flattening.{flat};
ghost use Rattle.yang_types.specs.declared.types.Target.{Target};

/// A must has one truth in two configurations that agree on its entry and on the tables that it reads. The
/// models are those of files with which nothing is wrong, as `compile` makes them.
pub fn musts_have_one_truth()
    ensures { (files : List (List Declaration)) (readers : Readers) → faults readers files ≡ []
        → HasOneTruth (models_of stored (modules_of files) readers) }
{}

/// A type accepts and wants in a configuration the same in the form in which it is stored as it is written.
pub fn flat_types_want_the_same()
    ensures accepts { (models : ModelSet) (config : Config) (t : DataType) (s : List ℕ)
        → AcceptsIn models config (flat t) s ↔ AcceptsIn models config t s }
    ensures wants { (models : ModelSet) (config : Config) (t : DataType) (s : List ℕ) (r : Target)
        → IsWanted models config (flat t) s r ↔ IsWanted models config t s r }
{}

/// Models say the same of a configuration with their types in the form in which they are stored as with their
/// types as they are written: which texts satisfy a want, which wants there are, which rules are broken.
pub fn flat_models_say_the_same()
    ensures satisfied { (models : ModelSet) (config : Config) (r : Target) (s : List ℕ)
        → IsSatisfied (flat_models models) config r s ↔ IsSatisfied models config r s }
    ensures wants { (models : ModelSet) (config : Config) (place : WantPlace) (want : Want)
        → IsWantAt (flat_models models) config place want ↔ IsWantAt models config place want }
    ensures breaches { (models : ModelSet) (config : Config) (b : Breach)
        → IsBreach (flat_models models) config b ↔ IsBreach models config b }
    ensures valid { (models : ModelSet) (config : Config)
        → IsValid (flat_models models) config ↔ IsValid models config }
{}
