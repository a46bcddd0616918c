//! What holds of moves, their operations and their order.
ghost use Rattle.std.specs.Prelude.{◌≡◌, ◌↔◌, List, [], ◌∷◌, Ok};
ghost use Rattle.std.specs.Cmp.{IsTotalOrder};
ghost use Rattle.std.specs.FinMap.{IsAntisymmetric};
ghost use Rattle.conf_doc.specs.Configuration.{tree};
ghost use Rattle.conf_doc.specs.declared.configuration.Config.{Config};
ghost use Rattle.patch_core.specs.Apply.{apply_plain};
ghost use Rattle.move_core.specs.ListedOrder.{listed_cmp};
ghost use Rattle.conf_doc.specs.WellFormed.{IsConfig};
ghost use Rattle.move_core.specs.Contexts.{AgreeElsewhere, IsModelled, context, rulebook};
ghost use Rattle.move_core.specs.Listed.{Extends, IsGeneratedMove, IsListed};
ghost use Rattle.move_core.specs.Moves.{IsDefined, place, step};
ghost use Rattle.move_core.specs.Operations.{op};
ghost use Rattle.move_core.specs.Plans.{IsAllowed, IsReachable, IsWay};
ghost use Rattle.move_core.specs.Services.{table_of};
ghost use Rattle.move_core.specs.declared.contexts.Ctx.{Ctx};
ghost use Rattle.move_core.specs.declared.moves.Generated.{Generated};
ghost use Rattle.move_core.specs.declared.moves.Move.{Move};
ghost use Rattle.move_core.specs.declared.settings.Settings.{Settings};
ghost use Rattle.yang_model.specs.FlatModels.{flat_models};
ghost use Rattle.yang_model.specs.ModelSets.{ModelSet};

/// Where a move is defined, the patch of its operation makes the tree of its result.
pub fn move_is_its_operation()
    ensures { (c : Config) → (m : Move) → IsDefined c m
        → apply_plain (op m ∷ []) (tree c) ≡ Ok (tree (step c m)) }
{}

/// The order of the list of moves is total, and ties only the same move of the same rank.
pub fn listed_order_is_total()
    ensures total { IsTotalOrder listed_cmp }
    ensures tied { IsAntisymmetric listed_cmp }
{}

/// Each move that is generated or extended, and so each listed one, is defined at cur.
pub fn listed_moves_are_defined()
    ensures generated { (ctx : Ctx) (cur goal : Config) (g : Generated)
        → IsGeneratedMove (rulebook ctx) cur goal g → IsDefined cur g.mv }
    ensures extended { (ctx : Ctx) (cur goal : Config) (m x : Move) → IsConfig cur
        → Extends (rulebook ctx) cur goal m x → IsDefined cur m → IsDefined cur x }
    ensures listed { (ctx : Ctx) (cur goal : Config) (m : Move) → IsConfig cur
        → IsListed (rulebook ctx) cur goal m → IsDefined cur m }
{}

/// Where cur and goal agree on the tables without a model, no listed move has its place in such a table.
pub fn listed_moves_have_models()
    ensures { (ctx : Ctx) (cur goal : Config) (m : Move) → AgreeElsewhere ctx cur goal
        → IsListed (rulebook ctx) cur goal m → IsModelled ctx.models (table_of (place m)) }
{}

/// Moves, ways and what is reachable are the same by models with their types in the form in which they are stored
/// as by the models with their types as they are written.
pub fn flat_models_allow_the_same()
    ensures allowed { (models : ModelSet) (settings : Settings) (goal cur : Config) (m : Move)
        → IsAllowed (rulebook (context (flat_models models) settings)) goal cur m
        ↔ IsAllowed (rulebook (context models settings)) goal cur m }
    ensures ways { (models : ModelSet) (settings : Settings)
        (goal c : Config) (ms : List Move) (x : Config)
        → IsWay (rulebook (context (flat_models models) settings)) goal c ms x
        ↔ IsWay (rulebook (context models settings)) goal c ms x }
    ensures reachable { (models : ModelSet) (settings : Settings) (goal start x : Config)
        → IsReachable (rulebook (context (flat_models models) settings)) goal start x
        ↔ IsReachable (rulebook (context models settings)) goal start x }
{}
