//! What holds of the set of listed moves and of the lists of the parts.
ghost use Rattle.conf_doc.specs.declared.configuration.Config.{Config};
ghost use Rattle.move_core.specs.Contexts.{rulebook};
ghost use Rattle.move_core.specs.declared.contexts.Ctx.{Ctx};
ghost use Rattle.move_lists.specs.Finite.{ListsAreOne, ListsExist, MovesAreFinite};
ghost use Rattle.move_lists.specs.Parts.{PartsMakeTheList};

/// The lists of the parts 1 to 7 one after another are the list of moves. The body does nothing: the law is
/// the contract.
pub fn parts_make_the_list()
    ensures { (ctx : Ctx) (start cur goal : Config)
        → PartsMakeTheList (rulebook ctx) start cur goal }
{}

/// The listed moves are finitely many, at each configuration and for each goal.
pub fn moves_are_finite()
    ensures { MovesAreFinite }
{}

/// So they can't fail to have a list, each once, in order. Which list it is isn't told.
pub fn lists_exist()
    ensures { ListsExist }
{}

/// And there is one: two lists of the same moves, each once, in order, are the same.
pub fn lists_are_one()
    ensures { ListsAreOne }
{}
