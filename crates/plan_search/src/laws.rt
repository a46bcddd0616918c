//! What holds of searches and of first ways.
ghost use Rattle.plan_search.specs.ExactBudget.{BudgetIsExact};
ghost use Rattle.plan_search.specs.FirstLaws.{AheadByPositions, FirstIsLeast, FirstIsOne};
ghost use Rattle.plan_search.specs.FirstLaws.{LeastIsFirst, ListsAreThere, PositionsAreAhead};
ghost use Rattle.plan_search.specs.Searches.{SearchesAgree};

/// A context, start, goal and budget have one answer, wants of memory aside. So it doesn't depend on what
/// the boxes of a kit were asked before.
pub fn searches_have_one_answer()
    ensures { SearchesAgree }
{}

/// Each configuration has its list of moves, whatever the rules file and the models are: of each of finitely many
/// moves it can be told whether some chain ends with it, and which of these chains has the least rank.
pub fn lists_are_there()
    ensures { ListsAreThere }
{}

/// There is one first way by chains. It is the least by positions in the lists, and what is ahead of goal is
/// ahead by them.
pub fn first_ways_are_least()
    ensures one { FirstIsOne }
    ensures least { FirstIsLeast }
    ensures ahead { AheadByPositions }
{}

/// The other way round: the least way by positions is the first one, and what is ahead by positions is ahead of
/// goal. With the law above both sayings are one.
pub fn least_ways_are_first()
    ensures first { LeastIsFirst }
    ensures ahead { PositionsAreAhead }
{}

/// So which answer a search gives, memory aside, is settled by what can be reached and by what is ahead by
/// positions.
pub fn budget_is_exact()
    ensures { BudgetIsExact }
{}
