//! What an expression says of nodes, by a walk that takes no memory and stops at the first node that
//! decides.
ghost use Rattle.std.specs.Prelude.{◌≡◌, ◌<◌, [], ◌∷◌, length, map, min, Some, IfSome, IsTrue, slice_get};
ghost use Rattle.std.specs.List.{list_any};
ghost use Rattle.xpath_part.specs.Detours.{ComesBack, ComeBack, IsDetour};
ghost use Rattle.xpath_part.specs.Expression.{predicates_of};
ghost use Rattle.xpath_part.specs.Expressions.{expression, term_of, path_of};
ghost use Rattle.xpath_part.specs.Sought.{how_many, is_sought, relates, IsSoughtAtNodes, walk_of, found_below};
ghost use Rattle.xpath_part.specs.Truth.{truth, value, term_value, texts, some_pair, selected, passes, compare_numbers};

use crate::detours::{Detour, split_detour};
use crate::nodes::{ITEM, LEAF};
use crate::sought::{Relation, Sought};
use crate::{Cmp, Expr, Node, Nodes, Operand, Origin, Step, Walk};

/// Whether an expression is true at a context node, which is also what `current()` means. Takes no
/// memory.
pub fn holds<N: Nodes>(expr: &Expr, nodes: &N, context: Node) -> bool
    requires { N.is_node nodes.now context }
    ensures { result ≡ truth (N.tree nodes.now) (expression expr.now) context }
{
    judge(expr, nodes, context, context)
}

/// The value of an expression. `or` and `and` group to the left, so the walk goes down there in a loop.
#[cycle(truth)]
fn judge<N: Nodes>(expr: &Expr, nodes: &N, current: Node, context: Node) -> bool
    requires current { N.is_node nodes.now current }
    requires context { N.is_node nodes.now context }
    ensures { result ≡ value (N.tree nodes.now) current (expression expr.now) context }
{
    let mut at = expr;
    loop {
        match at {
            Expr::Or(left, right) => {
                if judge(right.expr(), nodes, current, context) {
                    return true;
                }
                at = left.expr();
            }
            Expr::And(left, right) => {
                if !judge(right.expr(), nodes, current, context) {
                    return false;
                }
                at = left.expr();
            }
            Expr::Not(inner) => return !judge(inner.expr(), nodes, current, context),
            Expr::Alone(operand) => return stands(operand, nodes, current, context),
            Expr::Equal(left, right) => {
                return compare(left, right, Relation::Same, nodes, current, context);
            }
            Expr::Differ(left, right) => {
                return compare(left, right, Relation::Different, nodes, current, context);
            }
            Expr::Count(path, cmp, n) => {
                let limit = *n as usize + 1;
                let count = count_selected(path, nodes, current, context, Sought::Any, limit);
                return compare_count(*cmp, count, *n as usize);
            }
        }
    }
}

/// Whether a path selects a node, or a literal isn't empty.
#[cycle(truth)]
fn stands<N: Nodes>(operand: &Operand, nodes: &N, current: Node, context: Node) -> bool
    requires current { N.is_node nodes.now current }
    requires context { N.is_node nodes.now context }
    ensures { result ≡ term_value (N.tree nodes.now) current (term_of operand.now) context }
{
    match operand {
        Operand::Literal(text) => !text.as_str().is_empty(),
        Operand::Walk(path) => count_selected(path, nodes, current, context, Sought::Any, 1) > 0,
    }
}

/// Whether a number is so to another one.
fn compare_count(cmp: Cmp, count: usize, n: usize) -> bool
    ensures { result ≡ compare_numbers cmp count n }
{
    match cmp {
        Cmp::Equal => count == n,
        Cmp::Differ => count != n,
        Cmp::Less => count < n,
        Cmp::AtMost => count <= n,
        Cmp::More => count > n,
        Cmp::AtLeast => count >= n,
    }
}

/// Whether some text of the left side and some text of the right side stand in the relation.
#[cycle(truth)]
fn compare<N: Nodes>(
    left: &Operand,
    right: &Operand,
    relation: Relation,
    nodes: &N,
    current: Node,
    context: Node,
) -> bool
    requires current { N.is_node nodes.now current }
    requires context { N.is_node nodes.now context }
    ensures { let tree = N.tree nodes.now in
        result ≡ some_pair (relates relation)
        (texts tree current (term_of left.now) context)
        (texts tree current (term_of right.now) context) }
{
    match left {
        Operand::Literal(text) => {
            compare_text(text.as_str(), right, relation, nodes, current, context)
        }
        Operand::Walk(path) => {
            let sought = Sought::Against(relation, right, context);
            count_selected(path, nodes, current, context, sought, 1) > 0
        }
    }
}

/// Whether a text and some text of the right side stand in the relation.
#[cycle(truth)]
fn compare_text<N: Nodes>(
    text: &str,
    right: &Operand,
    relation: Relation,
    nodes: &N,
    current: Node,
    context: Node,
) -> bool
    requires current { N.is_node nodes.now current }
    requires context { N.is_node nodes.now context }
    ensures { result ≡ list_any (relates relation text.now)
        (texts (N.tree nodes.now) current (term_of right.now) context) }
{
    match right {
        Operand::Literal(other) => relation.relates(text, other.as_str()),
        Operand::Walk(path) => {
            let sought = Sought::Text(relation, text);
            count_selected(path, nodes, current, context, sought, 1) > 0
        }
    }
}

/// How many of the nodes that a path selects are sought, counted up to a limit.
#[cycle(truth)]
fn count_selected<N: Nodes>(
    path: &Walk,
    nodes: &N,
    current: Node,
    context: Node,
    sought: Sought,
    limit: usize,
) -> usize
    requires current { N.is_node nodes.now current }
    requires context { N.is_node nodes.now context }
    requires sought { IsSoughtAtNodes (N.is_node nodes.now) sought }
    requires limit { 0 < limit }
    ensures { let tree = N.tree nodes.now in
        result ≡ min limit (how_many (is_sought tree current sought.entry)
        (selected tree current (path_of path.now) context)) }
{
    let at = match path.origin {
        Origin::Root => nodes.root(),
        Origin::Context => context,
        Origin::Current => current,
    };
    count_along(path.steps.items(), nodes, current, at, sought, limit)
}

/// The same of the nodes to which steps lead from a node. The walk goes on in a loop where a step leads to
/// one node at most, and where one node is counted and steps come back to it.
#[cycle(truth)]
fn count_along<N: Nodes>(
    steps: &[Step],
    nodes: &N,
    current: Node,
    at: Node,
    sought: Sought,
    limit: usize,
) -> usize
    requires current { N.is_node nodes.now current }
    requires at { N.is_node nodes.now at }
    requires sought { IsSoughtAtNodes (N.is_node nodes.now) sought }
    requires limit { 0 < limit }
    ensures { let tree = N.tree nodes.now in
        result ≡ min limit (how_many (is_sought tree current sought.entry)
        (walk_of tree current steps.now at)) }
{
    let mut here = at;
    let mut ahead = steps;
    while let Some((step, rest)) = ahead.split_first() {
        ahead = rest;
        match step {
            Step::Up => {
                if here == nodes.root() {
                    return 0;
                }
                here = nodes.parent(here);
            }
            Step::Stay => {}
            Step::Child { name, tests, .. } => {
                let name = name.as_str();
                let tests = tests.items();
                match detour(limit, name, tests, rest, nodes, current, here) {
                    Detour::Back(tail) => ahead = tail,
                    Detour::Nowhere => return 0,
                    Detour::Unknown => {
                        return count_below(name, tests, rest, nodes, current, here, sought, limit);
                    }
                }
            }
        }
    }
    count_node(nodes, current, here, sought)
}

/// What comes of steps from those children of a node that have a name and pass tests, where one node is
/// counted.
#[cycle(truth)]
fn detour<'s, N: Nodes>(
    limit: usize,
    name: &str,
    tests: &[Expr],
    steps: &'s [Step],
    nodes: &N,
    current: Node,
    at: Node,
) -> Detour<'s>
    requires current { N.is_node nodes.now current }
    requires at { N.is_node nodes.now at }
    ensures { let tree = N.tree nodes.now in IsDetour tree current limit tests.now steps.now
        (tree.children at name.now) at result }
{
    if limit != 1 {
        return Detour::Unknown;
    }
    match split_detour(steps) {
        None => Detour::Unknown,
        Some((inner, tail)) => match come_back(name, tests, inner, nodes, current, at) {
            Some(true) => Detour::Back(tail),
            Some(false) => Detour::Nowhere,
            None => Detour::Unknown,
        },
    }
}

/// Whether some of those children of a node that have a name and pass tests come back to it by steps and
/// one up. None where one of them may lead elsewhere.
#[cycle(truth)]
fn come_back<N: Nodes>(
    name: &str,
    tests: &[Expr],
    steps: &[Step],
    nodes: &N,
    current: Node,
    at: Node,
) -> Option<bool>
    requires current { N.is_node nodes.now current }
    requires at { N.is_node nodes.now at }
    ensures { let tree = N.tree nodes.now in
        IfSome result (ComeBack tree current tests.now steps.now (tree.children at name.now) at) }
{
    let mut some = false;
    let mut i = 0;
    let mut next = nodes.first(at, name);
    while let Some(child) = next {
        let back = child_comes_back(child, tests, steps, nodes, current, at)?;
        some |= back;
        next = nodes.next(at, name, i, child);
        i += 1;
    }
    Some(some)
}

/// The same of a child.
#[cycle(truth)]
fn child_comes_back<N: Nodes>(
    child: Node,
    tests: &[Expr],
    steps: &[Step],
    nodes: &N,
    current: Node,
    at: Node,
) -> Option<bool>
    requires current { N.is_node nodes.now current }
    requires child { N.is_node nodes.now child }
    ensures { IfSome result
        (ComeBack (N.tree nodes.now) current tests.now steps.now (child ∷ []) at) }
{
    if !pass(tests, nodes, current, child) {
        return Some(false);
    }
    match comes_back(steps, nodes, current, child) {
        Some(true) => {
            if is_child(child, nodes, at) {
                Some(true)
            } else {
                None
            }
        }
        Some(false) => Some(false),
        None => None,
    }
}

/// Whether a node is below another one.
fn is_child<N: Nodes>(child: Node, nodes: &N, at: Node) -> bool
    requires { N.is_node nodes.now child }
    ensures { IsTrue result → (N.tree nodes.now).parent child ≡ Some at }
{
    child != nodes.root() && nodes.parent(child) == at
}

/// Whether steps lead from a node to itself. None where they may lead elsewhere.
#[cycle(truth)]
fn comes_back<N: Nodes>(steps: &[Step], nodes: &N, current: Node, at: Node) -> Option<bool>
    requires current { N.is_node nodes.now current }
    requires at { N.is_node nodes.now at }
    ensures { IfSome result (ComesBack (N.tree nodes.now) current steps.now at) }
{
    let mut ahead = steps;
    while let Some((step, rest)) = ahead.split_first() {
        ahead = rest;
        match step {
            Step::Up => return None,
            Step::Stay => {}
            Step::Child { name, tests, .. } => {
                match detour(1, name.as_str(), tests.items(), rest, nodes, current, at) {
                    Detour::Back(tail) => ahead = tail,
                    Detour::Nowhere => return Some(false),
                    Detour::Unknown => return None,
                }
            }
        }
    }
    Some(true)
}

/// The same of the nodes to which steps lead from those children of a node that have a name and pass
/// tests.
#[cycle(truth)]
fn count_below<N: Nodes>(
    name: &str,
    tests: &[Expr],
    rest: &[Step],
    nodes: &N,
    current: Node,
    at: Node,
    sought: Sought,
    limit: usize,
) -> usize
    requires current { N.is_node nodes.now current }
    requires at { N.is_node nodes.now at }
    requires sought { IsSoughtAtNodes (N.is_node nodes.now) sought }
    requires limit { 0 < limit }
    ensures { let tree = N.tree nodes.now in
        result ≡ min limit (found_below tree current sought.entry tests.now rest.now
        (tree.children at name.now)) }
{
    let mut found = 0;
    let mut i = 0;
    let mut next = nodes.first(at, name);
    while let Some(child) = next {
        found += count_child(child, tests, rest, nodes, current, sought, limit - found);
        if found == limit {
            return found;
        }
        next = nodes.next(at, name, i, child);
        i += 1;
    }
    found
}

/// The same of the nodes to which steps lead from a child, if it passes tests.
#[cycle(truth)]
fn count_child<N: Nodes>(
    child: Node,
    tests: &[Expr],
    rest: &[Step],
    nodes: &N,
    current: Node,
    sought: Sought,
    limit: usize,
) -> usize
    requires current { N.is_node nodes.now current }
    requires at { N.is_node nodes.now child }
    requires sought { IsSoughtAtNodes (N.is_node nodes.now) sought }
    requires limit { 0 < limit }
    ensures { result ≡ min limit
        (found_below (N.tree nodes.now) current sought.entry tests.now rest.now (child ∷ [])) }
{
    if pass(tests, nodes, current, child) {
        count_along(rest, nodes, current, child, sought, limit)
    } else {
        0
    }
}

/// Whether each test is true at a node.
#[cycle(truth)]
fn pass<N: Nodes>(tests: &[Expr], nodes: &N, current: Node, at: Node) -> bool
    requires current { N.is_node nodes.now current }
    requires at { N.is_node nodes.now at }
    ensures { result
        ≡ passes (N.tree nodes.now) current (predicates_of (map expression tests.now)) at }
{
    for test in tests {
        if !judge(test, nodes, current, at) {
            return false;
        }
    }
    true
}

/// 1 for a node that is sought, else 0.
#[cycle(truth)]
fn count_node<N: Nodes>(nodes: &N, current: Node, at: Node, sought: Sought) -> usize
    requires current { N.is_node nodes.now current }
    requires at { N.is_node nodes.now at }
    requires sought { IsSoughtAtNodes (N.is_node nodes.now) sought }
    ensures { result ≡ how_many (is_sought (N.tree nodes.now) current sought.entry) (at ∷ []) }
{
    let has_text = at.level == LEAF || at.level == ITEM;
    let is_sought = match sought {
        Sought::Any => true,
        Sought::Text(relation, text) => has_text && relation.relates(text, nodes.text(at)),
        Sought::Against(relation, operand, context) => {
            has_text && compare_text(nodes.text(at), operand, relation, nodes, current, context)
        }
    };
    is_sought as usize
}
