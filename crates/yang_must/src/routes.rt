//! The paths of an expression, followed in the models.
ghost use Rattle.std.specs.Prelude.{◌≡◌, ◌||◌, not, false, [], ◌∷◌, ◌++◌, map, option_map, is_none, OnOk};
ghost use Rattle.std.specs.List.{flat_map};
ghost use Rattle.std.specs.Option.{option_map_or};
ghost use Rattle.xpath_part.specs.Expression.{strides_of, predicates_of};
ghost use Rattle.xpath_part.specs.Expressions.{expression, term_of, path_of, step_of};
ghost use Rattle.yang_must.specs.Findings.{Finds, Gains};
ghost use Rattle.yang_must.specs.Routes.{route, end_of, spots_along, may_end_at, table_at, routes, term_routes, path_routes, inner_routes, step_routes, test_routes};
ghost use Rattle.yang_must.specs.declared.aims.Aim.TheVariants.{Texts};
ghost use Rattle.yang_must.specs.SpotRefs.{spot_at};

use crate::aims::Aim;
use crate::findings::Findings;
use crate::model_tree::ModelTree;
use crate::name_sets::NameSet;
use crate::spots::SpotRef;
use host_core::Memory;
use std::alloc::Global;
use xpath_part::{Expr, Operand, Step, Walk};

/// What the paths of a must are resolved by.
#[derive(Clone, Copy)]
pub(crate) struct Resolver<'t, 'a> {
    pub(crate) tree: &'t ModelTree<'a>,
    /// The number of the must's module.
    pub(crate) number: usize,
    /// The spot of the must, which is what `current()` means.
    pub(crate) current: &'t SpotRef<'t, 'a>,
}

impl<'t, 'a> Resolver<'t, 'a> {
    /// The spot at the end of steps.
    fn end_of(&self, origin: SpotRef<'t, 'a>, steps: &[Step]) -> Option<SpotRef<'t, 'a>>
        ensures { option_map spot_at result ≡ end_of self.now.tree.now self.now.number
            (strides_of (map step_of steps.now)) (spot_at origin.entry) }
    {
        let mut spot = origin;
        for step in steps {
            match spot.after(self.tree, self.number, step) {
                Some(next) => spot = next,
                None => return None,
            }
        }
        Some(spot)
    }

    /// Adds the tables on whose containers steps stand.
    fn add_tables(
        &self,
        alloc: Global,
        reads: &mut NameSet,
        origin: SpotRef<'t, 'a>,
        steps: &[Step],
    ) -> Result<(), Memory>
        ensures { OnOk result (Gains reads.old.names reads.new.names
            (flat_map table_at (spots_along self.now.tree.now self.now.number
            (strides_of (map step_of steps.now)) (spot_at origin.entry)))) }
    {
        let mut spot = origin;
        for step in steps {
            match spot.after(self.tree, self.number, step) {
                Some(next) => {
                    add_table(alloc, reads, &next)?;
                    spot = next;
                }
                None => return Ok(()),
            }
        }
        Ok(())
    }

    /// What is found by following a path alone, without those in its predicates.
    fn note_route(
        &self,
        alloc: Global,
        findings: &mut Findings,
        aim: Aim,
        origin: SpotRef<'t, 'a>,
        steps: &[Step],
    ) -> Result<(), Memory>
        ensures { OnOk result (Finds self.now.tree.now self.now.number findings.old findings.new
            (route aim (spot_at origin.entry) (strides_of (map step_of steps.now)) ∷ [])) }
    {
        self.add_tables(alloc, &mut findings.reads, origin, steps)?;
        note_end(findings, aim, &self.end_of(origin, steps));
        Ok(())
    }

    /// What is found in an expression at a context. `or` and `and` group to the left, so the walk goes
    /// down there in a loop.
    #[cycle(routes)]
    pub(crate) fn note_expression(
        &self,
        alloc: Global,
        findings: &mut Findings,
        context: &SpotRef<'t, 'a>,
        expr: &Expr,
    ) -> Result<(), Memory>
        ensures { OnOk result (Finds self.now.tree.now self.now.number findings.old findings.new
            (routes self.now.tree.now self.now.number (spot_at self.now.current.now)
            (expression expr.now) (spot_at context.now))) }
    {
        let mut at = expr;
        loop {
            match at {
                Expr::Or(left, right) => {
                    self.note_expression(alloc, findings, context, right.expr())?;
                    at = left.expr();
                }
                Expr::And(left, right) => {
                    self.note_expression(alloc, findings, context, right.expr())?;
                    at = left.expr();
                }
                Expr::Not(inner) => at = inner.expr(),
                Expr::Alone(operand) => {
                    return self.note_operand(alloc, findings, Aim::Nodes, context, operand);
                }
                Expr::Equal(left, right) => {
                    return self.note_sides(alloc, findings, context, left, right);
                }
                Expr::Differ(left, right) => {
                    return self.note_sides(alloc, findings, context, left, right);
                }
                Expr::Count(path, _, _) => {
                    return self.note_path(alloc, findings, Aim::Nodes, context, path);
                }
            }
        }
    }

    /// What is found on the two sides of a comparison.
    #[cycle(routes)]
    fn note_sides(
        &self,
        alloc: Global,
        findings: &mut Findings,
        context: &SpotRef<'t, 'a>,
        left: &Operand,
        right: &Operand,
    ) -> Result<(), Memory>
        ensures { OnOk result (Finds self.now.tree.now self.now.number findings.old findings.new
            (term_routes self.now.tree.now self.now.number (spot_at self.now.current.now) Texts
            (term_of left.now) (spot_at context.now)
            ++ term_routes self.now.tree.now self.now.number (spot_at self.now.current.now) Texts
            (term_of right.now) (spot_at context.now))) }
    {
        self.note_operand(alloc, findings, Aim::Texts, context, left)?;
        self.note_operand(alloc, findings, Aim::Texts, context, right)
    }

    /// What is found in what stands alone or on a side.
    #[cycle(routes)]
    fn note_operand(
        &self,
        alloc: Global,
        findings: &mut Findings,
        aim: Aim,
        context: &SpotRef<'t, 'a>,
        operand: &Operand,
    ) -> Result<(), Memory>
        ensures { OnOk result (Finds self.now.tree.now self.now.number findings.old findings.new
            (term_routes self.now.tree.now self.now.number (spot_at self.now.current.now) aim
            (term_of operand.now) (spot_at context.now))) }
    {
        match operand {
            Operand::Walk(path) => self.note_path(alloc, findings, aim, context, path),
            Operand::Literal(_) => Ok(()),
        }
    }

    /// What is found by following a path and those in its predicates.
    #[cycle(routes)]
    fn note_path(
        &self,
        alloc: Global,
        findings: &mut Findings,
        aim: Aim,
        context: &SpotRef<'t, 'a>,
        path: &Walk,
    ) -> Result<(), Memory>
        ensures { OnOk result (Finds self.now.tree.now self.now.number findings.old findings.new
            (path_routes self.now.tree.now self.now.number (spot_at self.now.current.now) aim
            (path_of path.now) (spot_at context.now))) }
    {
        let origin = context.start(path.origin, *self.current);
        let steps = path.steps.items();
        self.note_route(alloc, findings, aim, origin, steps)?;
        self.note_inner(alloc, findings, origin, steps)
    }

    /// What is found in the predicates of steps.
    #[cycle(routes)]
    fn note_inner(
        &self,
        alloc: Global,
        findings: &mut Findings,
        origin: SpotRef<'t, 'a>,
        steps: &[Step],
    ) -> Result<(), Memory>
        ensures { OnOk result (Finds self.now.tree.now self.now.number findings.old findings.new
            (inner_routes self.now.tree.now self.now.number (spot_at self.now.current.now)
            (strides_of (map step_of steps.now)) (spot_at origin.entry))) }
    {
        let mut spot = origin;
        for step in steps {
            match spot.after(self.tree, self.number, step) {
                Some(next) => {
                    self.note_step(alloc, findings, next, step)?;
                    spot = next;
                }
                None => return Ok(()),
            }
        }
        Ok(())
    }

    /// What is found in the predicates of a step that leads to a spot.
    #[cycle(routes)]
    fn note_step(
        &self,
        alloc: Global,
        findings: &mut Findings,
        spot: SpotRef<'t, 'a>,
        step: &Step,
    ) -> Result<(), Memory>
        ensures { OnOk result (Finds self.now.tree.now self.now.number findings.old findings.new
            (step_routes self.now.tree.now self.now.number (spot_at self.now.current.now)
            (step_of step.now) (spot_at spot.entry))) }
    {
        match step {
            Step::Up => Ok(()),
            Step::Stay => Ok(()),
            Step::Child { tests, .. } => self.note_tests(alloc, findings, &spot, tests.items()),
        }
    }

    /// What is found in predicates that filter the nodes of a spot.
    #[cycle(routes)]
    fn note_tests(
        &self,
        alloc: Global,
        findings: &mut Findings,
        spot: &SpotRef<'t, 'a>,
        tests: &[Expr],
    ) -> Result<(), Memory>
        ensures { OnOk result (Finds self.now.tree.now self.now.number findings.old findings.new
            (test_routes self.now.tree.now self.now.number (spot_at self.now.current.now)
            (predicates_of (map expression tests.now)) (spot_at spot.now))) }
    {
        for test in tests {
            self.note_expression(alloc, findings, spot, test)?;
        }
        Ok(())
    }
}

/// Adds the name of a table, where a spot is its container.
fn add_table(alloc: Global, reads: &mut NameSet, spot: &SpotRef) -> Result<(), Memory>
    ensures { OnOk result (Gains reads.old.names reads.new.names (table_at (spot_at spot.now))) }
{
    match spot.table() {
        Some(name) => reads.add(alloc, name.as_str()),
        None => Ok(()),
    }
}

/// What is found at the end of a path, which is None where a step names nothing.
fn note_end(findings: &mut Findings, aim: Aim, end: &Option<SpotRef>)
    ensures unknown { findings.new.unknown
        ≡ (findings.old.unknown || is_none (option_map spot_at end.now)) }
    ensures misplaced { findings.new.misplaced ≡ (findings.old.misplaced
        || option_map_or (λ spot. not (may_end_at aim spot)) (option_map spot_at end.now) false) }
    ensures reads { findings.new.reads.names ≡ findings.old.reads.names }
{
    match end {
        Some(spot) => {
            if !spot.may_end(aim) {
                findings.misplaced = true;
            }
        }
        None => findings.unknown = true,
    }
}
