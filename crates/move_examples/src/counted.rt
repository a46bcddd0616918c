//! Boxes that count how often they are asked.
use conf_doc::Config;
use example_rows::{Fail, is_number, items_at};
use host_core::Memory;
use move_core::{Ctx, Generated, Move, MoveExt, MoveGen, MoveRule};
use serde_json::Value;
use std::alloc::Global;
use std::cell::Cell;
use std::rc::Rc;

/// How often each box of a kind was asked, in the order of their numbers.
pub type Counters = Vec<Rc<Cell<u64>>>;

/// How often each box was asked.
#[derive(Drop)]
pub struct Tally {
    pub generators: Counters,
    pub extenders: Counters,
    pub rules: Counters,
}

impl Tally {
    pub fn new(alloc: Global) -> Tally {
        Tally {
            generators: Vec::new(alloc),
            extenders: Vec::new(alloc),
            rules: Vec::new(alloc),
        }
    }

    /// Whether the boxes were asked as often as the row says.
    pub fn is_said(&self, row: &Value) -> Result<bool, Fail> {
        let generators = are_counts(&self.generators, items_at(row, "generators_asked")?);
        let extenders = are_counts(&self.extenders, items_at(row, "extenders_asked")?);
        let rules = are_counts(&self.rules, items_at(row, "rules_asked")?);
        Ok(generators && extenders && rules)
    }
}

/// Whether counters are at the numbers that are said.
fn are_counts(counters: &[Rc<Cell<u64>>], said: &[Value]) -> bool {
    for (counter, said) in counters.iter().zip(said) {
        if !is_number(said, counter.get()) {
            return false;
        }
    }
    counters.len() == said.len()
}

/// A box, and how often it was asked.
#[derive(Drop)]
pub struct Counted<B> {
    inner: B,
    asked: Rc<Cell<u64>>,
}

impl<B> Counted<B> {
    /// Counts a call.
    fn count(&self) {
        self.asked.set(self.asked.get().saturating_add(1));
    }
}

/// A box whose calls are counted behind those of the boxes before it.
pub fn counting_box<B: Drop>(
    alloc: Global,
    inner: B,
    counters: &mut Counters,
) -> Result<Box<Counted<B>>, Memory> {
    let asked = Rc::new(alloc, Cell::new(0))?;
    counters.push(asked.clone()?)?;
    Ok(Box::new(alloc, Counted { inner, asked })?)
}

impl<G: MoveGen> MoveGen for Counted<G> {
    ghost gen_kind = { λ s. G.gen_kind s.inner };

    fn kind(&self) -> u32 {
        self.inner.kind()
    }

    fn moves(
        &mut self,
        alloc: Global,
        ctx: &Ctx,
        cur: &Config,
        goal: &Config,
        out: &mut Vec<Generated>,
    ) -> Result<(), Memory> {
        self.count();
        self.inner.moves(alloc, ctx, cur, goal, out)
    }
}

impl<E: MoveExt> MoveExt for Counted<E> {
    ghost ext_kind = { λ s. E.ext_kind s.inner };

    fn kind(&self) -> u32 {
        self.inner.kind()
    }

    fn extend(
        &mut self,
        alloc: Global,
        ctx: &Ctx,
        cur: &Config,
        goal: &Config,
        mv: &Move,
        out: &mut Vec<Move>,
    ) -> Result<(), Memory> {
        self.count();
        self.inner.extend(alloc, ctx, cur, goal, mv, out)
    }
}

impl<R: MoveRule> MoveRule for Counted<R> {
    ghost rule_kind = { λ s. R.rule_kind s.inner };

    ghost fits = { λ s models. R.fits s.inner models };

    fn kind(&self) -> u32 {
        self.inner.kind()
    }

    fn begin(&mut self, ctx: &Ctx) {
        self.inner.begin(ctx);
    }

    fn allows(&mut self, ctx: &Ctx, cur: &Config, next: &Config, goal: &Config, mv: &Move) -> bool {
        self.count();
        self.inner.allows(ctx, cur, next, goal, mv)
    }
}
