//! Parts of a configuration: what a place may hold.
ghost use Rattle.std.specs.Prelude.{◌≡◌, ◌↔◌, IfOk, IsTrue};
ghost use Rattle.conf_doc.specs.Configuration.{part_tree};
ghost use Rattle.conf_doc.specs.PartOrder.{part_cmp};
ghost use Rattle.conf_doc.specs.Trees.{document};

use crate::writing::Written;
use crate::{Entry, Table, Tree, Value};
use host_core::Memory;
use std::alloc::Global;
use std::cmp::Ordering;

/// What a place of one, two or three names holds.
#[derive(Drop)]
pub enum Part {
    Table(Table),
    Entry(Entry),
    Value(Value),
}

impl Part {
    /// Whether the parts are the same.
    pub fn same(&self, other: &Part) -> bool
        ensures { IsTrue result ↔ (self.now ≡ other.now) }
    {
        match (self, other) {
            (Part::Table(left), Part::Table(right)) => left.same(right),
            (Part::Entry(left), Part::Entry(right)) => left.same(right),
            (Part::Value(left), Part::Value(right)) => left.same(right),
            _ => false,
        }
    }

    /// How the parts stand in the order of parts of one kind. It takes no memory.
    pub fn compare(&self, other: &Part) -> Ordering
        ensures { result ≡ part_cmp self.now other.now }
    {
        match (self, other) {
            (Part::Table(left), Part::Table(right)) => left.cmp(right),
            (Part::Table(_), Part::Entry(_)) => Ordering::Less,
            (Part::Table(_), Part::Value(_)) => Ordering::Less,
            (Part::Entry(_), Part::Table(_)) => Ordering::Greater,
            (Part::Entry(left), Part::Entry(right)) => left.cmp(right),
            (Part::Entry(_), Part::Value(_)) => Ordering::Less,
            (Part::Value(_), Part::Table(_)) => Ordering::Greater,
            (Part::Value(_), Part::Entry(_)) => Ordering::Greater,
            (Part::Value(left), Part::Value(right)) => left.cmp(right),
        }
    }

    /// The same part.
    pub fn copy(&self, alloc: Global) -> Result<Part, Memory>
        ensures { IfOk result (λ p. p ≡ self.now) }
    {
        match self {
            Part::Table(table) => match table.copy(alloc) {
                Ok(copy) => Ok(Part::Table(copy)),
                Err(_) => Err(Memory),
            },
            Part::Entry(entry) => match entry.copy(alloc) {
                Ok(copy) => Ok(Part::Entry(copy)),
                Err(_) => Err(Memory),
            },
            Part::Value(value) => match value.copy(alloc) {
                Ok(copy) => Ok(Part::Value(copy)),
                Err(_) => Err(Memory),
            },
        }
    }
}

/// The tree of a part.
pub fn part_tree(alloc: Global, part: &Part) -> Result<Tree, Memory>
    ensures { IfOk result (λ t. document t ≡ part_tree part.now) }
{
    match part {
        Part::Table(table) => table.tree(alloc),
        Part::Entry(entry) => entry.tree(alloc),
        Part::Value(value) => value.tree(alloc),
    }
}
