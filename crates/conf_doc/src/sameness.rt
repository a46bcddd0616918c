//! Whether two configurations, or parts of them, are the same: in one pass, lengths first, with no memory.
ghost use Rattle.std.specs.Prelude.{◌≡◌, ◌↔◌, ◌≤◌, length, map, IsTrue};
ghost use Rattle.conf_doc.specs.Runs.{IsRun};
ghost use Rattle.conf_doc.specs.WellFormed.{IsTable};

use crate::sorted::Sorted;
use crate::{Config, Entry, Table, Value};
use host_core::{Names, Txt};

/// Values of which can be said that they are the same.
pub(crate) trait Same {
    fn is_same(&self, other: &Self) -> bool
        ensures { IsTrue result ↔ (self.now ≡ other.now) };
}

impl Config {
    /// Whether the configurations are the same.
    pub fn same(&self, other: &Config) -> bool
        ensures { IsTrue result ↔ (self.now ≡ other.now) }
    {
        same_parts(&self.tables, &other.tables)
    }
}

impl Table {
    /// Whether the tables are the same.
    pub fn same(&self, other: &Table) -> bool
        ensures { IsTrue result ↔ (self.now ≡ other.now) }
    {
        self.entries.same(&other.entries)
    }

    /// How many entries, with their keys, two tables have alike, each from an index on.
    pub fn count_same(&self, i: usize, other: &Table, j: usize) -> usize
        requires first { i ≤ length self.now }
        requires second { j ≤ length other.now }
        ensures run { IsRun self.now i other.now j result }
        ensures formed { IsTable self.now }
        ensures other_formed { IsTable other.now }
    {
        self.entries.count_same(i, &other.entries, j)
    }

    /// How many keys two tables have alike, each from an index on.
    pub fn count_same_keys(&self, i: usize, other: &Table, j: usize) -> usize
        requires first { i ≤ length self.now }
        requires second { j ≤ length other.now }
        ensures run { IsRun (map (λ e. e.0) self.now) i (map (λ e. e.0) other.now) j result }
        ensures formed { IsTable self.now }
        ensures other_formed { IsTable other.now }
    {
        self.entries.count_same_keys(i, &other.entries, j)
    }
}

impl Entry {
    /// Whether the entries are the same.
    pub fn same(&self, other: &Entry) -> bool
        ensures { IsTrue result ↔ (self.now ≡ other.now) }
    {
        same_parts(&self.fields, &other.fields)
    }
}

impl Value {
    /// Whether the values are the same.
    pub fn same(&self, other: &Value) -> bool
        ensures { IsTrue result ↔ (self.now ≡ other.now) }
    {
        match (self, other) {
            (Value::Text(left), Value::Text(right)) => left.as_str() == right.as_str(),
            (Value::List(left), Value::List(right)) => same_texts(left, right),
            _ => false,
        }
    }
}

impl Same for Table {
    fn is_same(&self, other: &Table) -> bool {
        self.same(other)
    }
}

impl Same for Entry {
    fn is_same(&self, other: &Entry) -> bool {
        self.same(other)
    }
}

impl Same for Value {
    fn is_same(&self, other: &Value) -> bool {
        self.same(other)
    }
}

fn same_parts<X: Same>(left: &Sorted<X>, right: &Sorted<X>) -> bool
    ensures { IsTrue result ↔ (left.now ≡ right.now) }
{
    if left.len() != right.len() {
        return false;
    }
    for i in 0..left.len() {
        if !same_pair(left.pair_at(i), right.pair_at(i)) {
            return false;
        }
    }
    true
}

/// Whether the names and the parts are the same.
pub(crate) fn same_pair<X: Same>(left: &(Txt, X), right: &(Txt, X)) -> bool
    ensures { IsTrue result ↔ (left.now ≡ right.now) }
{
    left.0.as_str() == right.0.as_str() && left.1.is_same(&right.1)
}

fn same_texts(left: &Names, right: &Names) -> bool
    ensures { IsTrue result ↔ (left.now ≡ right.now) }
{
    if left.len() != right.len() {
        return false;
    }
    for i in 0..left.len() {
        if left.at(i).as_str() != right.at(i).as_str() {
            return false;
        }
    }
    true
}
