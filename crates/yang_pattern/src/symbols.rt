//! What a pattern is made of: symbols, quantifiers and tokens.

ghost use Rattle.std.specs.Prelude.{◌≡◌, IfOk};
ghost use Rattle.yang_pattern.specs.Symbols.{accepts, in_ranges};
ghost use Rattle.yang_pattern.specs.Merged.{IsMerged};

use regex_class::{Class, ClassRange};
use std::alloc::AllocError;
use std::marker::Model;

/// A set of characters: those in one of the ranges, or if `negated` those in none.
#[derive(Drop)]
pub struct Symbol {
    negated: bool,
    ranges: Vec<ClassRange>,
    /// The ranges in order, where there are several: those that touch are one.
    merged: Option<Class>,
}

impl Model for Symbol {
    ghost use Rattle.std.specs.Prelude.{Bool, List, ℕ};

    ghost Value = { Bool × List (ℕ × ℕ) };

    ghost use Rattle.yang_pattern.specs.Merged.{IsMerged};

    ghost view = { λ s. (s.negated, s.ranges.items) };

    ghost invariant = { λ s. IsMerged s.ranges.items s.merged };
}

/// The ranges in order, where there are several.
fn merge(ranges: &Vec<ClassRange>) -> Result<Option<Class>, AllocError>
    ensures { IfOk result (IsMerged ranges.now.items) }
{
    if ranges.len() <= 1 {
        return Ok(None);
    }
    Ok(Some(Class::from_ranges(*ranges.allocator(), ranges)?))
}

impl Symbol {
    pub fn new(negated: bool, ranges: Vec<ClassRange>) -> Result<Symbol, AllocError>
        ensures { IfOk result (λ symbol. symbol ≡ (negated, ranges.items)) }
    {
        let merged = merge(&ranges)?;
        Ok(Symbol {
            negated,
            ranges,
            merged,
        })
    }

    /// Whether one of the ranges has the character: several are searched by halves.
    fn has(&self, c: char) -> bool
        ensures { result ≡ in_ranges self.now.1 c }
    {
        match &self.merged {
            None => in_ranges(&self.ranges, c),
            Some(merged) => merged.contains(c as u32),
        }
    }

    pub fn accepts(&self, c: char) -> bool
        ensures { result ≡ accepts self.now c }
    {
        let found = self.has(c);
        if self.negated { !found } else { found }
    }
}

fn in_ranges(ranges: &[ClassRange], c: char) -> bool
    ensures { result ≡ in_ranges ranges.now c }
{
    ranges
        .iter()
        .any(|range| range.0 <= c as u32 && c as u32 <= range.1)
}

/// How often an atom may stand in a row.
#[derive(Clone, Copy)]
pub enum Quantifier {
    /// `+`
    OneOrMore,
    /// `*` and `{n,}`
    AtLeast(u8),
    /// `?`, `{n}` and `{n,m}`: from `least` to `least + more` times.
    Between { least: u8, more: u8 },
}

/// A word of a pattern.
#[derive(Drop)]
pub enum Token {
    /// `(`
    Open,
    /// `)`
    Close,
    /// `|`
    Bar,
    Times(Quantifier),
    Symbol(Symbol),
}
