//! The items between the brackets of a class, letter by letter.

ghost use Rattle.std.specs.Prelude.{◌≡◌, IfOk, false, []};
ghost use Rattle.yang_pattern.specs.declared.classes.Item.TheVariants.{Start};
ghost use Rattle.yang_pattern.specs.Classes.{class_caret, class_dash, class_bound, class_with, class_close};

use crate::letters::Letter;
use crate::symbols::Symbol;
use regex_class::ClassRange;
use std::alloc::{AllocError, Global};
use std::marker::Model;

/// The number of `-`.
const HYPHEN: u32 = '-' as u32;

/// What stands at the end of an open class.
#[derive(Clone, Copy)]
enum Item {
    /// The bracket.
    Start,
    /// The bracket and `^`.
    Negated,
    /// A whole item.
    Done,
    /// A character, which may begin a range.
    Bound(char),
    /// A character and `-`.
    Range(char),
    /// A `-` that has to be the last.
    Dash,
}

/// A class of which the closing bracket isn't read.
#[derive(Drop)]
pub struct OpenClass {
    negated: bool,
    ranges: Vec<ClassRange>,
    item: Item,
}

impl Model for OpenClass {
    ghost use Rattle.std.specs.Prelude.{Bool, List, ℕ};
    ghost use Rattle.yang_pattern.specs.declared.classes.Item.{Item};

    ghost Value = { Bool × List (ℕ × ℕ) × Item };

    ghost view = { λ k. (k.negated, k.ranges.items, k.item) };
}

impl OpenClass {
    pub fn new(alloc: Global) -> OpenClass
        ensures { result ≡ (false, [], Start) }
    {
        OpenClass {
            negated: false,
            ranges: Vec::new(alloc),
            item: Item::Start,
        }
    }

    /// A `-` without backslash. None where it can't stand here.
    fn dash(self) -> Result<Option<OpenClass>, AllocError>
        ensures { IfOk result (λ found. found ≡ class_dash self) }
    {
        let mut ranges = self.ranges;
        let item = match self.item {
            Item::Start | Item::Negated => {
                ranges.push((HYPHEN, HYPHEN))?;
                Item::Done
            }
            Item::Done => Item::Dash,
            Item::Bound(low) => Item::Range(low),
            Item::Range(_) | Item::Dash => return Ok(None),
        };
        Ok(Some(OpenClass {
            negated: self.negated,
            ranges,
            item,
        }))
    }

    /// A character that may be a bound of a range. None where it can't stand here.
    fn bound(self, c: char) -> Result<Option<OpenClass>, AllocError>
        ensures { IfOk result (λ found. found ≡ class_bound self c) }
    {
        let mut ranges = self.ranges;
        let item = match self.item {
            Item::Start | Item::Negated | Item::Done => Item::Bound(c),
            Item::Bound(before) => {
                ranges.push((before as u32, before as u32))?;
                Item::Bound(c)
            }
            Item::Range(low) => {
                if low > c {
                    return Ok(None);
                }
                ranges.push((low as u32, c as u32))?;
                Item::Done
            }
            Item::Dash => return Ok(None),
        };
        Ok(Some(OpenClass {
            negated: self.negated,
            ranges,
            item,
        }))
    }

    /// A `^` without backslash: a negation where it is the first, and else a character.
    fn caret(self) -> Result<Option<OpenClass>, AllocError>
        ensures { IfOk result (λ found. found ≡ class_caret self) }
    {
        match self.item {
            Item::Start => Ok(Some(OpenClass {
                negated: true,
                ranges: self.ranges,
                item: Item::Negated,
            })),
            _ => self.bound('^'),
        }
    }

    /// A letter other than the closing bracket. None where it can't stand here.
    pub fn with(self, letter: Letter) -> Result<Option<OpenClass>, AllocError>
        ensures { IfOk result (λ found. found ≡ class_with self letter) }
    {
        let c = letter.character;
        if letter.escaped {
            self.bound(c)
        } else if c == '-' {
            self.dash()
        } else if c == '[' {
            Ok(None)
        } else if c == '^' {
            self.caret()
        } else {
            self.bound(c)
        }
    }

    /// The closing bracket. None where the class has no item.
    pub fn close(self) -> Result<Option<Symbol>, AllocError>
        ensures { IfOk result (λ found. found ≡ class_close self) }
    {
        let mut ranges = self.ranges;
        match self.item {
            Item::Start | Item::Negated => return Ok(None),
            Item::Done => {}
            Item::Bound(c) => ranges.push((c as u32, c as u32))?,
            Item::Range(c) => {
                ranges.push((c as u32, c as u32))?;
                ranges.push((HYPHEN, HYPHEN))?;
            }
            Item::Dash => ranges.push((HYPHEN, HYPHEN))?,
        }
        Ok(Some(Symbol::new(self.negated, ranges)?))
    }
}
