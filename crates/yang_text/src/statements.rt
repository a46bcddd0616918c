//! Statements as values.
ghost use Rattle.std.specs.Prelude.{◌≡◌, ◌<◌, [], ◌∷◌, ◌++◌, length, map, slice_get, Some, OnOk, OnErr};
ghost use Rattle.yang_text.specs.Statements.{declaration};

use host_core::{Memory, Txt};
use std::alloc::Global;
use std::marker::Model;

/// A statement of a YANG text. Contracts see it as its `declaration`.
#[derive(Drop)]
#[cycle(statement)]
pub struct Statement {
    pub keyword: Txt,
    pub argument: Option<Txt>,
    /// The line of the keyword, counted from 1.
    pub line: u32,
    /// The keyword is the bytes of the text from `start` to before `end`.
    pub start: u64,
    pub end: u64,
    /// The statements in braces, or none.
    pub block: Statements,
}

/// A list of statements. Contracts see the list of their declarations.
#[derive(Drop)]
#[cycle(statement)]
pub struct Statements {
    statements: Vec<Statement>,
}

impl Model for Statements {
    ghost use Rattle.std.specs.Prelude.{List, map};
    ghost use Rattle.std.specs.Coded.{coded_list};
    ghost use Rattle.yang_text.specs.Coding.{coded_declaration};
    ghost use Rattle.yang_text.specs.Declarations.{Declaration, total_weight};

    ghost Value = { List Declaration };

    ghost coded = { coded_list coded_declaration };

    ghost use Rattle.yang_text.specs.Statements.{declaration};

    ghost view = { λ a. map declaration a.statements.items };

    ghost size = { total_weight };

    ghost use Rattle.yang_text.specs.Falls.{statements_fall};

    ghost size_decreases = { λ a h. statements_fall a.statements.items };
}

impl Statements {
    /// No statements, which take no memory.
    pub fn new(alloc: Global) -> Statements
        ensures { result ≡ [] }
    {
        Statements {
            statements: Vec::new(alloc),
        }
    }

    /// How many statements there are, those in blocks not counted.
    pub fn len(&self) -> usize
        ensures { result ≡ length self.now }
    {
        self.statements.len()
    }

    /// The whole list.
    pub fn items(&self) -> &[Statement]
        ensures { map declaration result.now ≡ self.now }
    {
        self.statements.as_slice()
    }

    /// The statement at an index, counted from 0.
    pub fn at(&self, i: usize) -> &Statement
        requires { i < length self.now }
        ensures { slice_get self.now i ≡ Some (declaration result.now) }
    {
        &self.statements[i]
    }

    /// Adds a statement at the end. Without memory the list stays as it was, and the statement is dropped.
    pub fn push(&mut self, statement: Statement) -> Result<(), Memory>
        ensures ok { OnOk result (self.new ≡ self.old ++ declaration statement ∷ []) }
        ensures err { OnErr result (self.new ≡ self.old) }
    {
        match self.statements.push(statement) {
            Ok(()) => Ok(()),
            Err(_) => Err(Memory),
        }
    }
}
