//! The prefixes that a module gives, found without a walk.
ghost use Rattle.std.specs.Prelude.{◌≡◌, [], ◌++◌, List, map, is_some, IfOk};
ghost use Rattle.std.specs.List.{flat_map};
ghost use Rattle.yang_text.specs.Declarations.{Declaration};
ghost use Rattle.yang_text.specs.Statements.{declaration};
ghost use Rattle.yang_scope.specs.Meanings.{prefix_giver};
ghost use Rattle.yang_scope.specs.Modules.{Module, prefix_entry, prefixes_by, prefix_entries};
ghost use Rattle.yang_scope.specs.NameTables.{IsTableOf};
ghost use Rattle.yang_scope.specs.Statements.{Entry, each_from};

use crate::name_tables::NameTable;
use host_core::Memory;
use std::alloc::Global;
use std::marker::Model;
use yang_text::Statement;

/// A module whose prefixes are found by their names. Contracts see the module.
#[derive(Drop)]
pub(crate) struct ModulePrefixes<'a> {
    file: u32,
    statement: &'a Statement,
    prefixes: NameTable,
}

impl<'a> Model for ModulePrefixes<'a> {
    ghost use Rattle.yang_text.specs.Statements.{declaration};
    ghost use Rattle.yang_scope.specs.Coding.{coded_module};
    ghost use Rattle.yang_scope.specs.Modules.{Module, prefix_entries};
    ghost use Rattle.yang_scope.specs.NameTables.{IsTableOf};

    ghost Value = { Module };

    ghost coded = { coded_module };

    ghost view = { λ m. record { file = m.file; statement = declaration m.statement.now } };

    ghost invariant = { λ m. IsTableOf m.prefixes.numbers
        (prefix_entries (record { file = m.file; statement = declaration m.statement.now })) };
}

/// Adds the prefix that a statement is.
fn push_prefix(
    alloc: Global,
    table: &mut NameTable,
    place: usize,
    statement: &Statement,
) -> Result<(), Memory>
    ensures { IfOk result (λ _. (entries : List Entry) → IsTableOf table.old.numbers entries
        → IsTableOf table.new.numbers (entries ++ prefix_entry place (declaration statement.now))) }
{
    if statement.keyword.as_str() == "prefix" {
        table.push_some(alloc, &statement.argument, place)?;
    }
    Ok(())
}

/// Adds the prefixes of an import.
fn push_import(
    alloc: Global,
    table: &mut NameTable,
    place: usize,
    statements: &[Statement],
) -> Result<(), Memory>
    ensures { IfOk result (λ _. (entries : List Entry) → IsTableOf table.old.numbers entries
        → IsTableOf table.new.numbers
        (entries ++ flat_map (prefix_entry place) (map declaration statements.now))) }
{
    for statement in statements {
        push_prefix(alloc, table, place, statement)?;
    }
    Ok(())
}

/// Adds the prefixes that a statement of a module gives.
fn push_prefixes(
    alloc: Global,
    table: &mut NameTable,
    place: usize,
    statement: &Statement,
) -> Result<(), Memory>
    ensures { IfOk result (λ _. (entries : List Entry) → IsTableOf table.old.numbers entries
        → IsTableOf table.new.numbers
        (entries ++ prefixes_by place (declaration statement.now))) }
{
    if statement.keyword.as_str() == "import" {
        push_import(alloc, table, place, statement.block.items())
    } else {
        push_prefix(alloc, table, place, statement)
    }
}

/// The table of the prefixes that the statements of a module give.
fn prefix_table(alloc: Global, statements: &[Statement]) -> Result<NameTable, Memory>
    ensures { IfOk result (λ table. IsTableOf table.numbers
        (each_from prefixes_by 0 (map declaration statements.now))) }
{
    let mut table = NameTable::new(alloc);
    for (place, statement) in statements.iter().enumerate() {
        push_prefixes(alloc, &mut table, place, statement)?;
    }
    Ok(table)
}

impl<'a> ModulePrefixes<'a> {
    /// The prefixes of a module of a file.
    pub(crate) fn new(
        alloc: Global,
        file: u32,
        statement: &'a Statement,
    ) -> Result<ModulePrefixes<'a>, Memory>
        ensures { IfOk result
            (λ m. m ≡ record { file = file; statement = declaration statement.now }) }
    {
        let prefixes = prefix_table(alloc, statement.block.items())?;
        Ok(ModulePrefixes {
            file,
            statement,
            prefixes,
        })
    }

    /// The number of the module's file.
    pub(crate) fn file(&self) -> u32
        ensures { result ≡ self.now.file }
    {
        self.file
    }

    /// The module statement.
    pub(crate) fn statement(&self) -> &'a Statement
        ensures { declaration result.now ≡ self.now.statement }
    {
        self.statement
    }

    /// Whether a statement of the module gives a prefix.
    pub(crate) fn gives(&self, prefix: &str) -> bool
        ensures { result ≡ is_some (prefix_giver prefix.now self.now) }
    {
        match self.prefixes.get(prefix) {
            Some(place) => self.statement.block.items().get(place).is_some(),
            None => false,
        }
    }
}
