//! A module statement, with the names that it gives.
ghost use Rattle.std.specs.Prelude.{◌≡◌, [], ◌++◌, List, map, option_map, option_and_then, slice_get, find, option_copied, IfOk};
ghost use Rattle.std.specs.List.{flat_map};
ghost use Rattle.yang_text.specs.Declarations.{Declaration};
ghost use Rattle.yang_text.specs.Statements.{declaration};
ghost use Rattle.yang_scope.specs.Modules.{Module, typedef_entry, typedef_entries, prefix_entry, prefixes_by, prefix_entries};
ghost use Rattle.yang_scope.specs.NameTables.{IsTableOf};
ghost use Rattle.yang_scope.specs.Statements.{Entry, is_keyword, first_child, each_from, number_of_name};

use crate::name_tables::NameTable;
use host_core::Memory;
use std::alloc::Global;
use std::marker::Model;
use yang_text::Statement;

/// A module whose typedefs and prefixes are found by their names. Contracts see the module.
#[derive(Drop)]
pub(crate) struct ModuleNames<'a> {
    file: u32,
    statement: &'a Statement,
    typedefs: NameTable,
    prefixes: NameTable,
}

impl<'a> Model for ModuleNames<'a> {
    ghost use Rattle.yang_text.specs.Statements.{declaration};
    ghost use Rattle.yang_scope.specs.Coding.{coded_module};
    ghost use Rattle.yang_scope.specs.Modules.{Module, typedef_entries, prefix_entries};
    ghost use Rattle.yang_scope.specs.NameTables.{IsTableOf};

    ghost Value = { Module };

    ghost coded = { coded_module };

    ghost view = { λ m. record { file = m.file; statement = declaration m.statement.now } };

    ghost invariant = { λ m.
        IsTableOf m.typedefs.numbers
        (typedef_entries (record { file = m.file; statement = declaration m.statement.now }))
        × IsTableOf m.prefixes.numbers
        (prefix_entries (record { file = m.file; statement = declaration m.statement.now })) };
}

/// The first statement of a keyword among some.
pub fn first_of<'a>(keyword: &str, statements: &'a [Statement]) -> Option<&'a Statement>
    ensures { option_copied result
        ≡ find (λ s. is_keyword keyword.now (declaration s)) statements.now }
{
    statements
        .iter()
        .find(|statement| statement.keyword.as_str() == keyword)
}

/// Adds the name of a typedef.
fn push_typedef(
    alloc: Global,
    table: &mut NameTable,
    place: usize,
    statement: &Statement,
) -> Result<(), Memory>
    ensures { IfOk result (λ _. (entries : List Entry) → IsTableOf table.old.numbers entries
        → IsTableOf table.new.numbers
        (entries ++ typedef_entry place (declaration statement.now))) }
{
    match statement.keyword.as_str() {
        "typedef" => table.push_some(alloc, &statement.argument, place),
        _ => Ok(()),
    }
}

/// Adds the prefix that a statement is.
fn push_prefix(
    alloc: Global,
    table: &mut NameTable,
    place: usize,
    statement: &Statement,
) -> Result<(), Memory>
    ensures { IfOk result (λ _. (entries : List Entry) → IsTableOf table.old.numbers entries
        → IsTableOf table.new.numbers (entries ++ prefix_entry place (declaration statement.now))) }
{
    match statement.keyword.as_str() {
        "prefix" => table.push_some(alloc, &statement.argument, place),
        _ => Ok(()),
    }
}

/// Adds the prefixes of an import.
fn push_import(
    alloc: Global,
    table: &mut NameTable,
    place: usize,
    statements: &[Statement],
) -> Result<(), Memory>
    ensures { IfOk result (λ _. (entries : List Entry) → IsTableOf table.old.numbers entries
        → IsTableOf table.new.numbers
        (entries ++ flat_map (prefix_entry place) (map declaration statements.now))) }
{
    for statement in statements {
        push_prefix(alloc, table, place, statement)?;
    }
    Ok(())
}

/// Adds the prefixes that a statement of a module gives.
fn push_prefixes(
    alloc: Global,
    table: &mut NameTable,
    place: usize,
    statement: &Statement,
) -> Result<(), Memory>
    ensures { IfOk result (λ _. (entries : List Entry) → IsTableOf table.old.numbers entries
        → IsTableOf table.new.numbers
        (entries ++ prefixes_by place (declaration statement.now))) }
{
    match statement.keyword.as_str() {
        "import" => push_import(alloc, table, place, statement.block.items()),
        _ => push_prefix(alloc, table, place, statement),
    }
}

/// The table of the typedefs among the statements of a module.
fn typedef_table(alloc: Global, statements: &[Statement]) -> Result<NameTable, Memory>
    ensures { IfOk result (λ table. IsTableOf table.numbers
        (each_from typedef_entry 0 (map declaration statements.now))) }
{
    let mut table = NameTable::new(alloc);
    for (place, statement) in statements.iter().enumerate() {
        push_typedef(alloc, &mut table, place, statement)?;
    }
    Ok(table)
}

/// The table of the prefixes that the statements of a module give.
fn prefix_table(alloc: Global, statements: &[Statement]) -> Result<NameTable, Memory>
    ensures { IfOk result (λ table. IsTableOf table.numbers
        (each_from prefixes_by 0 (map declaration statements.now))) }
{
    let mut table = NameTable::new(alloc);
    for (place, statement) in statements.iter().enumerate() {
        push_prefixes(alloc, &mut table, place, statement)?;
    }
    Ok(table)
}

impl<'a> ModuleNames<'a> {
    ghost use Rattle.yang_text.specs.Declarations.{block};
    ghost use Rattle.yang_scope.specs.Meanings.{prefix_giver};

    /// The names of a module of a file.
    pub(crate) fn new(
        alloc: Global,
        file: u32,
        statement: &'a Statement,
    ) -> Result<ModuleNames<'a>, Memory>
        ensures { IfOk result
            (λ m. m ≡ record { file = file; statement = declaration statement.now }) }
    {
        let statements = statement.block.items();
        let typedefs = typedef_table(alloc, statements)?;
        let prefixes = prefix_table(alloc, statements)?;
        Ok(ModuleNames {
            file,
            statement,
            typedefs,
            prefixes,
        })
    }

    /// The number of the module's file.
    pub(crate) fn file(&self) -> u32
        ensures { result ≡ self.now.file }
    {
        self.file
    }

    /// The module statement.
    pub(crate) fn statement(&self) -> &'a Statement
        ensures { declaration result.now ≡ self.now.statement }
    {
        self.statement
    }

    /// The place of the typedef of a name.
    pub(crate) fn typedef_named(&self, name: &str) -> Option<usize>
        ensures { result ≡ number_of_name name.now (typedef_entries self.now) }
    {
        self.typedefs.get(name)
    }

    /// The statement at a place.
    pub(crate) fn statement_at(&self, place: usize) -> Option<&'a Statement>
        ensures { option_map (λ s. declaration s.now) result
            ≡ slice_get (block self.now.statement) place }
    {
        if place < self.statement.block.len() {
            Some(self.statement.block.at(place))
        } else {
            None
        }
    }

    /// The statement that gives a prefix.
    pub(crate) fn prefix_giver(&self, prefix: &str) -> Option<&'a Statement>
        ensures { option_map (λ s. declaration s.now) result ≡ prefix_giver prefix.now self.now }
    {
        match self.prefixes.get(prefix) {
            Some(place) => self.statement_at(place),
            None => None,
        }
    }
}
