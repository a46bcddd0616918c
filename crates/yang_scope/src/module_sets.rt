//! The modules of the files, and what names of types stand for in them.
ghost use Rattle.std.specs.Prelude.{◌≡◌, ◌<◌, ◌≤◌, ◌^◌, [], ◌++◌, List, Option, ℕ, map, length, option_map, option_and_then, slice_get, filter, is_some, codes, IfOk};
ghost use Rattle.yang_text.specs.Declarations.{Declaration, argument};
ghost use Rattle.yang_text.specs.Statements.{declaration};
ghost use Rattle.yang_scope.specs.Meanings.{built_in_space, prefix_giver, space_named, space_given, space_of, meaning_of_place, meaning_of_base, typedef_named, named_in, named_here, meaning_of, type_meaning, typedef_meaning, is_module};
ghost use Rattle.yang_scope.specs.declared.bases.Base.TheVariants.{Builtin as BuiltIn};
ghost use Rattle.yang_scope.specs.Modules.{Module, module_in, modules_in, modules_of, module_entries};
ghost use Rattle.yang_scope.specs.NameTables.{IsTableOf};
ghost use Rattle.yang_scope.specs.Paths.{is_prefix};
ghost use Rattle.yang_scope.specs.Statements.{is_keyword};

use crate::bases::{Base, base_named, inet_named, is_built_in_type, yang_named};
use crate::meanings::{Meaning, Space};
use crate::modules::{ModuleNames, first_of};
use crate::name_tables::NameTable;
use host_core::{Memory, Txt};
use std::alloc::Global;
use std::marker::Model;
use yang_text::{Statement, Statements};
use yang_types::Builtin;

/// The modules of the files, found by their names. Contracts see the list of the modules.
#[derive(Drop)]
pub(crate) struct ModuleSet<'a> {
    modules: Vec<ModuleNames<'a>>,
    numbers: NameTable,
}

impl<'a> Model for ModuleSet<'a> {
    ghost use Rattle.std.specs.Prelude.{List};
    ghost use Rattle.std.specs.Coded.{coded_list};
    ghost use Rattle.yang_scope.specs.Coding.{coded_module};
    ghost use Rattle.yang_scope.specs.Modules.{Module, module_entries};
    ghost use Rattle.yang_scope.specs.NameTables.{IsTableOf};

    ghost Value = { List Module };

    ghost coded = { coded_list coded_module };

    ghost view = { λ s. s.modules.items };

    ghost invariant = { λ s. IsTableOf s.numbers.numbers (module_entries s.modules.items) };
}

/// The module that is built in under a name.
fn built_in_space(name: &str) -> Space
    ensures { result ≡ built_in_space name.now }
{
    match name {
        "ietf-inet-types" => Space::Inet,
        "ietf-yang-types" => Space::Yang,
        _ => Space::Nowhere,
    }
}

fn meaning_of_base(base: Option<Base>) -> Meaning
    ensures { result ≡ meaning_of_base base }
{
    match base {
        Some(base) => Meaning::Ends(base),
        None => Meaning::Nothing,
    }
}

fn meaning_of_builtin(builtin: Option<Builtin>) -> Meaning
    ensures { result ≡ meaning_of_base (option_map BuiltIn builtin) }
{
    match builtin {
        Some(builtin) => Meaning::Ends(Base::Builtin(builtin)),
        None => Meaning::Nothing,
    }
}

/// Adds a statement of a file, where it is a module.
fn push_module<'a>(
    alloc: Global,
    modules: &mut Vec<ModuleNames<'a>>,
    file: u32,
    statement: &'a Statement,
) -> Result<(), Memory>
    ensures { IfOk result (λ _. modules.new.items
        ≡ modules.old.items ++ module_in file (declaration statement.now)) }
{
    match statement.keyword.as_str() {
        "module" => {
            let module = ModuleNames::new(alloc, file, statement)?;
            modules.push(module)?;
            Ok(())
        }
        _ => Ok(()),
    }
}

/// Adds the modules of a file.
fn push_modules<'a>(
    alloc: Global,
    modules: &mut Vec<ModuleNames<'a>>,
    file: u32,
    statements: &'a [Statement],
) -> Result<(), Memory>
    ensures { IfOk result (λ _. modules.new.items
        ≡ modules.old.items ++ modules_in file (map declaration statements.now)) }
{
    for statement in statements {
        push_module(alloc, modules, file, statement)?;
    }
    Ok(())
}

/// The modules of the files, in order.
fn all_modules<'a>(
    alloc: Global,
    files: &'a [(Txt, Statements)],
) -> Result<Vec<ModuleNames<'a>>, Memory>
    requires { length files.now < 2 ^ 32 }
    ensures { IfOk result (λ modules. modules.items ≡ modules_of (map (λ f. f.1) files.now)) }
{
    let mut modules = Vec::new(alloc);
    for (file, (_, statements)) in files.iter().enumerate() {
        push_modules(alloc, &mut modules, file as u32, statements.items())?;
    }
    Ok(modules)
}

/// The table of the modules' names.
fn number_table(alloc: Global, modules: &[ModuleNames]) -> Result<NameTable, Memory>
    ensures { IfOk result (λ table. IsTableOf table.numbers (module_entries modules.now)) }
{
    let mut table = NameTable::new(alloc);
    for (number, module) in modules.iter().enumerate() {
        table.push_some(alloc, &module.statement().argument, number)?;
    }
    Ok(table)
}

impl<'a> ModuleSet<'a> {
    /// The modules of the files.
    pub(crate) fn new(
        alloc: Global,
        files: &'a [(Txt, Statements)],
    ) -> Result<ModuleSet<'a>, Memory>
        requires { length files.now < 2 ^ 32 }
        ensures { IfOk result (λ s. s ≡ modules_of (map (λ f. f.1) files.now)) }
    {
        let modules = all_modules(alloc, files)?;
        let numbers = number_table(alloc, modules.as_slice())?;
        Ok(ModuleSet { modules, numbers })
    }

    /// The modules in order.
    pub(crate) fn items(&self) -> &[ModuleNames<'a>]
        ensures { result.now ≡ self.now }
    {
        self.modules.as_slice()
    }

    /// Whether an import may name a module.
    pub(crate) fn is_module(&self, name: &str) -> bool
        ensures { result ≡ is_module self.now name.now }
    {
        match name {
            "ietf-inet-types" | "ietf-yang-types" => true,
            _ => self.numbers.get(name).is_some(),
        }
    }

    /// The module of a name.
    fn space_named(&self, name: &str) -> Space
        ensures { result ≡ space_named self.now name.now }
    {
        match self.numbers.get(name) {
            Some(number) => Space::Files(number),
            None => built_in_space(name),
        }
    }

    /// The module that a statement of a module gives a prefix to.
    fn space_given(&self, number: usize, statement: &Statement) -> Space
        ensures { result ≡ space_given self.now number (declaration statement.now) }
    {
        match (statement.keyword.as_str(), &statement.argument) {
            ("prefix", _) => Space::Files(number),
            (_, Some(name)) => self.space_named(name.as_str()),
            (_, None) => Space::Nowhere,
        }
    }

    /// The statement that gives a prefix in a module.
    fn prefix_giver(&self, number: usize, prefix: &str) -> Option<&'a Statement>
        ensures { option_map (λ s. declaration s.now) result
            ≡ option_and_then (prefix_giver prefix.now) (slice_get self.now number) }
    {
        match self.items().get(number) {
            Some(module) => module.prefix_giver(prefix),
            None => None,
        }
    }

    /// The module that a prefix stands for in a module.
    pub(crate) fn space_of(&self, number: usize, prefix: &str) -> Space
        ensures { result ≡ space_of self.now number prefix.now }
    {
        match self.prefix_giver(number, prefix) {
            Some(statement) => self.space_given(number, statement),
            None => Space::Nowhere,
        }
    }

    /// Whether a module gives a prefix.
    pub(crate) fn is_prefix(&self, number: usize, prefix: &str) -> bool
        ensures { result ≡ is_prefix self.now number prefix.now }
    {
        self.prefix_giver(number, prefix).is_some()
    }

    /// A typedef of a module.
    fn typedef_named(&self, number: usize, name: &str) -> Meaning
        ensures { result ≡ typedef_named self.now number name.now }
    {
        match self.items().get(number) {
            Some(module) => match module.typedef_named(name) {
                Some(place) => Meaning::Goes(number, place),
                None => Meaning::Nothing,
            },
            None => Meaning::Nothing,
        }
    }

    /// A name in a module that a prefix stands for.
    fn named_in(&self, space: Space, name: &str) -> Meaning
        ensures { result ≡ named_in self.now space name.now }
    {
        match space {
            Space::Files(number) => self.typedef_named(number, name),
            Space::Inet => meaning_of_builtin(inet_named(name)),
            Space::Yang => meaning_of_builtin(yang_named(name)),
            Space::Nowhere => Meaning::Nothing,
        }
    }

    /// A name without a prefix.
    fn named_here(&self, number: usize, name: &str) -> Meaning
        ensures { result ≡ named_here self.now number name.now }
    {
        if is_built_in_type(name) {
            meaning_of_base(base_named(name))
        } else {
            self.typedef_named(number, name)
        }
    }

    /// What a name stands for in a module.
    fn meaning_of(&self, number: usize, name: &str) -> Meaning
        ensures { result ≡ meaning_of self.now number name.now }
    {
        match name.split_once(':') {
            Some((prefix, rest)) => self.named_in(self.space_of(number, prefix), rest),
            None => self.named_here(number, name),
        }
    }

    /// What the argument of a type statement stands for in a module.
    pub(crate) fn type_meaning(&self, number: usize, name: &Option<Txt>) -> Meaning
        ensures { result ≡ type_meaning self.now number name.now }
    {
        match name {
            Some(name) => self.meaning_of(number, name.as_str()),
            None => Meaning::Nothing,
        }
    }

    /// What the type of a typedef of a module stands for.
    pub(crate) fn typedef_meaning(&self, number: usize, statement: &Statement) -> Meaning
        ensures { result ≡ typedef_meaning self.now number (declaration statement.now) }
    {
        match first_of("type", statement.block.items()) {
            Some(ty) => self.type_meaning(number, &ty.argument),
            None => Meaning::Nothing,
        }
    }
}
