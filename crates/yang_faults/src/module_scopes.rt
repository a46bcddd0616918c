//! The scope of a module of the files.
ghost use Rattle.std.specs.Prelude.{◌≡◌, ◌++◌, OnOk};
ghost use Rattle.yang_text.specs.Statements.{declaration};
ghost use Rattle.yang_scope.specs.Faults.{least_of};
ghost use Rattle.yang_scope.specs.Meanings.{is_module};
ghost use Rattle.yang_scope.specs.TypeFaults.{bad_patterns};
ghost use Rattle.yang_values.specs.BoundFaults.{bad_bounds};
ghost use Rattle.yang_faults.specs.Tests.{Notes};
ghost use Rattle.yang_faults.specs.Types.{restricted_kind, kind_of_base, type_kind, settle, type_faults, all_type_faults, named_faults};

use crate::defaults::{note_fixed_defaults, note_list_defaults};
use crate::kinds::Kind;
use crate::scopes::Scope;
use host_core::Memory;
use std::alloc::Global;
use yang_scope::{
    Base, Fault, Meaning, Names, note_bad_patterns, note_unknown_type, note_wrong_paths,
};
use yang_text::Statement;
use yang_values::{Endings, note_bad_bounds, note_if_circle};

/// A module by its number, in the file that has it, among the names of all modules.
#[derive(Clone, Copy)]
pub(crate) struct ModuleScope<'n, 'a> {
    pub(crate) names: &'n Names<'a>,
    pub(crate) file: u32,
    pub(crate) number: usize,
    /// What is known of the type statements of all modules.
    pub(crate) endings: &'n Endings<'n, 'a>,
    ghost same: { endings.now ≡ names.now },
}

/// What kind a type is that typedefs lead to.
fn restricted_kind(base: Base) -> Kind
    ensures { result ≡ restricted_kind base }
{
    match base {
        Base::Text => Kind::TextType,
        Base::Number(_) => Kind::NumberType,
        Base::Enumeration | Base::Truth | Base::Leafref | Base::Union | Base::Builtin(_) => {
            Kind::PlainType
        }
    }
}

/// What kind a type is by its base.
fn kind_of_base(base: Option<Base>) -> Kind
    ensures { result ≡ kind_of_base base }
{
    match base {
        Some(base) => restricted_kind(base),
        None => Kind::UnknownType,
    }
}

/// What kind a type is by what its name stands for, and by its base.
fn type_kind(meaning: Meaning, base: Option<Base>) -> Kind
    ensures { result ≡ type_kind meaning base }
{
    match meaning {
        Meaning::Ends(Base::Enumeration) => Kind::EnumerationType,
        Meaning::Ends(Base::Leafref) => Kind::LeafrefType,
        Meaning::Ends(Base::Union) => Kind::UnionType,
        Meaning::Ends(_) | Meaning::Goes(..) | Meaning::Nothing => kind_of_base(base),
    }
}

impl<'n, 'a> ModuleScope<'n, 'a> {
    /// The lengths and ranges of a type that are none.
    fn note_bounds(
        &self,
        alloc: Global,
        least: &mut Option<Fault>,
        statement: &Statement,
    ) -> Result<(), Memory>
        ensures { OnOk result (least.new ≡ least_of least.old
            (bad_bounds self.now.names.now self.now.file self.now.number
            (declaration statement.now))) }
    {
        note_bad_bounds(alloc, least, self.names, self.file, self.number, statement)
    }

    /// The patterns, lengths and ranges of a type that are none.
    fn note_restrictions(
        &self,
        alloc: Global,
        least: &mut Option<Fault>,
        statement: &Statement,
    ) -> Result<(), Memory>
        ensures { OnOk result (Notes least.old least.new (λ tests.
            bad_patterns tests.is_pattern self.now.file (declaration statement.now)
            ++ bad_bounds self.now.names.now self.now.file self.now.number
            (declaration statement.now))) }
    {
        note_bad_patterns(alloc, least, self.file, statement)?;
        note_bad_bounds(alloc, least, self.names, self.file, self.number, statement)?;
        Ok(())
    }

    /// What is wrong with a type statement of a kind by its name and its restrictions.
    fn note_type_alone(
        &self,
        alloc: Global,
        least: &mut Option<Fault>,
        kind: Kind,
        statement: &Statement,
    ) -> Result<(), Memory>
        ensures { OnOk result (Notes least.old least.new (λ tests.
            type_faults self.now.names.now tests self.now.file self.now.number kind
            (declaration statement.now))) }
    {
        match kind {
            Kind::UnknownType => {
                note_unknown_type(least, self.names, self.file, self.number, statement);
                self.note_restrictions(alloc, least, statement)
            }
            Kind::TextType => self.note_restrictions(alloc, least, statement),
            Kind::NumberType => self.note_bounds(alloc, least, statement),
            Kind::LeafrefType => {
                note_wrong_paths(alloc, least, self.names, self.file, self.number, statement)
            }
            _ => Ok(()),
        }
    }

    /// All that is wrong with a type statement of a kind.
    fn note_type(
        &self,
        alloc: Global,
        least: &mut Option<Fault>,
        kind: Kind,
        statement: &Statement,
    ) -> Result<(), Memory>
        ensures { OnOk result (Notes least.old least.new (λ tests.
            all_type_faults self.now.names.now tests self.now.file self.now.number kind
            (declaration statement.now))) }
    {
        note_if_circle(
            alloc,
            least,
            self.endings,
            self.file,
            self.number,
            statement,
        )?;
        self.note_type_alone(alloc, least, kind, statement)?;
        Ok(())
    }
}

impl<'n, 'a> Scope for ModuleScope<'n, 'a> {
    ghost settles = { λ s. settle s.names.now s.number };

    ghost knows = { λ s. is_module s.names.now };

    ghost named = { λ s tests. named_faults s.names.now tests s.file s.number };

    fn settle(&self, kind: Kind, statement: &Statement) -> Kind {
        match kind {
            Kind::NamedType => type_kind(
                self.names.type_meaning(self.number, &statement.argument),
                self.names.base_of(self.number, &statement.argument),
            ),
            _ => kind,
        }
    }

    fn knows_module(&self, name: &str) -> bool {
        self.names.is_module(name)
    }

    fn note_named(
        &self,
        alloc: Global,
        least: &mut Option<Fault>,
        kind: Kind,
        statement: &Statement,
    ) -> Result<(), Memory> {
        match kind {
            Kind::UnknownType
            | Kind::TextType
            | Kind::NumberType
            | Kind::EnumerationType
            | Kind::LeafrefType
            | Kind::UnionType
            | Kind::PlainType => self.note_type(alloc, least, kind, statement),
            Kind::TableList => { note_list_defaults(alloc, least, self, statement) }
            Kind::FixedContainer => { note_fixed_defaults(alloc, least, self, statement) }
            _ => Ok(()),
        }
    }
}
