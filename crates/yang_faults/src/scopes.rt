//! What a module knows of the names in it and around it.

use crate::kinds::Kind;
use host_core::Memory;
use std::alloc::Global;
use yang_scope::Fault;
use yang_text::Statement;

/// What the names in a module stand for.
pub(crate) trait Scope {
    ghost use Rattle.std.specs.Prelude.{◌≡◌, Bool, List, ℕ, OnOk};
    ghost use Rattle.yang_text.specs.Declarations.{Declaration};
    ghost use Rattle.yang_text.specs.Statements.{declaration};
    ghost use Rattle.yang_scope.specs.declared.faults.Fault.{Fault};
    ghost use Rattle.yang_faults.specs.Tests.{Tests, Notes};
    ghost use Rattle.yang_faults.specs.declared.kinds.Kind.{Kind};

    /// What kind a statement of a kind is by its argument: what a type may hold goes by its name.
    ghost settles: { Self → Kind → Declaration → Kind };

    /// Which modules an import may name.
    ghost knows: { Self → List ℕ → Bool };

    /// What is wrong with a statement of a kind by what the names in it stand for.
    ghost named: { Self → Tests → Kind → Declaration → List Fault };

    /// What kind a statement of a kind is by its argument.
    fn settle(&self, kind: Kind, statement: &Statement) -> Kind
        ensures { result ≡ settles self.now kind (declaration statement.now) };

    /// Whether there is a module of a name.
    fn knows_module(&self, name: &str) -> bool
        ensures { result ≡ knows self.now name.now };

    /// What is wrong with a statement of a kind by what the names in it stand for.
    fn note_named(
        &self,
        alloc: Global,
        least: &mut Option<Fault>,
        kind: Kind,
        statement: &Statement,
    ) -> Result<(), Memory>
        ensures { OnOk result (Notes least.old least.new
            (λ tests. named self.now tests kind (declaration statement.now))) };
}
