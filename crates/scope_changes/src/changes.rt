//! The change of one of several scopes, with every byte that it writes and prints.
ghost use Rattle.std.specs.Prelude.{◌≡◌, IfOk};

use change_apply::Ready;
use host_core::{Memory, Txt};
use scopes::Scope;
use std::alloc::Global;
use std::marker::Model;

/// A change of a scope's files that is ready, and the line that tells that it begins. Contracts see the scope
/// and the change.
#[derive(Drop)]
pub struct ScopeChange {
    pub(crate) scope: Scope,
    pub(crate) ready: Ready,
    pub(crate) line: Txt,
}

impl Model for ScopeChange {
    ghost use Rattle.std.specs.Prelude.{◌≡◌};
    ghost use Rattle.scope_changes.specs.Works.{ScopeWork, apply_line};

    ghost Value = { ScopeWork };

    ghost view = { λ c. record { scope = c.scope; change = c.ready } };

    ghost invariant = { λ c. c.line ≡ apply_line c.scope };
}

impl ScopeChange {
    /// A change of that scope, with its line.
    pub fn new(alloc: Global, scope: Scope, ready: Ready) -> Result<ScopeChange, Memory>
        ensures { IfOk result (λ c. c ≡ record { scope = scope; change = ready }) }
    {
        let name = scope.name(alloc)?;
        let name = name.as_str();
        let line = Txt::from(format!(in alloc; "apply {name}\n")?);
        Ok(ScopeChange { scope, ready, line })
    }
}
