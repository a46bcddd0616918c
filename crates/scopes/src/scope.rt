//! Scopes: the host of a switch, and its ASICs.
ghost use Rattle.std.specs.Prelude.{◌≡◌, ◌≢◌, ◌++◌, codes, decimal, IfOk, MatchOption};
ghost use Rattle.scopes.specs.Scopes.{IsScope, scope_name};
ghost use Rattle.scopes.specs.declared.scope.Scope.{Scope as AnyScope};

use crate::names::{ShortText, push_number};
use host_core::{Memory, Txt};
use std::alloc::Global;

/// What a part of a patch is for: the host of a switch, or one of its ASICs.
#[derive(Clone, Copy, Debug, PartialEq, Eq, PartialOrd, Ord)]
pub enum Scope {
    Localhost,
    Asic(u8),
}

/// The name of the host's scope.
const LOCALHOST: &str = "localhost";

/// How the name of an ASIC's scope begins.
const ASIC: &str = "asic";

impl Scope {
    /// The scope of that name: `localhost`, or `asic` and a number of 0 to 255 without leading zeros.
    pub fn named(name: &str) -> Option<Scope>
        ensures { MatchOption result ((s : AnyScope) → IsScope s → name.now ≢ scope_name s)
            (λ s. IsScope s × (name.now ≡ scope_name s)) }
    {
        if name == LOCALHOST {
            return Some(Scope::Localhost);
        }
        let number = name.strip_prefix(ASIC)?;
        match number.parse::<u8>() {
            Ok(number) => Scope::Asic(number).if_named(name),
            Err(_) => None,
        }
    }

    /// The name of the scope.
    pub fn name(self, alloc: Global) -> Result<Txt, Memory>
        ensures { IfOk result (λ t. t ≡ scope_name self) }
    {
        Txt::new(alloc, self.short_name().as_str())
    }

    /// This scope, where it has that name.
    fn if_named(self, name: &str) -> Option<Scope>
        ensures { MatchOption result (name.now ≢ scope_name self)
            (λ s. (s ≡ self) × (name.now ≡ scope_name self)) }
    {
        if self.short_name().as_str() == name {
            Some(self)
        } else {
            None
        }
    }

    /// The name of the scope, in place.
    pub(crate) fn short_name(self) -> ShortText
        ensures { result.bytes ≡ scope_name self }
    {
        let mut name = ShortText::new();
        match self {
            Scope::Localhost => name.push_str(LOCALHOST),
            Scope::Asic(number) => {
                name.push_str(ASIC);
                push_number(&mut name, number);
            }
        }
        name
    }
}
