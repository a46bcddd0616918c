//! One folder seen as the folder of a scope.
ghost use Rattle.std.specs.Prelude.{◌≡◌, ◌≤◌, true, IfSome, option_map};
ghost use Rattle.host_core.specs.Names.{longest_scoped_name};
ghost use Rattle.host_core.specs.State.{settled};
ghost use Rattle.scopes.specs.Views.{seen, tells_clean};

use crate::Scope;
use crate::listing::plain_names;
use crate::names::file_name;
use host_core::{Failed, Host, HostError, Input, Names};
use std::alloc::Global;

/// A host whose files are those of a scope, under their plain names. All else is the inner host's. It
/// takes no memory for names. It is made of a settled folder, and settles it again only behind what may have
/// changed that.
#[derive(Drop)]
pub struct ScopedHost<'a, H: Host> {
    host: &'a mut H,
    scope: Scope,
    /// Since the folder was settled nothing was done but to read, so that settling it does nothing.
    is_settled: bool,
    ghost fits: { longest_scoped_name ≤ H.longest_name },
    ghost clean: { is_settled ≡ true → tells_clean (H.told host.now) ≡ true },
}

impl<'a, H: Host> ScopedHost<'a, H> {
    /// The host as a scope shows it.
    #[tactic(auto, using(crate::proofs::Changes::clean_host))]
    pub fn new(host: &'a mut H, scope: Scope) -> ScopedHost<'a, H>
        requires fits { longest_scoped_name ≤ H.longest_name }
        requires ready { IfSome (H.told host.old) (λ s. s.pending ≡ settled) }
        ensures same_reference { result.host.ghost_name ≡ host.entry.ghost_name }
        ensures host { result.host.now ≡ host.old }
        ensures scope { result.scope ≡ scope }
        ensures ready { IfSome (option_map (seen scope) (H.told result.host.now))
            (λ s. s.pending ≡ settled) }
    {
        ScopedHost {
            host,
            scope,
            is_settled: true,
        }
    }
}

impl<'a, H: Host> Host for ScopedHost<'a, H> {
    ghost use Rattle.std.specs.Prelude.{◌≡◌, option_map, refl};
    ghost use Rattle.std.proofs.Common.{subst, ◌∙◌};
    ghost use Rattle.host_core.specs.Names.{longest_plain_name};
    ghost use Rattle.scopes.specs.Laws.{keeps_further, keeps_itself, now_seen, seen_now};
    ghost use Rattle.scopes.specs.Views.{IsSeen, KeepsOthers, seen};

    ghost told = { λ h. option_map (seen h.scope) (H.told h.host.now) };

    ghost counts = { λ h. H.counts h.host.now };

    ghost longest_name = { longest_plain_name };

    ghost moment = { λ h. H.moment h.host.now };

    ghost left_since = { λ h t left. IsSeen h.scope (H.left_since h.host.now t) left };

    ghost goes_on = { λ a b. (b.host.ghost_name ≡ a.host.ghost_name) × (b.scope ≡ a.scope)
        × H.goes_on a.host.now b.host.now
        × KeepsOthers H.told H.moment H.left_since a.scope a.host.now b.host.now };

    ghost counts_now = { λ h t left le may. seen_now h.scope (H.told h.host.now) left
        (λ whole now. H.counts_now h.host.now t whole le now) may };

    ghost only_now = { λ h left since. now_seen h.scope (H.told h.host.now) left
        (λ whole now. H.only_now h.host.now whole now) since };

    ghost begins = { λ h. (
      refl,
      refl,
      H.begins h.host.now,
      keeps_itself H.told H.moment H.left_since h.scope h.host.now,
    ) };

    ghost continues = { λ a b c first second. (
      second.0 ∙ first.0,
      second.1 ∙ first.1,
      H.continues a.host.now b.host.now c.host.now first.2 second.2,
      keeps_further H.told H.moment H.left_since a.scope a.host.now b.host.now c.host.now first.3
          (subst (λ s. KeepsOthers H.told H.moment H.left_since s b.host.now c.host.now) first.1
          second.3),
    ) };

    fn input(&mut self, alloc: Global, path: &str, limit: u64) -> Result<Input, HostError> {
        self.host.input(alloc, path, limit)
    }

    fn list(&mut self, alloc: Global) -> Result<Names, HostError> {
        let listed = self.host.list(alloc);
        plain_names(alloc, self.scope, listed)
    }

    fn read(&mut self, alloc: Global, name: &str) -> Result<Option<Vec<u8>>, HostError> {
        let file = file_name(self.scope, name);
        self.host.read(alloc, file.as_str())
    }

    fn write(&mut self, name: &str, bytes: &[u8]) -> Result<(), Failed> {
        let file = file_name(self.scope, name);
        self.is_settled = false;
        self.host.write(file.as_str(), bytes)
    }

    fn sync(&mut self, name: &str) -> Result<(), Failed> {
        let file = file_name(self.scope, name);
        self.is_settled = false;
        self.host.sync(file.as_str())
    }

    fn rename(&mut self, from: &str, to: &str) -> Result<(), Failed> {
        let from = file_name(self.scope, from);
        let to = file_name(self.scope, to);
        self.is_settled = false;
        self.host.rename(from.as_str(), to.as_str())
    }

    fn remove(&mut self, name: &str) -> Result<(), Failed> {
        let file = file_name(self.scope, name);
        self.is_settled = false;
        self.host.remove(file.as_str())
    }

    fn settle(&mut self) -> Result<(), Failed> {
        if self.is_settled {
            return Ok(());
        }
        self.host.settle()
    }

    fn print(&mut self, bytes: &[u8]) -> Result<(), Failed> {
        self.is_settled = false;
        self.host.print(bytes)
    }

    fn restart(&mut self, service: &str) -> Result<(), Failed> {
        self.is_settled = false;
        self.host.restart(service)
    }
}
