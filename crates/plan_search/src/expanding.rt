//! The successor function of a search: the moves at a configuration, part by part, and what an allowed one makes of it.
ghost use Rattle.std.specs.Prelude.{◌≡◌, ◌<◌, List, IfOk, MatchOption};
ghost use Rattle.conf_doc.specs.declared.configuration.Config.{Config as Configuration};
ghost use Rattle.move_core.specs.Moves.{step};
ghost use Rattle.move_core.specs.declared.moves.Generated.{Generated};
ghost use Rattle.move_lists.specs.declared.firsts.First.{First};
ghost use Rattle.plan_search.specs.Problems.{Problem, IsLawful, IsPart, part_count};

use crate::hashed::Hashed;
use conf_doc::Config;
use host_core::Memory;
use move_core::Move;
use move_lists::{Firsts, Offers};
use std::alloc::Global;

/// Into how many parts the list at a configuration is divided.
pub(crate) const PART_COUNT: u8 = 8;

/// A search's problem, asked by a kit that may change with each call.
pub(crate) trait Expanding {
    /// What the calls change.
    type Kit;

    /// What the search is about.
    ghost problem: { Self → Problem };

    /// The kit can be asked.
    ghost is_ready: { Self → Self.Kit → Type 0 };

    /// What the first part of the list at a configuration is made from.
    ghost are_offers: { Self → Configuration → List Generated → Type 0 };

    /// What its later parts are made from.
    ghost are_firsts: { Self → Configuration → List First → Type 0 };

    /// Where the search begins.
    fn start(&self) -> &Config
        ensures { result.now ≡ (problem self.now).start };

    /// Where it is to end.
    fn goal(&self) -> &Hashed
        ensures { result.now ≡ (problem self.now).goal };

    /// What the first part of the list at a configuration is made from.
    fn offers(&self, alloc: Global, kit: &mut Self::Kit, cur: &Config) -> Result<Offers, Memory>
        requires ready { is_ready self.now kit.old }
        requires fit { (problem self.now).IsFit cur.now }
        ensures ready { is_ready self.now kit.new }
        ensures offers { IfOk result (are_offers self.now cur.now) };

    /// The first part of the list: the move that the list begins with, alone, or nothing.
    fn leading(&self, alloc: Global, cur: &Config, offers: &Offers) -> Result<Vec<Move>, Memory>
        requires offers { are_offers self.now cur.now offers.now }
        ensures part { IfOk result (λ ms. IsPart (problem self.now) cur.now 0 ms.items) };

    /// What the later parts are made from.
    fn firsts(&self, alloc: Global, cur: &Config, offers: Offers) -> Result<Firsts, Memory>
        requires offers { are_offers self.now cur.now offers }
        ensures firsts { IfOk result (are_firsts self.now cur.now) };

    /// The part of the list that follows that many, at least one: its moves, in the order in which they are tried.
    fn list(
        &self,
        alloc: Global,
        kit: &mut Self::Kit,
        cur: &Config,
        firsts: &Firsts,
        part: u8,
    ) -> Result<Vec<Move>, Memory>
        requires ready { is_ready self.now kit.old }
        requires fit { (problem self.now).IsFit cur.now }
        requires firsts { are_firsts self.now cur.now firsts.now }
        requires some { 0 < part }
        requires part { part < part_count }
        ensures ready { is_ready self.now kit.new }
        ensures part { IfOk result (λ ms. IsPart (problem self.now) cur.now part ms.items) };

    /// What a listed move makes of the configuration, or None where it isn't allowed.
    fn try_move(
        &self,
        alloc: Global,
        kit: &mut Self::Kit,
        cur: &Config,
        mv: &Move,
    ) -> Result<Option<Config>, Memory>
        requires ready { is_ready self.now kit.old }
        requires fit { (problem self.now).IsFit cur.now }
        requires listed { (problem self.now).IsListed cur.now mv.now }
        ensures ready { is_ready self.now kit.new }
        ensures next { IfOk result (λ found. MatchOption found
            (¬ (problem self.now).IsAllowed cur.now mv.now)
            (λ next. (problem self.now).IsAllowed cur.now mv.now × (next ≡ step cur.now mv.now))) };

    /// An allowed move is a listed one, after it the search can go on, and the list has an order.
    ghost lawful: { (s : Self) → IsLawful (problem s) };
}
