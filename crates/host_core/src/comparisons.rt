//! Texts and lists compared and hashed: texts by their bytes, lists item by item.
ghost use Rattle.std.specs.Prelude.{◌≡◌, refl};
ghost use Rattle.std.proofs.Common.{rules};
ghost use Rattle.std.specs.Cmp as laws;
ghost use Rattle.std.specs.Cmp.Lexicographic.{pointwise, slice_cmp, slice_partial_cmp, lists_equiv, lists_agrees, lists_total, lists_ties, lists_per, lists_po, nat_list_eq_equiv, nat_list_cmp_total, texts_ties, texts_po};
ghost use Rattle.std.specs.Cmp.Rules.{hashing};
ghost use Rattle.std.specs.Hash as fed;
ghost use Rattle.std.specs.Hash.{items_Alike};
ghost use Rattle.std.specs.Ordering.{as_partial_cmp};
ghost use Rattle.std.specs.Str.{bytes_eq};
ghost use Rattle.host_core.specs.Names.{name_cmp};

use crate::{Sequence, Txt};
use std::cmp::Ordering;
use std::hash::{Hash, Hasher};

impl PartialEq for Txt {
    ghost eq = { bytes_eq };

    ghost laws = { laws.partial_equiv_from_equiv nat_list_eq_equiv };

    fn eq(&self, other: &Txt) -> bool {
        self.as_str() == other.as_str()
    }
}

impl Eq for Txt {
    ghost laws = { nat_list_eq_equiv };
}

impl PartialOrd for Txt {
    ghost partial_cmp = { as_partial_cmp name_cmp };

    ghost laws = { texts_po };

    fn partial_cmp(&self, other: &Txt) -> Option<Ordering> {
        Some(self.cmp(other))
    }
}

impl Ord for Txt {
    ghost cmp = { name_cmp };

    ghost total = { nat_list_cmp_total };

    ghost matches_partial_cmp = { λ x y. refl };

    ghost matches_eq = { texts_ties };

    fn cmp(&self, other: &Txt) -> Ordering {
        self.as_str().cmp(other.as_str())
    }
}

impl Hash for Txt {
    ghost hash_input = { fed.str };

    ghost respects_eq = { Prim.search (hashing, rules) };

    fn hash<H: Hasher>(&self, state: &mut H) {
        self.as_str().hash(state);
    }
}

impl<X: PartialEq> PartialEq for Sequence<X> {
    ghost eq = { pointwise X.eq };

    ghost laws = { lists_per X.laws };

    fn eq(&self, other: &Sequence<X>) -> bool {
        self.items() == other.items()
    }
}

impl<X: Eq> Eq for Sequence<X> {
    ghost laws = { lists_equiv X.Eq.laws };
}

impl<X: PartialOrd> PartialOrd for Sequence<X> {
    ghost partial_cmp = { slice_partial_cmp X.partial_cmp };

    ghost laws = { lists_po X.PartialOrd.laws };

    fn partial_cmp(&self, other: &Sequence<X>) -> Option<Ordering> {
        self.items().partial_cmp(&other.items())
    }
}

impl<X: Ord> Ord for Sequence<X> {
    ghost cmp = { slice_cmp X.cmp };

    ghost total = { lists_total X.total };

    ghost matches_partial_cmp = { λ x y. lists_agrees X.matches_partial_cmp x y };

    ghost matches_eq = { λ x y. lists_ties X.cmp X.matches_eq x y };

    fn cmp(&self, other: &Sequence<X>) -> Ordering {
        self.items().cmp(&other.items())
    }
}

impl<X: Hash> Hash for Sequence<X> {
    ghost hash_input = { fed.slice X.hash_input };

    ghost respects_eq = { (items_Alike (record { fed = X.respects_eq })).fed };

    fn hash<H: Hasher>(&self, state: &mut H) {
        self.items().hash(state);
    }
}
