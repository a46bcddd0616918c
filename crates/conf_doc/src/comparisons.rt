//! Sorted lists compared and hashed: pair by pair, the name before what it names.
ghost use Rattle.std.specs.Prelude.{refl};
ghost use Rattle.std.specs.Cmp.{partial_order_from_agreeing_total};
ghost use Rattle.std.specs.Ordering.{as_partial_cmp};
ghost use Rattle.conf_doc.specs.Order.{pairs_cmp, pairs_eq, pairs_fed};
ghost use Rattle.conf_doc.specs.OrderLaws.{pairs_alike, pairs_equiv, pairs_per, pairs_tied, pairs_total};

use crate::sorted::Sorted;
use std::cmp::Ordering;
use std::hash::{Hash, Hasher};

impl<X: PartialEq> PartialEq for Sorted<X> {
    ghost eq = { pairs_eq X.eq };

    ghost laws = { pairs_per X.laws };

    fn eq(&self, other: &Sorted<X>) -> bool {
        self.pairs() == other.pairs()
    }
}

impl<X: Eq> Eq for Sorted<X> {
    ghost laws = { pairs_equiv X.Eq.laws };
}

impl<X: Ord> PartialOrd for Sorted<X> {
    ghost partial_cmp = { as_partial_cmp (pairs_cmp X.cmp) };

    ghost laws = { partial_order_from_agreeing_total (pairs_cmp X.cmp) (pairs_total X.total)
        (λ x y. refl) (pairs_tied X.cmp X.matches_eq) };

    fn partial_cmp(&self, other: &Sorted<X>) -> Option<Ordering> {
        Some(self.cmp(other))
    }
}

impl<X: Ord> Ord for Sorted<X> {
    ghost cmp = { pairs_cmp X.cmp };

    ghost total = { pairs_total X.total };

    ghost matches_partial_cmp = { λ x y. refl };

    ghost matches_eq = { pairs_tied X.cmp X.matches_eq };

    fn cmp(&self, other: &Sorted<X>) -> Ordering {
        self.pairs().cmp(&other.pairs())
    }
}

impl<X: Hash> Hash for Sorted<X> {
    ghost hash_input = { pairs_fed X.hash_input };

    ghost respects_eq = { (pairs_alike (record { fed = X.respects_eq })).fed };

    fn hash<H: Hasher>(&self, state: &mut H) {
        self.pairs().hash(state);
    }
}
