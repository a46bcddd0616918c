//! Listed moves ordered as values, so that std sorts them.
ghost use Rattle.std.specs.Prelude.{refl};
ghost use Rattle.std.specs.Cmp.{eq_by_cmp_equiv, partial_equiv_from_equiv, partial_order_from_agreeing_total};
ghost use Rattle.std.specs.Ordering.{as_partial_cmp, eq_by_cmp};
ghost use Rattle.move_core.specs.ListedOrder.{listed_cmp};
ghost use Rattle.move_core.specs.ListedOrderLaws.{listed_total};

use crate::{Ranked, cmp_listed};
use std::cmp::Ordering;

impl PartialEq for Ranked {
    ghost eq = { eq_by_cmp listed_cmp };

    ghost laws = { partial_equiv_from_equiv (eq_by_cmp_equiv listed_total) };

    fn eq(&self, other: &Ranked) -> bool {
        cmp_listed(self, other).is_eq()
    }
}

impl Eq for Ranked {
    ghost laws = { eq_by_cmp_equiv listed_total };
}

impl PartialOrd for Ranked {
    ghost partial_cmp = { as_partial_cmp listed_cmp };

    ghost laws = { partial_order_from_agreeing_total listed_cmp listed_total (λ x y. refl)
        (λ x y. refl) };

    fn partial_cmp(&self, other: &Ranked) -> Option<Ordering> {
        Some(cmp_listed(self, other))
    }
}

impl Ord for Ranked {
    ghost cmp = { listed_cmp };

    ghost total = { listed_total };

    ghost matches_partial_cmp = { λ x y. refl };

    ghost matches_eq = { λ x y. refl };

    fn cmp(&self, other: &Ranked) -> Ordering {
        cmp_listed(self, other)
    }
}
