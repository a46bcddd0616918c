//! Where a name stands in a list that is sorted by names.
ghost use Rattle.std.specs.Prelude.{◌≡◌, map, IfOk, IfErr};
ghost use Rattle.host_core.specs.Names.{name_cmp};
ghost use Rattle.conf_doc.specs.Indexes.{IsAt, IsGap};
ghost use Rattle.conf_doc.specs.Pairs.{IsRising};
ghost use Rattle.conf_doc.specs.Shared.{pairs_of};
ghost use Rattle.conf_doc.specs.Trees.{named_document};

use crate::Tree;
use host_core::Txt;
use std::cmp::Ordering;
use std::rc::Rc;

/// The index of the member of that name, or else the index where it would go.
pub(crate) fn index_of_member(members: &[(Txt, Tree)], name: &str) -> Result<usize, usize>
    requires { IsRising (map named_document members.now) }
    ensures found { IfOk result (IsAt (map named_document members.now) name.now) }
    ensures absent { IfErr result (IsGap (map named_document members.now) name.now) }
{
    members.binary_search_by(
        |member| -> Ordering
            ensures { result ≡ name_cmp member.now.0 name.entry.now }
        { member.0.as_str().cmp(name) },
    )
}

/// The same in a list of shared pairs.
pub(crate) fn index_of_pair<X>(pairs: &[Rc<(Txt, X)>], name: &str) -> Result<usize, usize>
    requires { IsRising (pairs_of pairs.now) }
    ensures found { IfOk result (IsAt (pairs_of pairs.now) name.now) }
    ensures absent { IfErr result (IsGap (pairs_of pairs.now) name.now) }
{
    pairs.binary_search_by(
        |pair| -> Ordering
            ensures { result ≡ name_cmp pair.now.value.0 name.entry.now }
        { pair.as_ref().0.as_str().cmp(name) },
    )
}
