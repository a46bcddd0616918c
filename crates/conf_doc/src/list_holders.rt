//! Whether entries hold lists: of a table that holds none the items of lists needn't be looked for.
ghost use Rattle.std.specs.Prelude.{◌≡◌, length, IfSome, IsTrue};
ghost use Rattle.conf_doc.specs.ListHolders.{HasNoList, HaveNoList, IsText};

use crate::sorted::Sorted;
use crate::{Entry, Value};

/// Whether a value is a text.
fn is_text(value: &Value) -> bool
    ensures { IsTrue result → IsText value.now }
{
    match value {
        Value::Text(_) => true,
        Value::List(_) => false,
    }
}

/// Whether each value of an entry is a text.
fn holds_no_list(entry: &Entry) -> bool
    ensures { IsTrue result → HasNoList entry.now }
{
    for i in 0..entry.len() {
        if !is_text(entry.pair_at(i).1) {
            return false;
        }
    }
    true
}

/// Whether entries that are known to hold no list are so with one more, where there is one.
pub(crate) fn still_hold_no_list(are_known: bool, entry: &Option<Entry>) -> bool
    ensures before { IsTrue result → IsTrue are_known }
    ensures entry { IsTrue result → IfSome entry.now HasNoList }
{
    if !are_known {
        return false;
    }
    match entry {
        Some(entry) => holds_no_list(entry),
        None => true,
    }
}

/// Whether none of some entries holds a list.
pub(crate) fn hold_no_list(list: &Sorted<Entry>) -> bool
    ensures { IsTrue result → HaveNoList list.now }
{
    for i in 0..list.len() {
        if !holds_no_list(&list.pair_at(i).1) {
            return false;
        }
    }
    true
}
