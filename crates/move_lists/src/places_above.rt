//! Whether two moves have the same place above.
ghost use Rattle.std.specs.Prelude.{◌≡◌, ◌<◌, length, slice_get, IsTrue};
ghost use Rattle.move_core.specs.Extensions.{upper, upper_place};

use conf_doc::Path;
use move_core::Move;

/// Whether two paths have the same name at an index.
fn is_same_at(a: &Path, b: &Path, i: usize) -> bool
    requires a { i < length a.now }
    requires b { i < length b.now }
    ensures { IsTrue result → slice_get a.now i ≡ slice_get b.now i }
{
    a.name_at(i) == b.name_at(i)
}

/// Whether two places of two or three names have the same place one name shorter. It takes no memory.
fn is_same_upper(a: &Path, b: &Path) -> bool
    ensures { IsTrue result → upper a.now ≡ upper b.now }
{
    let names = a.len();
    if b.len() != names {
        return false;
    }
    match names {
        2 => is_same_at(a, b, 0),
        3 => is_same_at(a, b, 0) && is_same_at(a, b, 1),
        _ => false,
    }
}

/// Whether two moves have the same place above, of an item the field that holds its list. It takes no memory, and doesn't
/// know it of an item and of something else.
pub(crate) fn is_same_above(a: &Move, b: &Move) -> bool
    ensures { IsTrue result → upper_place a.now ≡ upper_place b.now }
{
    match (a.index(), b.index()) {
        (None, None) => is_same_upper(a.place(), b.place()),
        (Some(_), Some(_)) => a.place().same(b.place()),
        _ => false,
    }
}
