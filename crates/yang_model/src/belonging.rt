//! Which shape an entry belongs to.
ghost use Rattle.std.specs.Prelude.{◌≡◌, ◌↔◌, ◌<◌, ◌^◌, length, IsTrue, IsSomeAnd};
ghost use Rattle.std.specs.List.{AllZip};
ghost use Rattle.key_split.specs.Key.{key_parts};
ghost use Rattle.yang_model.specs.Belongs.{AcceptsPart, Fits, Belongs};

use crate::shapes::{IndexedShape, KeyLeaf, Shape};
use key_split::KeyView;
use yang_types::accepts_plain;

/// Whether there is a part, and its leaf accepts it.
fn is_accepted(leaf: &KeyLeaf, part: Option<&str>) -> bool
    ensures { IsTrue result ↔ IsSomeAnd part.entry (λ p. AcceptsPart leaf.now p.now) }
{
    match part {
        Some(part) => accepts_plain(&leaf.ty, part),
        None => false,
    }
}

/// Whether a key has as many parts as there are key leaves, each accepted by its leaf.
fn has_accepted_parts(keys: &[KeyLeaf], key: &KeyView) -> bool
    ensures { IsTrue result ↔ AllZip AcceptsPart keys.now (key_parts key.now) }
{
    if key.parts() != keys.len() {
        return false;
    }
    for (i, leaf) in keys.iter().enumerate() {
        if !is_accepted(leaf, key.part(i)) {
            return false;
        }
    }
    true
}

/// Whether a shape fits a key.
fn fits(shape: &Shape, key: &KeyView) -> bool
    ensures { IsTrue result ↔ Fits shape.now key.now }
{
    if shape.fixed {
        key.key() == shape.name.as_str()
    } else {
        has_accepted_parts(shape.keys.items(), key)
    }
}

/// The first shape that fits a key.
pub(crate) fn first_that_fits(shapes: &[IndexedShape], key: &KeyView) -> Option<u32>
    requires { length shapes.now < 2 ^ 32 }
    ensures { Belongs shapes.now key.now result }
{
    for (i, shape) in shapes.iter().enumerate() {
        if fits(shape.shape(), key) {
            return Some(i as u32);
        }
    }
    None
}
