//! Whether the keys of a table have few parts, by the models alone.
ghost use Rattle.std.specs.Prelude.{IsTrue};
ghost use Rattle.move_extend.specs.KeyLengths.{AreKeysShort, IsShort};

use yang_model::{Models, Shape};

/// Whether a shape is a list of at most two key leaves.
fn is_short(shape: &Shape) -> bool
    ensures { IsTrue result → IsShort shape.now }
{
    if shape.fixed {
        return false;
    }
    shape.keys.len() <= 2
}

/// Whether each key of a table that belongs to a shape has at most two parts.
pub(crate) fn has_short_keys(models: &Models, table: &str) -> bool
    ensures { IsTrue result → AreKeysShort models.now table.now }
{
    for place in 0..u32::MAX {
        match models.shape_at(table, place) {
            Some(shape) => {
                if !is_short(shape) {
                    return false;
                }
            }
            None => return true,
        }
    }
    false
}
