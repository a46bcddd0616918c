//! Which tables have a field that may want, by the types of their fields alone.
ghost use Rattle.std.specs.Prelude.{◌≡◌, IsTrue};
ghost use Rattle.move_gen.specs.WantingFields.{HasWantingField, fields_may_want, may_want};
ghost use Rattle.yang_types.specs.DataTypes.{data_type};

use yang_model::{Models, Shape};
use yang_types::Ty;

/// Whether a text of a type may have a want.
fn may_want(ty: &Ty) -> bool
    ensures { result ≡ may_want (data_type ty.now) }
{
    matches!(ty, Ty::Ref(_, _) | Ty::Union(_))
}

/// Whether a field of a shape may have one.
fn fields_may_want(shape: &Shape) -> bool
    ensures { result ≡ fields_may_want shape.now }
{
    shape.fields.items().iter().any(|rule| may_want(&rule.ty))
}

/// Whether a field of some entry of a table may.
pub(crate) fn has_wanting_field(models: &Models, table: &str) -> bool
    ensures { HasWantingField models.now table.now → IsTrue result }
{
    for place in 0..u32::MAX {
        match models.shape_at(table, place) {
            Some(shape) => {
                if fields_may_want(shape) {
                    return true;
                }
            }
            None => return false,
        }
    }
    true
}
