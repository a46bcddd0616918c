//! Which tables may refer to a table, by the types of their leaves alone.
ghost use Rattle.std.specs.Prelude.{◌≡◌, true, IsTrue};
ghost use Rattle.std.specs.List.{list_any};
ghost use Rattle.ref_index.specs.Referring.{may_refer, member_refers, shape_refers, type_refers};
ghost use Rattle.yang_types.specs.DataTypes.{data_type};

use host_core::Sequence;
use yang_model::{FieldRule, KeyLeaf, Models, Shape};
use yang_types::{Ty, Types};

/// Whether a member of a union may refer to a table. A union within it isn't looked into.
fn member_refers(ty: &Ty, to: &str) -> bool
    ensures { result ≡ member_refers to.now (data_type ty.now) }
{
    match ty {
        Ty::Ref(target, _) => target.table.as_str() == to,
        Ty::Union(_) => true,
        _ => false,
    }
}

/// Whether one of some members may.
fn members_refer(types: &Types, to: &str) -> bool
    ensures { result ≡ list_any (member_refers to.now) types.now }
{
    for i in 0..types.len() {
        if member_refers(types.at(i), to) {
            return true;
        }
    }
    false
}

/// Whether a leaf of a type may.
fn type_refers(ty: &Ty, to: &str) -> bool
    ensures { result ≡ type_refers to.now (data_type ty.now) }
{
    match ty {
        Ty::Union(types) => members_refer(types, to),
        _ => member_refers(ty, to),
    }
}

/// Whether one of some key leaves may.
fn keys_refer(leaves: &Sequence<KeyLeaf>, to: &str) -> bool
    ensures { result ≡ list_any (λ leaf. type_refers to.now (data_type leaf.ty)) leaves.now }
{
    for i in 0..leaves.len() {
        if type_refers(&leaves.at(i).ty, to) {
            return true;
        }
    }
    false
}

/// Whether one of some other leaves may.
fn fields_refer(rules: &Sequence<FieldRule>, to: &str) -> bool
    ensures { result ≡ list_any (λ rule. type_refers to.now (data_type rule.ty)) rules.now }
{
    for i in 0..rules.len() {
        if type_refers(&rules.at(i).ty, to) {
            return true;
        }
    }
    false
}

/// Whether an entry of a shape may.
fn shape_refers(shape: &Shape, to: &str) -> bool
    ensures { result ≡ shape_refers to.now shape.now }
{
    if keys_refer(&shape.keys, to) {
        return true;
    }
    fields_refer(&shape.fields, to)
}

/// Whether an entry of a table may.
pub(crate) fn table_refers(models: &Models, table: &str, to: &str) -> bool
    ensures { may_refer models.now table.now to.now ≡ true → IsTrue result }
{
    for place in 0..u32::MAX {
        match models.shape_at(table, place) {
            Some(shape) => {
                if shape_refers(shape, to) {
                    return true;
                }
            }
            None => return false,
        }
    }
    true
}
