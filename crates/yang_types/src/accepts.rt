//! Whether a type accepts a text.

ghost use Rattle.std.specs.Prelude.{◌↔◌, IsTrue, Contains};
ghost use Rattle.yang_types.specs.Accepts.{Accepts, AcceptsAny};
ghost use Rattle.yang_types.specs.DataType.{types_of};
ghost use Rattle.yang_types.specs.DataTypes.{data_type};

use crate::addresses::is_builtin;
use crate::numbers::{has_length_within_any, is_number_within, is_number_within_any};
use crate::types::{Ty, Types};
use host_core::Txt;

/// Whether a type accepts a text by itself: a leafref accepts what the type of the leaf that it names
/// accepts. It takes no memory, and walks over the text once for each part of the type. What restricts another
/// type is passed in a loop.
#[cycle(accepting)]
pub fn accepts_plain(ty: &Ty, text: &str) -> bool
    ensures { IsTrue result ↔ Accepts (data_type ty.now) text.now }
{
    let mut at = ty;
    loop {
        match at {
            Ty::Text => return true,
            Ty::Number(bounds) => return is_number_within(text, bounds),
            Ty::Length(inner, parts) => {
                if !has_length_within_any(text, parts.items()) {
                    return false;
                }
                at = inner.ty();
            }
            Ty::Range(inner, parts) => {
                if !is_number_within_any(text, parts.items()) {
                    return false;
                }
                at = inner.ty();
            }
            Ty::Match(inner, pattern) => {
                if !pattern.matches(text) {
                    return false;
                }
                at = inner.ty();
            }
            Ty::OneOf(names) => return has_name(names.items(), text),
            Ty::Truth => return text == "true" || text == "false",
            Ty::Builtin(builtin) => return is_builtin(*builtin, text),
            Ty::Ref(_, inner) => at = inner.ty(),
            Ty::Union(types) => return accepts_any(types, text),
        }
    }
}

/// Whether some of the types accepts a text.
#[cycle(accepting)]
fn accepts_any(types: &Types, text: &str) -> bool
    ensures { IsTrue result ↔ AcceptsAny (types_of types.now) text.now }
{
    let members = types.items();
    for ty in members {
        if accepts_plain(ty, text) {
            return true;
        }
    }
    false
}

/// Whether a text is one of the names.
fn has_name(names: &[Txt], text: &str) -> bool
    ensures { IsTrue result ↔ Contains names.now text.now }
{
    names.iter().any(|name| name.as_str() == text)
}
