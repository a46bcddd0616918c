//! Defaults that their types don't take.
ghost use Rattle.std.specs.Prelude.{◌≡◌, Bool, List, ℕ};
ghost use Rattle.yang_text.specs.Statements.{declaration};
ghost use Rattle.yang_types.specs.DataType.{DataType, types_of};
ghost use Rattle.yang_types.specs.DataTypes.{data_type};
ghost use Rattle.yang_scope.specs.Faults.{least_of};
ghost use Rattle.yang_values.specs.Defaults.{has_leafref, have_leafref, DecidesTexts, bad_text, bad_default};

use yang_scope::{Fault, note};
use yang_text::{ModelWhy, Statement};
use yang_types::{Ty, Types, accepts_plain};

/// Whether a type is a leafref or holds one. What restricts another type is passed in a loop.
#[cycle(holding)]
pub(crate) fn has_leafref(ty: &Ty) -> bool
    ensures { result ≡ has_leafref (data_type ty.now) }
{
    let mut at = ty;
    loop {
        match at {
            Ty::Text | Ty::Number(_) | Ty::OneOf(_) | Ty::Truth | Ty::Builtin(_) => return false,
            Ty::Length(inner, _) => at = inner.ty(),
            Ty::Range(inner, _) => at = inner.ty(),
            Ty::Match(inner, _) => at = inner.ty(),
            Ty::Ref(..) => return true,
            Ty::Union(types) => return have_leafref(types),
        }
    }
}

/// Whether some of the types is a leafref or holds one.
#[cycle(holding)]
fn have_leafref(types: &Types) -> bool
    ensures { result ≡ have_leafref (types_of types.now) }
{
    let members = types.items();
    for ty in members {
        if has_leafref(ty) {
            return true;
        }
    }
    false
}

/// Whether a type accepts a text.
fn accepts(ty: &Ty, text: &str) -> bool
    ensures { (accepts : DataType → List ℕ → Bool) → DecidesTexts accepts
        → result ≡ accepts (data_type ty.now) text.now }
{
    accepts_plain(ty, text)
}

/// A text that a type doesn't take as a default.
fn note_bad_text(least: &mut Option<Fault>, ty: &Ty, file: u32, statement: &Statement, text: &str)
    ensures { (accepts : DataType → List ℕ → Bool) → DecidesTexts accepts
        → least.new ≡ least_of least.old
        (bad_text accepts file (data_type ty.now) (declaration statement.now) text.now) }
{
    if has_leafref(ty) {
        note(least, file, statement.line, ModelWhy::BadArgument);
    } else if !accepts(ty, text) {
        note(least, file, statement.line, ModelWhy::BadArgument);
    }
}

/// A default that its type doesn't take: one that it refuses, or any where it holds a leafref. It takes
/// no memory.
pub(crate) fn note_bad_default(least: &mut Option<Fault>, ty: &Ty, file: u32, statement: &Statement)
    ensures { (accepts : DataType → List ℕ → Bool) → DecidesTexts accepts
        → least.new ≡ least_of least.old
        (bad_default accepts file (data_type ty.now) (declaration statement.now)) }
{
    match &statement.argument {
        Some(text) => note_bad_text(least, ty, file, statement, text.as_str()),
        None => {}
    }
}
