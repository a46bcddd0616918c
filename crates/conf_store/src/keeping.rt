//! Patches that leave a configuration one, whatever it is.
ghost use Rattle.std.specs.Prelude.{◌≡◌};
ghost use Rattle.std.specs.List.{list_all};
ghost use Rattle.conf_doc.specs.Trees.{document};
ghost use Rattle.patch_core.specs.Operation.{operation_of, operations};
ghost use Rattle.conf_store.specs.Shapes.{fits_at, keeps_shape};

use crate::shapes::{Shaped, is_named, is_text};
use conf_doc::{Config, Entry, Table, Tree, Value};
use host_core::Txt;
use patch_core::{Op, Patch};

/// Whether each operation of a patch tells by itself that it leaves a configuration one.
pub(crate) fn keep_shape(patch: &Patch) -> bool
    ensures { result ≡ list_all keeps_shape (operations patch.now) }
{
    for op in patch.ops.items() {
        if !keeps_shape(op) {
            return false;
        }
    }
    true
}

/// Whether an operation tells by itself that it leaves a configuration one.
fn keeps_shape(op: &Op) -> bool
    ensures { result ≡ keeps_shape (operation_of op.now) }
{
    match op {
        Op::Add(path, value) => fits_at(path.tokens.items(), value),
        Op::Remove(_) => true,
        Op::Replace(path, value) => fits_at(path.tokens.items(), value),
        Op::Move { .. } => false,
        Op::Copy { .. } => false,
        Op::Test(_, _) => true,
    }
}

/// Whether a tree leaves a configuration one when it is put where the tokens lead.
fn fits_at(path: &[Txt], value: &Tree) -> bool
    ensures { result ≡ fits_at path.now (document value.now) }
{
    match path {
        [] => Config::is_shaped(value),
        [name] => is_named::<Table>(name.as_str(), value),
        [_, key] => is_named::<Entry>(key.as_str(), value),
        [_, _, field] => is_named::<Value>(field.as_str(), value),
        [_, _, _, _] => is_text(value),
        _ => false,
    }
}
