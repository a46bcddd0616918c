//! The compact text of a tree.
ghost use Rattle.std.specs.Prelude.{◌≡◌, ◌++◌, ◌∷◌, [], IfOk, IsUtf8, OnOk};
ghost use Rattle.json.specs.Token.{key, string};
ghost use Rattle.conf_doc.specs.Document.{items_of, list, members_of, object};
ghost use Rattle.conf_doc.specs.Sound.{IsSound};
ghost use Rattle.conf_doc.specs.Texts.{compact, document_tokens};
ghost use Rattle.conf_doc.specs.Tokens.{Adds};
ghost use Rattle.conf_doc.specs.Trees.{document};

use crate::{Items, Members, Tree};
use host_core::Txt;
use json::Writer;
use std::alloc::{AllocError, Global};

pub(crate) fn compact_text(alloc: Global, tree: &Tree) -> Result<Vec<u8>, AllocError>
    ensures text { IfOk result (λ b. b.items ≡ compact (document tree.now)) }
    ensures sound { IfOk result (λ _. IsSound (document tree.now)) }
{
    let mut text = Writer::new(Vec::new(alloc));
    write_tree(tree, &mut text)?;
    Ok(text.into_inner())
}

#[cycle(writing)]
fn write_tree(tree: &Tree, text: &mut Writer) -> Result<(), AllocError>
    ensures added { OnOk result (Adds text.old text.new (document_tokens (document tree.now))) }
    ensures sound { OnOk result (IsSound (document tree.now)) }
{
    match tree {
        Tree::Text(t) => write_text(t, text),
        Tree::List(items) => write_items(items, text),
        Tree::Map(members) => write_members(members, text),
    }
}

#[cycle(writing)]
fn write_items(items: &Items, text: &mut Writer) -> Result<(), AllocError>
    ensures added { OnOk result (Adds text.old text.new
        (document_tokens (list (items_of items.now)))) }
    ensures sound { OnOk result (IsSound (list (items_of items.now))) }
{
    text.begin_array()?;
    for item in items.items() {
        write_tree(item, text)?;
    }
    text.end_array()
}

#[cycle(writing)]
fn write_members(members: &Members, text: &mut Writer) -> Result<(), AllocError>
    ensures added { OnOk result (Adds text.old text.new
        (document_tokens (object (members_of members.now)))) }
    ensures sound { OnOk result (IsSound (object (members_of members.now))) }
{
    text.begin_object()?;
    for (name, tree) in members.members() {
        write_name(name, text)?;
        write_tree(tree, text)?;
    }
    text.end_object()
}

fn write_text(t: &Txt, text: &mut Writer) -> Result<(), AllocError>
    ensures added { OnOk result (Adds text.old text.new (string t.now ∷ [])) }
    ensures utf8 { IsUtf8 t.now }
{
    text.string(t.as_str())
}

fn write_name(name: &Txt, text: &mut Writer) -> Result<(), AllocError>
    ensures added { OnOk result (Adds text.old text.new (key name.now ∷ [])) }
    ensures utf8 { IsUtf8 name.now }
{
    text.key(name.as_str())
}
