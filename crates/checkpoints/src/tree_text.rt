//! The text of a tree, a line for each item and member.
ghost use Rattle.std.specs.Prelude.{◌≡◌, ◌++◌, IfOk, OnOk};
ghost use Rattle.conf_doc.specs.Document.{items_of, list, members_of, object};
ghost use Rattle.conf_doc.specs.Texts.{document_tokens, line_feed, pretty_text};
ghost use Rattle.conf_doc.specs.Trees.{document};
ghost use Rattle.checkpoints.specs.TreeTexts.{ReadsAs};

use conf_doc::{Items, Members, Tree};
use host_core::Memory;
use json::{Pretty, Token};
use std::alloc::{AllocError, Global};

/// The text of a tree's file: two spaces deeper for each level, and a line feed at the end.
pub(crate) fn pretty_bytes(alloc: Global, tree: &Tree) -> Result<Vec<u8>, Memory>
    ensures text { IfOk result (λ b. b.items ≡ pretty_text (document tree.now) ++ line_feed) }
    ensures reads_back { IfOk result (λ b. ReadsAs b.items (document tree.now)) }
{
    let mut text = Pretty::new(alloc);
    write_tree(tree, &mut text)?;
    let mut bytes = text.into_inner();
    bytes.push(b'\n')?;
    Ok(bytes)
}

#[cycle(writing)]
fn write_tree(tree: &Tree, text: &mut Pretty) -> Result<(), AllocError>
    ensures { OnOk result (text.new ≡ text.old ++ document_tokens (document tree.now)) }
{
    match tree {
        Tree::Text(t) => text.token(Token::String(t.as_str())),
        Tree::List(items) => write_items(items, text),
        Tree::Map(members) => write_members(members, text),
    }
}

#[cycle(writing)]
fn write_items(items: &Items, text: &mut Pretty) -> Result<(), AllocError>
    ensures { OnOk result (text.new ≡ text.old ++ document_tokens (list (items_of items.now))) }
{
    text.token(Token::BeginArray)?;
    for item in items.items() {
        write_tree(item, text)?;
    }
    text.token(Token::EndArray)
}

#[cycle(writing)]
fn write_members(members: &Members, text: &mut Pretty) -> Result<(), AllocError>
    ensures { OnOk result
        (text.new ≡ text.old ++ document_tokens (object (members_of members.now))) }
{
    text.token(Token::BeginObject)?;
    for i in 0..members.len() {
        text.token(Token::Key(members.name_at(i)))?;
        write_tree(members.at(i), text)?;
    }
    text.token(Token::EndObject)
}
