//! The text of a configuration's file, written from its tree.
ghost use Rattle.std.specs.Prelude.{◌≡◌, ◌++◌, ◌∷◌, IfOk, OnOk};
ghost use Rattle.json.specs.Token.{key};
ghost use Rattle.conf_doc.specs.Document.{items_of, list, members_of, object};
ghost use Rattle.conf_doc.specs.Texts.{document_tokens};
ghost use Rattle.conf_doc.specs.Trees.{document};
ghost use Rattle.gcu_output.specs.Printing.{text_in_lines};

use conf_doc::{Items, Members, Tree};
use host_core::Memory;
use json::{Pretty, Token};
use std::alloc::{AllocError, Global};

/// The text of a tree: a line for each item and member, two spaces deeper for each level, and a line feed.
pub(crate) fn tree_text(alloc: Global, tree: &Tree) -> Result<Vec<u8>, Memory>
    ensures { IfOk result (λ b. b.items ≡ text_in_lines (document tree.now)) }
{
    let mut text = Pretty::new(alloc);
    write_tree(tree, &mut text)?;
    let mut bytes = text.into_inner();
    bytes.push(b'\n')?;
    Ok(bytes)
}

#[cycle(writing)]
fn write_tree(tree: &Tree, out: &mut Pretty) -> Result<(), AllocError>
    ensures { OnOk result (out.new ≡ out.old ++ document_tokens (document tree.now)) }
{
    match tree {
        Tree::Text(text) => out.token(Token::String(text.as_str())),
        Tree::List(items) => write_items(items, out),
        Tree::Map(members) => write_members(members, out),
    }
}

#[cycle(writing)]
fn write_items(items: &Items, out: &mut Pretty) -> Result<(), AllocError>
    ensures { OnOk result (out.new ≡ out.old ++ document_tokens (list (items_of items.now))) }
{
    out.token(Token::BeginArray)?;
    for i in 0..items.len() {
        write_tree(items.at(i), out)?;
    }
    out.token(Token::EndArray)?;
    Ok(())
}

#[cycle(writing)]
fn write_members(members: &Members, out: &mut Pretty) -> Result<(), AllocError>
    ensures { OnOk result (out.new ≡ out.old ++ document_tokens (object (members_of members.now))) }
{
    out.token(Token::BeginObject)?;
    for i in 0..members.len() {
        out.token(Token::Key(members.name_at(i)))?;
        write_tree(members.at(i), out)?;
    }
    out.token(Token::EndObject)?;
    Ok(())
}
