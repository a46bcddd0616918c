//! The trees and texts of configurations, and the texts of trees.
ghost use Rattle.std.specs.Prelude.{◌≡◌, ◌≤◌, ◌++◌, ◌∷◌, [], map, IfOk, OnOk, Ok, Some};
ghost use Rattle.json.specs.Token.{key};
ghost use Rattle.conf_doc.specs.Configuration.{entry_tree, mapping, table_tree, tree, value_tree};
ghost use Rattle.conf_doc.specs.Document.{items_of, list, members_of, object, text};
ghost use Rattle.conf_doc.specs.Reading.{reading};
ghost use Rattle.conf_doc.specs.Shaping.{shaping};
ghost use Rattle.conf_doc.specs.Texts.{ReadsBack, compact, document_tokens, file_text, line_feed};
ghost use Rattle.conf_doc.specs.Trees.{document};

use crate::sorted::Sorted;
use crate::tree_texts::compact_text;
use crate::{Config, Entry, Items, Members, Table, Tree, Value};
use host_core::{Memory, Names, Txt};
use json::{Pretty, Token};
use std::alloc::{AllocError, Global};

/// The tree that a configuration is.
pub fn tree_of(alloc: Global, config: &Config) -> Result<Tree, Memory>
    ensures tree { IfOk result (λ t. document t ≡ tree config.now) }
    ensures shapes_back { IfOk result (λ t. shaping (document t) ≡ Ok config.now) }
{
    let _ = config.len();
    let tree = config.tree(alloc)?;
    Ok(tree)
}

/// The text of a configuration's file: sorted, two spaces deeper for each level, and a line feed.
pub fn file_bytes(alloc: Global, config: &Config) -> Result<Vec<u8>, Memory>
    ensures text { IfOk result (λ b. b.items ≡ file_text config.now) }
    ensures reads_back { IfOk result (λ b. reading b.items ≡ Ok (tree config.now)) }
    ensures shapes_back { shaping (tree config.now) ≡ Ok config.now }
{
    let _ = config.len();
    let mut text = Pretty::new(alloc);
    config.write(&mut text)?;
    let mut bytes = text.into_inner();
    bytes.push(b'\n')?;
    Ok(bytes)
}

/// The compact JSON text of a tree.
pub fn tree_bytes(alloc: Global, tree: &Tree) -> Result<Vec<u8>, Memory>
    ensures text { IfOk result (λ b. b.items ≡ compact (document tree.now)) }
    ensures reads_back { IfOk result (λ b. ReadsBack b.items (document tree.now)) }
    ensures line { IfOk result (λ b. ReadsBack (b.items ++ line_feed) (document tree.now)) }
{
    let bytes = compact_text(alloc, tree)?;
    Ok(bytes)
}

/// A part of a configuration as a document.
pub(crate) trait Written {
    ghost use Rattle.conf_doc.specs.Document.{Document};

    ghost as_document: { Self → Document };

    /// The tree of the document.
    fn tree(&self, alloc: Global) -> Result<Tree, Memory>
        ensures { IfOk result (λ t. document t ≡ as_document self.now) };

    /// Writes the document's tokens.
    fn write(&self, out: &mut Pretty) -> Result<(), AllocError>
        ensures { OnOk result (out.new ≡ out.old ++ document_tokens (as_document self.now)) };
}

impl Written for Config {
    ghost as_document = { tree };

    fn tree(&self, alloc: Global) -> Result<Tree, Memory> {
        tree_of_parts(alloc, &self.tables)
    }

    fn write(&self, out: &mut Pretty) -> Result<(), AllocError> {
        write_parts(&self.tables, out)
    }
}

impl Written for Table {
    ghost as_document = { table_tree };

    fn tree(&self, alloc: Global) -> Result<Tree, Memory> {
        tree_of_parts(alloc, self.entries.list())
    }

    fn write(&self, out: &mut Pretty) -> Result<(), AllocError> {
        write_parts(self.entries.list(), out)
    }
}

impl Written for Entry {
    ghost as_document = { entry_tree };

    fn tree(&self, alloc: Global) -> Result<Tree, Memory> {
        tree_of_parts(alloc, &self.fields)
    }

    fn write(&self, out: &mut Pretty) -> Result<(), AllocError> {
        write_parts(&self.fields, out)
    }
}

impl Written for Value {
    ghost as_document = { value_tree };

    fn tree(&self, alloc: Global) -> Result<Tree, Memory> {
        match self {
            Value::Text(text) => match text.copy(alloc) {
                Ok(copy) => Ok(Tree::Text(copy)),
                Err(_) => Err(Memory),
            },
            Value::List(texts) => match items_of_texts(alloc, texts) {
                Ok(items) => Ok(Tree::List(items)),
                Err(_) => Err(Memory),
            },
        }
    }

    fn write(&self, out: &mut Pretty) -> Result<(), AllocError> {
        match self {
            Value::Text(text) => out.token(Token::String(text.as_str())),
            Value::List(texts) => write_texts(texts, out),
        }
    }
}

fn tree_of_parts<X: Written>(alloc: Global, parts: &Sorted<X>) -> Result<Tree, Memory>
    ensures { IfOk result (λ t. document t ≡ mapping X.as_document parts.now) }
{
    let mut members = Vec::new(alloc);
    for i in 0..parts.len() {
        let member = member_of(alloc, parts.pair_at(i))?;
        members.push(member)?;
    }
    Ok(Tree::Map(Members::from_sorted(members)))
}

/// The member that a pair is, its name copied.
pub(crate) fn member_of<X: Written>(alloc: Global, pair: &(Txt, X)) -> Result<(Txt, Tree), Memory>
    ensures name { IfOk result (λ m. m.0 ≡ pair.now.0) }
    ensures tree { IfOk result (λ m. document m.1 ≡ X.as_document pair.now.1) }
{
    let name = pair.0.copy(alloc)?;
    let tree = pair.1.tree(alloc)?;
    Ok((name, tree))
}

fn items_of_texts(alloc: Global, texts: &Names) -> Result<Items, Memory>
    ensures { IfOk result (λ items. items ≡ map text texts.now) }
{
    let mut items = Items::new(alloc);
    for text in texts.items() {
        let copy = text.copy(alloc)?;
        items.push(Tree::Text(copy))?;
    }
    Ok(items)
}

fn write_parts<X: Written>(parts: &Sorted<X>, out: &mut Pretty) -> Result<(), AllocError>
    ensures { OnOk result (out.new ≡ out.old ++ document_tokens (mapping X.as_document parts.now)) }
{
    out.token(Token::BeginObject)?;
    for i in 0..parts.len() {
        write_member(parts.pair_at(i), out)?;
    }
    out.token(Token::EndObject)
}

fn write_texts(texts: &Names, out: &mut Pretty) -> Result<(), AllocError>
    ensures { OnOk result (out.new
        ≡ out.old ++ document_tokens (list (items_of (map text texts.now)))) }
{
    out.token(Token::BeginArray)?;
    for text in texts.items() {
        write_text(text, out)?;
    }
    out.token(Token::EndArray)
}

fn write_member<X: Written>(pair: &(Txt, X), out: &mut Pretty) -> Result<(), AllocError>
    ensures { OnOk result (out.new
        ≡ out.old ++ key pair.now.0 ∷ document_tokens (X.as_document pair.now.1)) }
{
    out.token(Token::Key(pair.0.as_str()))?;
    pair.1.write(out)
}

fn write_text(t: &Txt, out: &mut Pretty) -> Result<(), AllocError>
    ensures { OnOk result (out.new ≡ out.old ++ document_tokens (text t.now)) }
{
    out.token(Token::String(t.as_str()))
}
