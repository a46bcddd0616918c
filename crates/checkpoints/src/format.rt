//! Format 2 of a checkpoint's file: a map with the members `config`, `format` and `sequence`.
ghost use Rattle.std.specs.Prelude.{◌≡◌, IfOk, Some, None, bytes_eq, decimal, if◌then◌else◌, option_map};
ghost use Rattle.conf_doc.specs.Pairs.{find};
ghost use Rattle.conf_doc.specs.Trees.{document};
ghost use Rattle.checkpoints.specs.Formats.{config_member, has_format_2 as is_format_2, members_in, number_in as number_within, number_of, text_at as text_of};

use conf_doc::{Members, Tree};
use host_core::Memory;
use std::alloc::Global;

/// The member of the configuration.
pub(crate) const CONFIG: &str = "config";

/// The member that names the format.
pub(crate) const FORMAT: &str = "format";

/// The member of the sequence number.
pub(crate) const SEQUENCE: &str = "sequence";

/// How format 2 is named.
pub(crate) const FORMAT_2: &str = "2";

/// How many members there are.
const MEMBERS: usize = 3;

/// The sequence number of a tree of format 2, or None of any other.
pub(crate) fn number_in(alloc: Global, tree: &Tree) -> Result<Option<u32>, Memory>
    ensures { IfOk result (λ n. n ≡ number_within (members_in (document tree.now))) }
{
    match tree {
        Tree::Map(members) => number_among(alloc, members),
        _ => Ok(None),
    }
}

/// The configuration's member in a map, which is given up for it, or None where there is none.
pub(crate) fn take_config(tree: Tree) -> Option<Tree>
    ensures { option_map document result ≡ find config_member (members_in (document tree)) }
{
    match tree {
        Tree::Map(mut members) => members.take(CONFIG),
        other => {
            drop(other);
            None
        }
    }
}

/// The sequence number among members, or None where they aren't those of format 2.
fn number_among(alloc: Global, members: &Members) -> Result<Option<u32>, Memory>
    ensures { IfOk result (λ n. n ≡ number_within members.now) }
{
    if !has_format_2(members) {
        return Ok(None);
    }
    match text_at(members, SEQUENCE) {
        Some(digits) => read_number(alloc, digits),
        None => Ok(None),
    }
}

/// Whether there are three members, one of which names the format.
fn has_format_2(members: &Members) -> bool
    ensures { result ≡ is_format_2 members.now }
{
    if members.len() != MEMBERS {
        return false;
    }
    match text_at(members, FORMAT) {
        Some(format) => FORMAT_2 == format,
        None => false,
    }
}

/// The text that a member is, or None where there is no such member or it is no text.
fn text_at<'a>(members: &'a Members, name: &str) -> Option<&'a str>
    ensures { option_map (λ t. t.now) result ≡ text_of name.now members.now }
{
    match members.find(name) {
        Some(Tree::Text(text)) => Some(text.as_str()),
        _ => None,
    }
}

/// The number that a text is in decimal, without leading zeros.
fn read_number(alloc: Global, digits: &str) -> Result<Option<u32>, Memory>
    ensures { IfOk result (λ n. n ≡ number_of digits.now) }
{
    match digits.parse::<u32>() {
        Ok(number) => if_decimal(alloc, number, digits),
        Err(_) => Ok(None),
    }
}

/// A number, where the text is its decimal: one with a sign or with leading zeros isn't.
fn if_decimal(alloc: Global, number: u32, digits: &str) -> Result<Option<u32>, Memory>
    ensures { IfOk result
        (λ n. n ≡ (if bytes_eq (decimal number) digits.now then Some number else None)) }
{
    let text = format!(in alloc; "{number}")?;
    if text.as_str() == digits {
        Ok(Some(number))
    } else {
        Ok(None)
    }
}
