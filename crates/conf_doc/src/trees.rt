//! A JSON document of texts, lists and maps.
ghost use Rattle.std.specs.Prelude.{◌≡◌, ◌<◌, ◌≤◌, [], ◌∷◌, ◌++◌, length, map, option_map, slice_get, slice_set, insert, remove, Some, Option, IfOk, IfErr, OnOk, OnErr};
ghost use Rattle.conf_doc.specs.Document.{Document};
ghost use Rattle.conf_doc.specs.Pairs.{find, put, without, IsRising};
ghost use Rattle.conf_doc.specs.Trees.{document, named_document};

use crate::indexes::index_of_member;
use host_core::{Memory, Txt};
use std::alloc::Global;
use std::marker::Model;
use std::mem;

/// A JSON document (RFC 8259) whose leaves are texts. Contracts see it as its `document`.
#[derive(Drop)]
#[cycle(tree)]
pub enum Tree {
    Text(Txt),
    List(Items),
    Map(Members),
}

/// The items of a list. Contracts see the list of their documents.
#[derive(Drop)]
#[cycle(tree)]
pub struct Items {
    items: Vec<Tree>,
}

/// The members of a map, sorted by the bytes of their names, each name once. Contracts see the list of
/// pairs of a name and a document.
#[derive(Drop)]
#[cycle(tree)]
pub struct Members {
    members: Vec<(Txt, Tree)>,
}

impl Model for Items {
    ghost use Rattle.std.specs.Prelude.{List, map};
    ghost use Rattle.std.specs.Coded.{coded_list};
    ghost use Rattle.conf_doc.specs.Coding.{coded_document};
    ghost use Rattle.conf_doc.specs.Document.{Document, items_weight, items_of};

    ghost Value = { List Document };

    ghost coded = { coded_list coded_document };

    ghost use Rattle.conf_doc.specs.Trees.{document, named_document};

    ghost view = { λ a. map document a.items.items };

    ghost size = { λ ds. items_weight (items_of ds) };

    ghost use Rattle.conf_doc.specs.Falls.{items_fall};

    ghost size_decreases = { λ a h. items_fall a.items.items };
}

impl Model for Members {
    ghost use Rattle.std.specs.Prelude.{List, map, ℕ};
    ghost use Rattle.std.specs.Coded.{coded_list, coded×, coded_ℕ};
    ghost use Rattle.conf_doc.specs.Coding.{coded_document};
    ghost use Rattle.conf_doc.specs.Document.{Document, members_weight, members_of};
    ghost use Rattle.conf_doc.specs.Pairs.{IsRising};

    ghost Value = { List (List ℕ × Document) };

    ghost coded = { coded_list (coded× (coded_list coded_ℕ) coded_document) };

    ghost use Rattle.conf_doc.specs.Trees.{document, named_document};

    ghost view = { λ a. map named_document a.members.items };

    ghost invariant = { λ a. IsRising (map named_document a.members.items) };

    ghost size = { λ ms. members_weight (members_of ms) };

    ghost use Rattle.conf_doc.specs.Falls.{members_fall};

    ghost size_decreases = { λ a h. members_fall a.members.items };
}

impl Items {
    /// No items, which take no memory.
    pub fn new(alloc: Global) -> Items
        ensures { result ≡ [] }
    {
        Items {
            items: Vec::new(alloc),
        }
    }

    /// How many items there are.
    pub fn len(&self) -> usize
        ensures { result ≡ length self.now }
    {
        self.items.len()
    }

    /// The whole list.
    pub fn items(&self) -> &[Tree]
        ensures { map document result.now ≡ self.now }
    {
        self.items.as_slice()
    }

    /// The vector of the items, with no copy.
    pub(crate) fn into_items(self) -> Vec<Tree>
        ensures { map document result.items ≡ self }
    {
        let Items { items } = self;
        items
    }

    /// The item at an index, counted from 0.
    pub fn at(&self, i: usize) -> &Tree
        requires { i < length self.now }
        ensures { slice_get self.now i ≡ Some (document result.now) }
    {
        &self.items[i]
    }

    /// Adds an item at the end. Without memory the list stays as it was.
    pub fn push(&mut self, tree: Tree) -> Result<(), Memory>
        ensures ok { OnOk result (self.new ≡ self.old ++ document tree ∷ []) }
        ensures err { OnErr result (self.new ≡ self.old) }
    {
        Ok(self.items.push(tree)?)
    }

    /// Adds an item at an index up to the length. Without memory the list stays as it was.
    pub fn insert(&mut self, i: usize, tree: Tree) -> Result<(), Memory>
        requires { i ≤ length self.old }
        ensures ok { OnOk result (self.new ≡ insert self.old i (document tree)) }
        ensures err { OnErr result (self.new ≡ self.old) }
    {
        Ok(self.items.insert(i, tree)?)
    }

    /// Takes an item out, and closes up.
    pub fn remove(&mut self, i: usize) -> Tree
        requires { i < length self.old }
        ensures taken { slice_get self.old i ≡ Some (document result) }
        ensures rest { self.new ≡ remove self.old i }
    {
        self.items.remove(i)
    }

    /// Puts another item in the place of one, which is handed out.
    pub fn replace(&mut self, i: usize, tree: Tree) -> Tree
        requires { i < length self.old }
        ensures taken { slice_get self.old i ≡ Some (document result) }
        ensures put { self.new ≡ slice_set self.old i (document tree) }
    {
        mem::replace(&mut self.items[i], tree)
    }
}

impl Members {
    /// No members, which take no memory.
    pub fn new(alloc: Global) -> Members
        ensures { result ≡ [] }
    {
        Members {
            members: Vec::new(alloc),
        }
    }

    /// The members of a list that is sorted already.
    pub(crate) fn from_sorted(members: Vec<(Txt, Tree)>) -> Members
        requires { IsRising (map named_document members.items) }
        ensures { result ≡ map named_document members.items }
    {
        Members { members }
    }

    /// The whole list.
    pub(crate) fn members(&self) -> &[(Txt, Tree)]
        ensures list { map named_document result.now ≡ self.now }
        ensures rising { IsRising self.now }
    {
        self.members.as_slice()
    }

    /// The vector of the members, with no copy.
    pub(crate) fn into_members(self) -> Vec<(Txt, Tree)>
        ensures list { map named_document result.items ≡ self }
        ensures rising { IsRising self }
    {
        let Members { members } = self;
        members
    }

    /// How many members there are.
    pub fn len(&self) -> usize
        ensures { result ≡ length self.now }
    {
        self.members.len()
    }

    /// The name at an index, counted from 0 in the order of the names.
    pub fn name_at(&self, i: usize) -> &str
        requires { i < length self.now }
        ensures { slice_get (map (λ m. m.0) self.now) i ≡ Some result.now }
    {
        self.members[i].0.as_str()
    }

    /// What the name at an index names.
    pub fn at(&self, i: usize) -> &Tree
        requires { i < length self.now }
        ensures { slice_get (map (λ m. m.1) self.now) i ≡ Some (document result.now) }
    {
        &self.members[i].1
    }

    /// What a name names, or None where there is no such member.
    pub fn find(&self, name: &str) -> Option<&Tree>
        ensures { option_map (λ t. document t.now) result ≡ find name.now self.now }
    {
        match index_of_member(&self.members, name) {
            Ok(i) => Some(&self.members[i].1),
            Err(_) => None,
        }
    }

    /// Sets a member, in the place of one of that name. Without memory the members stay as they were.
    pub fn set(&mut self, name: Txt, tree: Tree) -> Result<(), Memory>
        ensures ok { OnOk result (self.new ≡ put name (document tree) self.old) }
        ensures err { OnErr result (self.new ≡ self.old) }
    {
        match index_of_member(&self.members, name.as_str()) {
            Ok(i) => {
                drop(name);
                drop(mem::replace(&mut self.members[i].1, tree));
                Ok(())
            }
            Err(i) => Ok(self.members.insert(i, (name, tree))?),
        }
    }

    /// Takes the member of that name out, or answers None where there is none.
    pub fn take(&mut self, name: &str) -> Option<Tree>
        ensures taken { option_map document result ≡ find name.now self.old }
        ensures rest { self.new ≡ without name.now self.old }
        ensures rising { IsRising self.old }
    {
        match index_of_member(&self.members, name) {
            Ok(i) => Some(self.members.remove(i).1),
            Err(_) => None,
        }
    }

    /// Puts another document in the place of the one that a name names, which is handed out. Where there
    /// is no such member, the document comes back.
    pub fn replace(&mut self, name: &str, tree: Tree) -> Result<Tree, Tree>
        ensures taken { IfOk result (λ t. find name.now self.old ≡ Some (document t)) }
        ensures put { OnOk result (self.new ≡ put name.now (document tree) self.old) }
        ensures absent { IfErr result (λ t. (t ≡ tree) × (find name.now self.old ≡ None)) }
        ensures err { OnErr result (self.new ≡ self.old) }
        ensures rising { IsRising self.old }
    {
        match index_of_member(&self.members, name) {
            Ok(i) => Ok(mem::replace(&mut self.members[i].1, tree)),
            Err(_) => Err(tree),
        }
    }
}
