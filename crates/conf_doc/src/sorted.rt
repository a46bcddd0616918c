//! The list under tables, entries and fields: pairs of a name and a part, sorted by the names. A pair
//! stands behind one pointer, so that a changed list shares every other pair with the old one.
ghost use Rattle.std.specs.Prelude.{◌≡◌, ◌<◌, ◌≤◌, [], length, map, option_map, slice_get, None, Some, IfErr, IfOk, IsTrue, IsUtf8, OnOk};
ghost use Rattle.conf_doc.specs.Indexes.{IsAt, IsBefore, IsBehind, IsGap};
ghost use Rattle.conf_doc.specs.Pairs.{find, first_from, put, set_part, without, IsRising};
ghost use Rattle.conf_doc.specs.Shared.{pairs_of};
ghost use Rattle.conf_doc.specs.WellFormed.{IsShaped};

use crate::indexes::index_of_pair;
use crate::sameness::{Same, same_pair};
use host_core::{Memory, Txt};
use std::alloc::Global;
use std::marker::Model;
use std::rc::Rc;

/// Contracts see the list of the pairs. Names rise by their bytes, and none is empty.
#[derive(Drop)]
pub struct Sorted<X> {
    pairs: Vec<Rc<(Txt, X)>>,
}

impl<X> Model for Sorted<X> {
    ghost use Rattle.std.specs.Prelude.{List, ℕ};
    ghost use Rattle.conf_doc.specs.Shared.{pairs_of};
    ghost use Rattle.conf_doc.specs.WellFormed.{IsShaped};

    ghost Value = { List (List ℕ × X) };

    ghost view = { λ s. pairs_of s.pairs.items };

    ghost invariant = { λ s. IsShaped (pairs_of s.pairs.items) };
}

impl<X> Sorted<X> {
    /// No pairs, which take no memory.
    pub(crate) fn new(alloc: Global) -> Sorted<X>
        ensures { result ≡ [] }
    {
        Sorted {
            pairs: Vec::new(alloc),
        }
    }

    /// The pairs of a vector that keeps the rules already.
    pub(crate) fn from_shaped(pairs: Vec<Rc<(Txt, X)>>) -> Sorted<X>
        requires { IsShaped (pairs_of pairs.items) }
        ensures { result ≡ pairs_of pairs.items }
    {
        Sorted { pairs }
    }

    /// The pairs, each behind its pointer.
    pub(crate) fn pairs(&self) -> &[Rc<(Txt, X)>]
        ensures { pairs_of result.now ≡ self.now }
    {
        self.pairs.as_slice()
    }

    /// The vector of the pairs, each behind its pointer.
    pub(crate) fn into_pairs(self) -> Vec<Rc<(Txt, X)>>
        ensures pairs { pairs_of result.items ≡ self }
        ensures shaped { IsShaped self }
    {
        let Sorted { pairs } = self;
        pairs
    }

    /// How many pairs there are.
    pub(crate) fn len(&self) -> usize
        ensures len { result ≡ length self.now }
        ensures shaped { IsShaped self.now }
    {
        self.pairs.len()
    }

    /// The pair at an index.
    pub(crate) fn pair_at(&self, i: usize) -> &(Txt, X)
        requires { i < length self.now }
        ensures { slice_get self.now i ≡ Some result.now }
    {
        self.pairs[i].as_ref()
    }

    /// The name and the part at an index.
    pub(crate) fn both_at(&self, i: usize) -> (&str, &X)
        requires { i < length self.now }
        ensures { slice_get self.now i ≡ Some (result.0.now, result.1.now) }
    {
        let (name, part) = self.pair_at(i);
        (name.as_str(), part)
    }

    /// The name at an index.
    pub(crate) fn name_at(&self, i: usize) -> &str
        requires { i < length self.now }
        ensures { slice_get (map (λ p. p.0) self.now) i ≡ Some result.now }
    {
        self.pair_at(i).0.as_str()
    }

    /// The part at an index.
    pub(crate) fn part_at(&self, i: usize) -> &X
        requires { i < length self.now }
        ensures { slice_get (map (λ p. p.1) self.now) i ≡ Some result.now }
    {
        &self.pair_at(i).1
    }

    /// The index of a name, or else the index where it would go.
    pub(crate) fn index_of(&self, name: &str) -> Result<usize, usize>
        ensures found { IfOk result (IsAt self.now name.now) }
        ensures absent { IfErr result (IsGap self.now name.now) }
    {
        index_of_pair(&self.pairs, name)
    }

    /// What a name names, or None where it stands nowhere.
    pub(crate) fn find(&self, name: &str) -> Option<&X>
        ensures { option_map (λ v. v.now) result ≡ find name.now self.now }
    {
        match index_of_pair(&self.pairs, name) {
            Ok(i) => Some(&self.pairs[i].as_ref().1),
            Err(_) => None,
        }
    }

    /// Whether a name is above the one before an index, where there is one.
    fn is_behind(&self, name: &str, i: usize) -> bool
        requires { i ≤ length self.now }
        ensures { IsTrue result → IsBehind self.now name.now i }
    {
        i == 0 || name > self.name_at(i - 1)
    }

    /// Whether a name is below the one at an index, where there is one.
    fn is_before(&self, name: &str, i: usize) -> bool
        requires { i ≤ length self.now }
        ensures { IsTrue result → IsBefore self.now name.now i }
    {
        i == self.len() || name < self.name_at(i)
    }

    /// What a name names, or None where it stands nowhere. It is looked for first at an index.
    pub(crate) fn find_near(&self, name: &str, near: usize) -> Option<&X>
        requires { near ≤ length self.now }
        ensures { option_map (λ v. v.now) result ≡ find name.now self.now }
    {
        if near < self.len() && self.name_at(near) == name {
            return Some(self.part_at(near));
        }
        if self.is_behind(name, near) && self.is_before(name, near) {
            return None;
        }
        self.find(name)
    }

    /// The first index from which no name is below that one.
    pub(crate) fn first_from(&self, name: &str) -> usize
        ensures { result ≡ first_from name.now self.now }
    {
        match index_of_pair(&self.pairs, name) {
            Ok(i) => i,
            Err(i) => i,
        }
    }
}

impl<X: Drop + Same> Sorted<X> {
    /// The pair at an index, behind another list's pointer where that list has it too.
    fn shared_pair(&self, i: usize, other: &Sorted<X>) -> Result<Rc<(Txt, X)>, Memory>
        requires { i < length self.now }
        ensures { IfOk result (λ r. slice_get self.now i ≡ Some r.value) }
    {
        let pair = self.pair_at(i);
        if let Ok(j) = other.index_of(pair.0.as_str()) {
            if same_pair(pair, other.pair_at(j)) {
                return Ok(other.pairs[j].clone()?);
            }
        }
        Ok(self.pairs[i].clone()?)
    }

    /// The same pairs, those that another list has too behind the pointers of that one.
    pub(crate) fn sharing(&self, alloc: Global, other: &Sorted<X>) -> Result<Sorted<X>, Memory>
        ensures { IfOk result (λ s. s ≡ self.now) }
    {
        let mut pairs = Vec::with_capacity(alloc, self.len())?;
        for i in 0..self.len() {
            let pair = self.shared_pair(i, other)?;
            pairs.push(pair)?;
        }
        Ok(Sorted { pairs })
    }
}

impl<X: Drop> Sorted<X> {
    /// The same pairs, all of them shared.
    pub(crate) fn copy(&self, alloc: Global) -> Result<Sorted<X>, Memory>
        ensures { IfOk result (λ s. s ≡ self.now) }
    {
        Ok(Sorted {
            pairs: share(alloc, &self.pairs)?,
        })
    }

    /// The list with that pair, in the place of one of that name.
    pub(crate) fn with(&self, alloc: Global, name: &str, part: X) -> Result<Sorted<X>, Memory>
        requires { 0 < length name.now }
        ensures { IfOk result (λ s. s ≡ put name.now part self.now) }
    {
        let text = Txt::new(alloc, name)?;
        let pair = Rc::new(alloc, (text, part))?;
        self.with_pair(alloc, pair)
    }

    /// The list with that pair, in the place of one of its name.
    fn with_pair(&self, alloc: Global, pair: Rc<(Txt, X)>) -> Result<Sorted<X>, Memory>
        requires named { 0 < length pair.value.0 }
        requires utf8 { IsUtf8 pair.value.0 }
        ensures { IfOk result (λ s. s ≡ put pair.value.0 pair.value.1 self.now) }
    {
        let mut pairs = share(alloc, &self.pairs)?;
        put_pair(&mut pairs, pair)?;
        Ok(Sorted { pairs })
    }

    /// The list without a pair of that name.
    pub(crate) fn without(&self, alloc: Global, name: &str) -> Result<Sorted<X>, Memory>
        ensures { IfOk result (λ s. s ≡ without name.now self.now) }
    {
        let mut pairs = share(alloc, &self.pairs)?;
        remove_pair(&mut pairs, name);
        Ok(Sorted { pairs })
    }

    /// The list with a part of that name, or for None without one.
    pub(crate) fn set(
        &self,
        alloc: Global,
        name: &str,
        part: Option<X>,
    ) -> Result<Sorted<X>, Memory>
        requires { 0 < length name.now }
        ensures { IfOk result (λ s. s ≡ set_part name.now part self.now) }
    {
        match part {
            Some(part) => self.with(alloc, name, part),
            None => self.without(alloc, name),
        }
    }
}

/// The same pairs behind the same pointers.
fn share<X: Drop>(alloc: Global, pairs: &[Rc<(Txt, X)>]) -> Result<Vec<Rc<(Txt, X)>>, Memory>
    ensures { IfOk result (λ v. pairs_of v.items ≡ pairs_of pairs.now) }
{
    Ok(pairs.to_vec(alloc)?)
}

/// Puts a pair where its name belongs, in the place of one of that name.
fn put_pair<X: Drop>(pairs: &mut Vec<Rc<(Txt, X)>>, pair: Rc<(Txt, X)>) -> Result<(), Memory>
    requires { IsRising (pairs_of pairs.old.items) }
    ensures { OnOk result (pairs_of pairs.new.items
        ≡ put pair.value.0 pair.value.1 (pairs_of pairs.old.items)) }
{
    match index_of_pair(pairs, pair.as_ref().0.as_str()) {
        Ok(i) => pairs[i] = pair,
        Err(i) => pairs.insert(i, pair)?,
    }
    Ok(())
}

/// Takes out the pair of that name, where there is one.
fn remove_pair<X: Drop>(pairs: &mut Vec<Rc<(Txt, X)>>, name: &str)
    requires { IsRising (pairs_of pairs.old.items) }
    ensures { pairs_of pairs.new.items ≡ without name.now (pairs_of pairs.old.items) }
{
    match index_of_pair(pairs, name) {
        Ok(i) => drop(pairs.remove(i)),
        Err(_) => {}
    }
}
