//! Pointers as places in a configuration.
ghost use Rattle.std.specs.Prelude.{◌≡◌, ◌↔◌, ◌∷◌, map, IfOk, IsTrue, MatchOption};
ghost use Rattle.conf_doc.specs.Paths.{IsPath};
ghost use Rattle.conf_doc.specs.WellFormed.{AreTexts};
ghost use Rattle.plan_texts.specs.Places.{have_letters};

use conf_doc::Path;
use host_core::{Memory, Txt};
use std::alloc::Global;

/// How many names a place may have.
const MOST_NAMES: usize = 3;

/// Whether no name is empty.
fn have_letters(names: &[Txt]) -> bool
    ensures { result ≡ have_letters names.now }
{
    names.iter().all(|name| !name.as_str().is_empty())
}

/// Whether names are those of a place.
fn is_path(names: &[Txt]) -> bool
    ensures { IsTrue result ↔ IsPath names.now }
{
    let count = names.len();
    if count == 0 || count > MOST_NAMES {
        return false;
    }
    have_letters(names)
}

/// The texts that are lent.
fn texts_of<'n>(alloc: Global, names: &'n [Txt]) -> Result<Vec<&'n str>, Memory>
    ensures texts { IfOk result (λ v. map (λ t. t.now) v.items ≡ names.now) }
    ensures utf8 { IfOk result (λ _. AreTexts names.now) }
{
    let mut texts = Vec::new(alloc);
    for name in names {
        texts.push(name.as_str())?;
    }
    Ok(texts)
}

/// The place of some names.
pub(crate) fn path_of(alloc: Global, names: &[Txt]) -> Result<Option<Path>, Memory>
    ensures { IfOk result (λ path. MatchOption path (¬ IsPath names.now)
        (λ p. (p ≡ names.now) × IsPath names.now × AreTexts names.now)) }
{
    if !is_path(names) {
        return Ok(None);
    }
    let texts = texts_of(alloc, names)?;
    Ok(Some(Path::new(alloc, &texts)?))
}
