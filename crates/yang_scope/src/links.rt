//! How far the typedefs lead, all of them at once: what stands behind so many typedefs tells what
//! stands behind twice as many.
ghost use Rattle.std.specs.Prelude.{◌≡◌, ◌^◌, List, map, IfOk};
ghost use Rattle.yang_text.specs.Declarations.{block};
ghost use Rattle.yang_text.specs.Statements.{declaration};
ghost use Rattle.yang_scope.specs.Links.{link_at, link_behind, IsBehind, map_from};
ghost use Rattle.yang_scope.specs.Meanings.{typedef_meaning, most_typedefs};
ghost use Rattle.yang_scope.specs.Modules.{Module};

use crate::meanings::Meaning;
use crate::module_sets::ModuleSet;
use host_core::{Memory, Sequence};
use std::alloc::Global;
use yang_text::Statement;

/// What is kept for the typedefs of each module, by their places in it.
pub(crate) type Links = Sequence<Sequence<Meaning>>;

/// How often the way is doubled: then it is longer than the number of typedefs.
const DOUBLINGS: u32 = 64;

/// What is kept for a typedef.
pub(crate) fn link_at(links: &[Sequence<Meaning>], number: usize, place: usize) -> Meaning
    ensures { result ≡ link_at links.now number place }
{
    match links.get(number) {
        Some(row) => match row.items().get(place) {
            Some(link) => *link,
            None => Meaning::Nothing,
        },
        None => Meaning::Nothing,
    }
}

/// What is kept for the typedef that a meaning is.
pub(crate) fn link_behind(links: &[Sequence<Meaning>], meaning: Meaning) -> Meaning
    ensures { result ≡ link_behind links.now meaning }
{
    match meaning {
        Meaning::Goes(number, place) => link_at(links, number, place),
        Meaning::Ends(base) => Meaning::Ends(base),
        Meaning::Nothing => Meaning::Nothing,
    }
}

/// The links of one module, twice as far.
fn double_row(
    alloc: Global,
    links: &[Sequence<Meaning>],
    row: &[Meaning],
) -> Result<Sequence<Meaning>, Memory>
    ensures { IfOk result (λ next. next ≡ map (link_behind links.now) row.now) }
{
    let mut next = Sequence::new(alloc);
    for link in row {
        next.push(link_behind(links, *link))?;
    }
    Ok(next)
}

/// The links of all modules, twice as far.
fn double(alloc: Global, links: &[Sequence<Meaning>]) -> Result<Links, Memory>
    ensures { IfOk result (λ next. next ≡ map (map (link_behind links.now)) links.now) }
{
    let mut next = Sequence::new(alloc);
    for row in links {
        let doubled = double_row(alloc, links, row.items())?;
        next.push(doubled)?;
    }
    Ok(next)
}

/// What stands right behind the typedefs of one module.
fn first_row(
    alloc: Global,
    set: &ModuleSet,
    number: usize,
    statements: &[Statement],
) -> Result<Sequence<Meaning>, Memory>
    ensures { IfOk result (λ row. row
        ≡ map (typedef_meaning set.now number) (map declaration statements.now)) }
{
    let mut row = Sequence::new(alloc);
    for statement in statements {
        row.push(set.typedef_meaning(number, statement))?;
    }
    Ok(row)
}

/// What stands right behind the typedefs of all modules.
fn first_links(alloc: Global, set: &ModuleSet) -> Result<Links, Memory>
    ensures { IfOk result (λ links. links ≡ map_from
        (λ number m. map (typedef_meaning set.now number) (block m.statement)) 0 set.now) }
{
    let mut links = Sequence::new(alloc);
    for (number, module) in set.items().iter().enumerate() {
        let row = first_row(alloc, set, number, module.statement().block.items())?;
        links.push(row)?;
    }
    Ok(links)
}

/// What stands behind more typedefs than there can be.
pub(crate) fn all_links(alloc: Global, set: &ModuleSet) -> Result<Links, Memory>
    ensures { IfOk result (λ links. IsBehind set.now most_typedefs links) }
{
    let mut links = first_links(alloc, set)?;
    for round in 0..DOUBLINGS {
        links = double(alloc, links.items())?;
    }
    Ok(links)
}
