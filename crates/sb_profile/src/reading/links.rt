// Tables of links: what the lowest relation that names a number says of it.
ghost use Rattle.std.specs.Prelude.{◌≡◌, ℕ, nat_eq, filter, IfOk, OnOk, None, ◌&&◌};
ghost use Rattle.std.specs.List.{list_any};
ghost use Rattle.std.specs.Ordering.{nat_cmp};
ghost use Rattle.std.specs.BTreeMap.{get};
ghost use Rattle.std.specs.BTreeSet.{contains};
ghost use Rattle.sb_profile.specs.Entities.Entity.{rel_associates_material, rel_defines_by_type, rel_voids_element, rel_fills_element};
ghost use Rattle.sb_profile.specs.Contents.{Contents, Says, is_unfit};
ghost use Rattle.sb_profile.specs.Lowest.{lower_if};
ghost use Rattle.sb_profile.specs.Steps.Links as spec;
ghost use Rattle.sb_profile.specs.Steps.Links.{noted, noted_all, by_listing, by_voiding, lowered};

use crate::reading::lowest::lower;
use crate::sights::{Sight, look};
use sb_schema::{
    LentReferences, LentRelAssociatesMaterial, LentRelDefinesByType, RelFillsElement,
    RelVoidsElement,
};
use sb_step::StepFile;
use std::alloc::{AllocError, Global};
use std::collections::{BTreeMap, BTreeSet};

/// A relation, and what it says of a number.
#[derive(Clone, Copy)]
pub struct Link {
    pub relation: u32,
    /// What it says.
    pub target: u32,
}

/// Of each number that some relation names what the lowest of these says.
pub type Links = BTreeMap<u32, Link>;

/// What each object is made of, by the lowest of these relations that lists it.
pub(crate) fn materials(
    alloc: Global,
    file: &StepFile<'_>,
    relations: &[u32],
    unfit: &mut Option<u32>,
) -> Result<Links, AllocError>
    ensures links { IfOk result (λ links. (c : Contents) → Says file.now c → (q : ℕ)
        → get nat_cmp links q
        ≡ noted_all (λ r found. by_listing q r (c.given rel_associates_material r) found) None
        relations.now) }
    ensures unfit { OnOk result ((c : Contents) → Says file.now c → unfit.new
        ≡ lowered unfit.old (filter (is_unfit c rel_associates_material) relations.now)) }
{
    let mut links = BTreeMap::new(alloc);
    'relations: for relation in relations {
        note_material(alloc, file, *relation, &mut links, unfit)?;
    }
    Ok(links)
}

fn note_material(
    alloc: Global,
    file: &StepFile<'_>,
    relation: u32,
    links: &mut Links,
    unfit: &mut Option<u32>,
) -> Result<(), AllocError>
    ensures links { OnOk result ((c : Contents) → Says file.now c → (q : ℕ)
        → get nat_cmp links.new q
        ≡ by_listing q relation (c.given rel_associates_material relation) (get nat_cmp links.old q)) }
    ensures unfit { OnOk result ((c : Contents) → Says file.now c → unfit.new
        ≡ lower_if (is_unfit c rel_associates_material relation) relation unfit.old) }
{
    match look::<LentRelAssociatesMaterial>(alloc, file, relation)? {
        Sight::Of(view) => {
            let link = new_link(relation, view.a6);
            note_each(links, view.a5, link)
        }
        Sight::Unfit => {
            *unfit = lower(relation, *unfit);
            Ok(())
        }
        _ => Ok(()),
    }
}

/// The type of each object, by the lowest of these relations that lists it.
pub(crate) fn types(
    alloc: Global,
    file: &StepFile<'_>,
    relations: &[u32],
    unfit: &mut Option<u32>,
) -> Result<Links, AllocError>
    ensures links { IfOk result (λ links. (c : Contents) → Says file.now c → (q : ℕ)
        → get nat_cmp links q
        ≡ noted_all (λ r found. by_listing q r (c.given rel_defines_by_type r) found) None
        relations.now) }
    ensures unfit { OnOk result ((c : Contents) → Says file.now c → unfit.new
        ≡ lowered unfit.old (filter (is_unfit c rel_defines_by_type) relations.now)) }
{
    let mut links = BTreeMap::new(alloc);
    'relations: for relation in relations {
        note_type(alloc, file, *relation, &mut links, unfit)?;
    }
    Ok(links)
}

fn note_type(
    alloc: Global,
    file: &StepFile<'_>,
    relation: u32,
    links: &mut Links,
    unfit: &mut Option<u32>,
) -> Result<(), AllocError>
    ensures links { OnOk result ((c : Contents) → Says file.now c → (q : ℕ)
        → get nat_cmp links.new q
        ≡ by_listing q relation (c.given rel_defines_by_type relation) (get nat_cmp links.old q)) }
    ensures unfit { OnOk result ((c : Contents) → Says file.now c → unfit.new
        ≡ lower_if (is_unfit c rel_defines_by_type relation) relation unfit.old) }
{
    match look::<LentRelDefinesByType>(alloc, file, relation)? {
        Sight::Of(view) => {
            let link = new_link(relation, view.a6);
            note_each(links, view.a5, link)
        }
        Sight::Unfit => {
            *unfit = lower(relation, *unfit);
            Ok(())
        }
        _ => Ok(()),
    }
}

/// The element of each opening, by the lowest of these relations that gives it to one of these.
pub(crate) fn voids(
    alloc: Global,
    file: &StepFile<'_>,
    relations: &[u32],
    elements: &BTreeSet<u32>,
    unfit: &mut Option<u32>,
) -> Result<Links, AllocError>
    ensures links { IfOk result (λ links. (c : Contents) → Says file.now c → (q : ℕ)
        → get nat_cmp links q
        ≡ noted_all (λ r found. by_voiding (contains nat_cmp elements.now) q r
        (c.given rel_voids_element r) found) None relations.now) }
    ensures unfit { OnOk result ((c : Contents) → Says file.now c → unfit.new
        ≡ lowered unfit.old (filter (is_unfit c rel_voids_element) relations.now)) }
{
    let mut links = BTreeMap::new(alloc);
    'relations: for relation in relations {
        note_opening(alloc, file, *relation, elements, &mut links, unfit)?;
    }
    Ok(links)
}

fn note_opening(
    alloc: Global,
    file: &StepFile<'_>,
    relation: u32,
    elements: &BTreeSet<u32>,
    links: &mut Links,
    unfit: &mut Option<u32>,
) -> Result<(), AllocError>
    ensures links { OnOk result ((c : Contents) → Says file.now c → (q : ℕ)
        → get nat_cmp links.new q
        ≡ by_voiding (contains nat_cmp elements.now) q relation (c.given rel_voids_element relation)
        (get nat_cmp links.old q)) }
    ensures unfit { OnOk result ((c : Contents) → Says file.now c → unfit.new
        ≡ lower_if (is_unfit c rel_voids_element relation) relation unfit.old) }
{
    match look::<RelVoidsElement>(alloc, file, relation)? {
        Sight::Of(view) => {
            let taken = elements.contains(&view.a5);
            let link = new_link(relation, view.a5);
            note_if(links, taken, view.a6, link)
        }
        Sight::Unfit => {
            *unfit = lower(relation, *unfit);
            Ok(())
        }
        _ => Ok(()),
    }
}

/// The opening of each door or window, by the lowest of these relations that says that it fills one of
/// these.
pub(crate) fn fills(
    alloc: Global,
    file: &StepFile<'_>,
    relations: &[u32],
    openings: &BTreeSet<u32>,
    unfit: &mut Option<u32>,
) -> Result<Links, AllocError>
    ensures links { IfOk result (λ links. (c : Contents) → Says file.now c → (q : ℕ)
        → get nat_cmp links q
        ≡ noted_all (λ r found. by_voiding (contains nat_cmp openings.now) q r
        (c.given rel_fills_element r) found) None relations.now) }
    ensures unfit { OnOk result ((c : Contents) → Says file.now c → unfit.new
        ≡ lowered unfit.old (filter (is_unfit c rel_fills_element) relations.now)) }
{
    let mut links = BTreeMap::new(alloc);
    'relations: for relation in relations {
        note_filling(alloc, file, *relation, openings, &mut links, unfit)?;
    }
    Ok(links)
}

fn note_filling(
    alloc: Global,
    file: &StepFile<'_>,
    relation: u32,
    openings: &BTreeSet<u32>,
    links: &mut Links,
    unfit: &mut Option<u32>,
) -> Result<(), AllocError>
    ensures links { OnOk result ((c : Contents) → Says file.now c → (q : ℕ)
        → get nat_cmp links.new q
        ≡ by_voiding (contains nat_cmp openings.now) q relation (c.given rel_fills_element relation)
        (get nat_cmp links.old q)) }
    ensures unfit { OnOk result ((c : Contents) → Says file.now c → unfit.new
        ≡ lower_if (is_unfit c rel_fills_element relation) relation unfit.old) }
{
    match look::<RelFillsElement>(alloc, file, relation)? {
        Sight::Of(view) => {
            let taken = openings.contains(&view.a5);
            let link = new_link(relation, view.a5);
            note_if(links, taken, view.a6, link)
        }
        Sight::Unfit => {
            *unfit = lower(relation, *unfit);
            Ok(())
        }
        _ => Ok(()),
    }
}

fn new_link(relation: u32, target: u32) -> Link
    ensures { result ≡ spec.link relation target }
{
    Link { relation, target }
}

/// Notes the link of a number, if it is taken.
fn note_if(links: &mut Links, taken: bool, number: u32, link: Link) -> Result<(), AllocError>
    ensures { OnOk result ((q : ℕ) → get nat_cmp links.new q
        ≡ noted (nat_eq q number && taken) link (get nat_cmp links.old q)) }
{
    if taken {
        note(links, number, link)
    } else {
        Ok(())
    }
}

/// Notes the link of each number.
fn note_each(
    links: &mut Links,
    first_members: LentReferences<'_>,
    link: Link,
) -> Result<(), AllocError>
    ensures { OnOk result ((q : ℕ) → get nat_cmp links.new q
        ≡ noted (list_any (nat_eq q) first_members.entry) link (get nat_cmp links.old q)) }
{
    let mut members = first_members;
    'members: while let Some(number) = members.next() {
        note(links, number, link)?;
    }
    Ok(())
}

/// Notes the link of a number, unless that of a lower relation is there.
fn note(links: &mut Links, number: u32, link: Link) -> Result<(), AllocError>
    ensures { OnOk result ((q : ℕ) → get nat_cmp links.new q
        ≡ noted (nat_eq q number) link (get nat_cmp links.old q)) }
{
    let other = links.get(&number).copied();
    let lowest = lower_link(link, other);
    links.insert(number, lowest)?;
    Ok(())
}

/// The link of the lower relation.
fn lower_link(link: Link, other: Option<Link>) -> Link
    ensures { result ≡ spec.lower_link link other }
{
    match other {
        Some(other) if other.relation < link.relation => other,
        _ => link,
    }
}
