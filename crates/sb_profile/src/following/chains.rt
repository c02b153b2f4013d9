// The placements of the chains of products.
ghost use Rattle.std.specs.Prelude.{◌≡◌, ◌↔◌, ◌≤◌, ◌+◌, ◌<◌, ℕ, Some, [], ◌∷◌, length, take, option_and_then, IfOk, OnOk};
ghost use Rattle.theory_lists.specs.Members.{Stands};
ghost use Rattle.sb_profile.specs.Contents.{Contents, Says};
ghost use Rattle.sb_profile.specs.Following as following;
ghost use Rattle.sb_profile.specs.declared.following.places.Place.TheVariants as place;
ghost use Rattle.sb_profile.specs.Entities.Entity.{local_placement};
ghost use Rattle.sb_profile.specs.Steps.Chains.{IsSeen, Grows, Reaches, AreReached, IsWithin, last_level, FindsPlacements, placement_fields};
ghost use Rattle.sb_profile.specs.Steps.Found.{FindsAs};
ghost use Rattle.sb_profile.specs.Steps.Sights.{seen_of};

use crate::following::found::{Found, note, push_seen};
use crate::reading::products::{Shaped, put};
use crate::sights::{Sight, look};
use sb_schema::LocalPlacement;
use sb_step::StepFile;
use std::alloc::{AllocError, Global};
use std::collections::BTreeSet;

/// How many placements of a chain have a parent that is followed.
const PARENTS: usize = 63;

/// Placements that were reached, each once, and the same as a set.
#[derive(Drop)]
pub(crate) struct Chain {
    pub placements: Vec<u32>,
    pub seen: BTreeSet<u32>,
}

pub(crate) fn no_chain(alloc: Global) -> Chain
    ensures seen { IsSeen result }
    ensures items { result.placements.items ≡ [] }
{
    Chain {
        placements: Vec::new(alloc),
        seen: BTreeSet::new(alloc),
    }
}

/// Reaches the placement, unless there is none or it is the building's.
pub(crate) fn reach(
    chain: &mut Chain,
    placement: Option<u32>,
    building: Option<u32>,
) -> Result<(), AllocError>
    requires { IsSeen chain.old }
    ensures { OnOk result (Reaches (following.below building placement) chain.old chain.new) }
{
    match below(placement, building) {
        Some(number) => add(chain, number),
        None => Ok(()),
    }
}

pub(crate) fn below(placement: Option<u32>, building: Option<u32>) -> Option<u32>
    ensures { result ≡ following.below building placement }
{
    match placement {
        Some(number) if building != Some(number) => Some(number),
        _ => None,
    }
}

pub(crate) fn add(chain: &mut Chain, number: u32) -> Result<(), AllocError>
    requires { IsSeen chain.old }
    ensures { OnOk result (Reaches (Some number) chain.old chain.new) }
{
    if chain.seen.contains(&number) {
        return Ok(());
    }
    chain.placements.push(number)?;
    put(&mut chain.seen, number)?;
    Ok(())
}

/// The placements of all chains: those that products have, and the parents of these, level after
/// level. Each placement is looked at once, and what follows from it is found.
pub(crate) fn chains(
    alloc: Global,
    file: &StepFile<'_>,
    first: Chain,
    building: Option<u32>,
    found: &mut Found,
) -> Result<Vec<u32>, AllocError>
    requires { IsSeen first }
    ensures placements { IfOk result (λ placements. (c : Contents) → Says file.now c
        → building ≡ following.building_placement c
        → ((n : ℕ) → Stands n first.placements.items ↔ IsWithin c 0 n)
        → (n : ℕ) → Stands n placements.items ↔ IsWithin c last_level n) }
    ensures found { IfOk result (λ placements. (c : Contents) → Says file.now c
        → FindsPlacements c placements.items found.old found.new) }
{
    let mut chain = first;
    let mut asked = 0;
    'levels: for _level in 0..PARENTS {
        let end = chain.placements.as_slice().len();
        climb(alloc, file, &mut chain, asked, building, found)?;
        asked = end;
    }
    see_from(alloc, file, chain.placements.as_slice(), asked, found)?;
    Ok(chain.placements)
}

/// Reaches the parents of the placements from this one on, up to the last that there is now.
fn climb(
    alloc: Global,
    file: &StepFile<'_>,
    chain: &mut Chain,
    asked: usize,
    building: Option<u32>,
    found: &mut Found,
) -> Result<(), AllocError>
    requires seen { IsSeen chain.old }
    requires within { asked ≤ length chain.old.placements.items }
    ensures seen { OnOk result (IsSeen chain.new) }
    ensures reached { OnOk result ((c : Contents) → Says file.now c
        → building ≡ following.building_placement c → (level : ℕ)
        → AreReached c level chain.old.placements.items asked
        → AreReached c (level + 1) chain.new.placements.items (length chain.old.placements.items)) }
    ensures grown { OnOk result (Grows chain.old.placements.items chain.new.placements.items) }
    ensures found { OnOk result ((c : Contents) → Says file.now c → (base : Found)
        → FindsPlacements c (take asked chain.old.placements.items) base found.old
        → FindsPlacements c chain.old.placements.items base found.new) }
{
    let end = chain.placements.as_slice().len();
    'placements: for at in asked..end {
        let placement = chain.placements.as_slice()[at];
        let parent = see_placement(alloc, file, placement, found)?;
        reach(chain, parent, building)?;
    }
    Ok(())
}

/// Looks at the placements from this one on.
fn see_from(
    alloc: Global,
    file: &StepFile<'_>,
    placements: &[u32],
    asked: usize,
    found: &mut Found,
) -> Result<(), AllocError>
    requires { asked ≤ length placements.now }
    ensures { OnOk result ((c : Contents) → Says file.now c → (base : Found)
        → FindsPlacements c (take asked placements.now) base found.old
        → FindsPlacements c placements.now base found.new) }
{
    'placements: for at in asked..placements.len() {
        see_placement(alloc, file, placements[at], found)?;
    }
    Ok(())
}

/// Looks at a placement: what follows from it is found, and answered is that to which it is relative.
fn see_placement(
    alloc: Global,
    file: &StepFile<'_>,
    number: u32,
    found: &mut Found,
) -> Result<Option<u32>, AllocError>
    ensures parent { IfOk result (λ parent. (c : Contents) → Says file.now c
        → parent ≡ following.parent_of c number) }
    ensures found { OnOk result ((c : Contents) → Says file.now c
        → FindsAs local_placement (λ v. (place.Position3d, v.1.0) ∷ []) c number
        found.old found.new) }
{
    let mut sight = look::<LocalPlacement>(alloc, file, number)?;
    let parent = parent_in(&sight);
    note(found, number, &sight);
    push_seen(found, &mut sight)?;
    Ok(parent)
}

fn parent_in(sight: &Sight<LocalPlacement>) -> Option<u32>
    ensures { result ≡ option_and_then (λ v. v.0) (seen_of placement_fields sight.now) }
{
    match sight {
        Sight::Of(view) => view.a1,
        _ => None,
    }
}
