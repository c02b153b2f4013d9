// All leads are followed, place after place: an instance leads to later places only.
ghost use Rattle.std.specs.Prelude.{◌≡◌, ◌↔◌, ◌+◌, ◌++◌, [], ◌∷◌, ℕ, List, if◌then◌else◌, IfOk, OnOk};
ghost use Rattle.std.specs.Ordering.{nat_cmp};
ghost use Rattle.std.specs.BTreeSet.{contains};
ghost use Rattle.theory_lists.specs.Members.{Stands};
ghost use Rattle.sb_profile.specs.Contents.{Contents, Says};
ghost use Rattle.sb_profile.specs.Following.{Lead};
ghost use Rattle.sb_profile.specs.Steps.Survey.{rank_of, is_to, wanted_there, IsSurveyed, places};

use crate::following::found::Found;
use crate::following::places::Place;
use crate::seeing::{see_at, see_representation};
use sb_step::StepFile;
use std::alloc::{AllocError, Global};
use std::collections::BTreeSet;

/// Follows all leads but those to placements, which were followed, where these representations are bodies.
pub(crate) fn survey(
    alloc: Global,
    file: &StepFile<'_>,
    bodies: &BTreeSet<u32>,
    found: &mut Found,
) -> Result<(), AllocError>
    ensures { OnOk result ((c : Contents) (roots : List ℕ) (first : List Lead) → Says file.now c
        → IsSurveyed (contains nat_cmp bodies.now) c roots first 1 found.old
        → IsSurveyed (contains nat_cmp bodies.now) c roots first places found.new) }
{
    survey_shapes(alloc, file, bodies, found)?;
    survey_positions(alloc, file, bodies, found)?;
    Ok(())
}

/// Follows the leads to shapes and what these are made of.
fn survey_shapes(
    alloc: Global,
    file: &StepFile<'_>,
    bodies: &BTreeSet<u32>,
    found: &mut Found,
) -> Result<(), AllocError>
    ensures { OnOk result ((c : Contents) (roots : List ℕ) (first : List Lead) → Says file.now c
        → IsSurveyed (contains nat_cmp bodies.now) c roots first 1 found.old
        → IsSurveyed (contains nat_cmp bodies.now) c roots first 8 found.new) }
{
    follow(alloc, file, bodies, Place::Shape, found)?;
    follow(alloc, file, bodies, Place::Body, found)?;
    follow_representations(alloc, file, bodies, found)?;
    follow(alloc, file, bodies, Place::Solid, found)?;
    follow(alloc, file, bodies, Place::Profile, found)?;
    follow(alloc, file, bodies, Place::Curve, found)?;
    follow(alloc, file, bodies, Place::PointList, found)?;
    Ok(())
}

/// Follows the leads to positions and materials.
fn survey_positions(
    alloc: Global,
    file: &StepFile<'_>,
    bodies: &BTreeSet<u32>,
    found: &mut Found,
) -> Result<(), AllocError>
    ensures { OnOk result ((c : Contents) (roots : List ℕ) (first : List Lead) → Says file.now c
        → IsSurveyed (contains nat_cmp bodies.now) c roots first 8 found.old
        → IsSurveyed (contains nat_cmp bodies.now) c roots first places found.new) }
{
    follow(alloc, file, bodies, Place::Position3d, found)?;
    follow(alloc, file, bodies, Place::Position2d, found)?;
    follow(alloc, file, bodies, Place::Point, found)?;
    follow(alloc, file, bodies, Place::Direction, found)?;
    follow(alloc, file, bodies, Place::Material, found)?;
    follow(alloc, file, bodies, Place::LayerSet, found)?;
    follow(alloc, file, bodies, Place::Layer, found)?;
    follow(alloc, file, bodies, Place::LayerMaterial, found)?;
    Ok(())
}

/// Follows the leads to one place: each instance is looked at once there.
fn follow(
    alloc: Global,
    file: &StepFile<'_>,
    bodies: &BTreeSet<u32>,
    at: Place,
    found: &mut Found,
) -> Result<(), AllocError>
    ensures { OnOk result ((c : Contents) (roots : List ℕ) (first : List Lead) → Says file.now c
        → IsSurveyed (contains nat_cmp bodies.now) c roots first (rank_of at) found.old
        → IsSurveyed (contains nat_cmp bodies.now) c roots first (rank_of at + 1) found.new) }
{
    let numbers = wanted(alloc, found.leads.as_slice(), at)?;
    'numbers: for number in numbers.as_slice() {
        see_at(alloc, file, bodies, at, *number, found)?;
    }
    Ok(())
}

/// Follows the leads to representations: those that are bodies need no look.
fn follow_representations(
    alloc: Global,
    file: &StepFile<'_>,
    bodies: &BTreeSet<u32>,
    found: &mut Found,
) -> Result<(), AllocError>
    ensures { OnOk result ((c : Contents) (roots : List ℕ) (first : List Lead) → Says file.now c
        → IsSurveyed (contains nat_cmp bodies.now) c roots first 3 found.old
        → IsSurveyed (contains nat_cmp bodies.now) c roots first 4 found.new) }
{
    let numbers = wanted(alloc, found.leads.as_slice(), Place::Representation)?;
    'numbers: for number in numbers.as_slice() {
        see_representation(alloc, file, bodies, *number, found)?;
    }
    Ok(())
}

/// The numbers that are wanted at a place, each once.
pub(crate) fn wanted(
    alloc: Global,
    leads: &[(Place, u32)],
    at: Place,
) -> Result<Vec<u32>, AllocError>
    ensures { IfOk result (λ numbers. (n : ℕ) → Stands n numbers.items
        ↔ Stands n (wanted_there at leads.now)) }
{
    let mut numbers = those_at(alloc, leads, at)?;
    numbers.sort_unstable();
    numbers.dedup();
    Ok(numbers)
}

fn those_at(alloc: Global, leads: &[(Place, u32)], at: Place) -> Result<Vec<u32>, AllocError>
    ensures { IfOk result (λ numbers. numbers.items ≡ wanted_there at leads.now) }
{
    let mut numbers = Vec::new(alloc);
    for lead in leads {
        keep(&mut numbers, *lead, at)?;
    }
    Ok(numbers)
}

/// Appends the number that the lead wants, if it is wanted at this place.
fn keep(numbers: &mut Vec<u32>, lead: (Place, u32), at: Place) -> Result<(), AllocError>
    ensures { OnOk result (numbers.new.items
        ≡ numbers.old.items ++ (if is_to at lead then lead.1 ∷ [] else [])) }
{
    if rank(lead.0) == rank(at) {
        numbers.push(lead.1)?;
    }
    Ok(())
}

/// How many places stand before it.
fn rank(place: Place) -> u8
    ensures { result ≡ rank_of place }
{
    match place {
        Place::Placement => 0,
        Place::Shape => 1,
        Place::Body => 2,
        Place::Representation => 3,
        Place::Solid => 4,
        Place::Profile => 5,
        Place::Curve => 6,
        Place::PointList => 7,
        Place::Position3d => 8,
        Place::Position2d => 9,
        Place::Point => 10,
        Place::Direction => 11,
        Place::Material => 12,
        Place::LayerSet => 13,
        Place::Layer => 14,
        Place::LayerMaterial => 15,
    }
}
