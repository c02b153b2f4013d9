// The points of a list that segments name. Of the others nothing is kept.
ghost use Rattle.std.specs.Prelude.{◌≡◌, ◌∷◌, [], ℕ, map, length, Some, None, is_some, nat_eq, IfOk, OnOk, if◌then◌else◌};
ghost use Rattle.std.specs.Ordering.{nat_cmp};
ghost use Rattle.std.specs.List.{flat_map};
ghost use Rattle.std.specs.BTreeMap.{get};
ghost use Rattle.sb_prism.specs.Kept.{spot_in, no_spot};
ghost use Rattle.sb_prism.specs.Picked as spec;

use crate::sections::indices::place;
use crate::spot::{origin, spot_of_pair};
use sb_fraction::Unit;
use sb_list::Text;
use sb_schema::{LentPairs, TypedList};
use sb_solid::Spot;
use std::alloc::{AllocError, Global};
use std::collections::BTreeMap;

/// Points by their places in a list, counted from 0; `None` is one that is out of range.
pub(crate) type Places = BTreeMap<usize, Option<Spot>>;

/// The points that segments name, and how many the whole list has.
#[derive(Drop)]
pub(crate) struct Picked {
    pub points: Places,
    pub count: usize,
}

/// Walks a list of points for those that these segments name.
pub(crate) fn pick(
    alloc: Global,
    pairs: &mut LentPairs<'_>,
    segments: &[TypedList],
    unit: Unit,
) -> Result<Picked, AllocError>
    ensures count { IfOk result (λ p. p.count ≡ length pairs.old) }
    ensures points { IfOk result (λ p. spec.ArePicked (map (spot_in unit) pairs.old)
        (flat_map (λ s. s.list) segments.now) (get nat_cmp p.points)) }
{
    let mut points = wanted(alloc, segments)?;
    let count = read(&mut points, pairs, unit)?;
    Ok(Picked { points, count })
}

/// The places that these segments name.
fn wanted(alloc: Global, segments: &[TypedList]) -> Result<Places, AllocError>
    ensures { IfOk result (λ points. (q : ℕ) → get nat_cmp points q
        ≡ spec.with_named (λ _. None) (flat_map (λ s. s.list) segments.now) q) }
{
    let mut points = BTreeMap::new(alloc);
    'segments: for segment in segments {
        want(&mut points, segment.list.as_slice())?;
    }
    Ok(points)
}

/// Adds the places that these texts name.
fn want(points: &mut Places, texts: &[Text]) -> Result<(), AllocError>
    ensures { OnOk result ((q : ℕ) → get nat_cmp points.new q ≡ spec.with_named (get nat_cmp points.old) texts.now q) }
{
    'texts: for text in texts {
        want_one(points, place(text.bytes()))?;
    }
    Ok(())
}

fn want_one(points: &mut Places, place: usize) -> Result<(), AllocError>
    ensures { OnOk result ((q : ℕ) → get nat_cmp points.new q
        ≡ (if nat_eq q place then Some (Some no_spot) else get nat_cmp points.old q)) }
{
    points.insert(place, Some(origin()))?;
    Ok(())
}

/// Reads the points at the places that are wanted. The answer is how many the list has; more than 2^64 are
/// want of memory.
fn read(points: &mut Places, pairs: &mut LentPairs<'_>, unit: Unit) -> Result<usize, AllocError>
    ensures count { IfOk result (λ n. n ≡ length pairs.old) }
    ensures points { OnOk result (spec.AreRead (get nat_cmp points.old) [] (get nat_cmp points.old)
        → spec.AreRead (get nat_cmp points.old) (map (spot_in unit) pairs.old) (get nat_cmp points.new)) }
{
    let mut at: usize = 0;
    'pairs: while let Some((x, y)) = pairs.next() {
        read_one(points, at, x, y, unit)?;
        at = at.checked_add(1).ok_or(AllocError)?;
    }
    Ok(at)
}

/// Reads the point at this place, if it is wanted.
fn read_one(
    points: &mut Places,
    place: usize,
    x: &[u8],
    y: &[u8],
    unit: Unit,
) -> Result<(), AllocError>
    ensures { OnOk result ((q : ℕ) → get nat_cmp points.new q
        ≡ (if nat_eq q place
        then (if is_some (get nat_cmp points.old place) then Some (spot_in unit (x.now ∷ y.now ∷ [])) else None)
        else get nat_cmp points.old q)) }
{
    if points.contains_key(&place) {
        points.insert(place, spot_of_pair(x, y, unit))?;
    }
    Ok(())
}

/// The point that a text names; the origin where it names none.
pub(crate) fn named_point(points: &Places, text: &[u8]) -> Option<Spot>
    ensures { result ≡ spec.point_where (get nat_cmp points.now (spec.place_of text.now)) }
{
    match points.get(&place(text)) {
        Some(spot) => *spot,
        None => Some(origin()),
    }
}
