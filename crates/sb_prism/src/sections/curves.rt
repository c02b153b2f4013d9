// Curves as they are read: their points are walked in the text, and kept as numbers.
ghost use Rattle.std.specs.Prelude.{◌≡◌, ◌++◌, List, [], ◌∷◌, map, Some, None, codes, IfOk, OnOk};
ghost use Rattle.std.specs.Ordering.{nat_cmp};
ghost use Rattle.std.specs.List.{All, flat_map};
ghost use Rattle.std.specs.BTreeMap.{get};
ghost use Rattle.sb_schema.specs.declared.lists.TypedList.{TypedList as Segment};
ghost use Rattle.sb_schema.specs.Views.{IsOther};
ghost use Rattle.sb_place.specs.declared.sight.Seen.{Seen as SeenOf};
ghost use Rattle.sb_place.specs.declared.sight.Seen.TheVariants as seen;
ghost use Rattle.sb_place.specs.Directions.{Coordinates};
ghost use Rattle.sb_place.specs.Positions.{IsPoint};
ghost use Rattle.sb_fraction.specs.declared.unit.Unit as units;
ghost use Rattle.sb_prism.specs.Shapes.{Curve, AreEach, IsCurve};
ghost use Rattle.sb_prism.specs.Shapes.Curve.{polyline, indexed};
ghost use Rattle.sb_prism.specs.Outlines.{texts_at, point_numbered};
ghost use Rattle.sb_prism.specs.Kept as spec;
ghost use Rattle.sb_prism.specs.Picked.{Names};

use crate::faults::Faults;
use crate::picked::{Places, named_point, pick};
use crate::reading::{indexed_seen, list_seen, point_at, polyline_seen};
use crate::sections::indices::are_segments;
use crate::sections::outline::Outline;
use crate::spot::{origin, spot_of_pair, spot_of_texts};
use sb_fraction::Unit;
use sb_list::{Listed, Text};
use sb_place::Seen;
use sb_schema::{LentPairs, LentReferences, Texts, TypedList, TypedLists};
use sb_solid::Spot;
use sb_step::StepFile;
use std::alloc::{AllocError, Global};

/// What is kept of the curve of this number (IfcPolyline, IfcIndexedPolyCurve).
pub(crate) fn curve_at(
    alloc: Global,
    file: &StepFile<'_>,
    number: u32,
    unit: Unit,
) -> Result<Outline, AllocError>
    ensures { IfOk result (λ outline. (s : SeenOf Curve) × IsCurve file.now number s × (outline ≡ spec.outline_of unit s)) }
{
    match polyline_seen(file, number)? {
        Seen::Absent(n) => Ok(no_points(alloc, Faults::absent(n))),
        Seen::Broken(n) => Ok(no_points(alloc, Faults::broken(n))),
        Seen::Other => indexed_at(alloc, file, number, unit),
        Seen::Shown(polyline) => {
            let mut numbers = polyline.a1;
            along(alloc, file, &mut numbers, unit)
        }
    }
}

/// No points, and what is at fault.
fn no_points(alloc: Global, faults: Faults) -> Outline
    ensures { result ≡ spec.without_points faults }
{
    Outline {
        faults,
        points: Listed::new(alloc),
    }
}

/// What is kept of the points of these numbers.
fn along(
    alloc: Global,
    file: &StepFile<'_>,
    numbers: &mut LentReferences<'_>,
    unit: Unit,
) -> Result<Outline, AllocError>
    ensures { IfOk result (λ outline. (points : List (SeenOf Coordinates)) × AreEach (IsPoint file.now) numbers.old points
        × (outline ≡ spec.outline_of unit (seen.Shown (polyline points)))) }
{
    let mut outline = no_points(alloc, Faults::none());
    'numbers: while let Some(number) = numbers.next() {
        let point = point_at(alloc, file, number)?;
        push_point(&mut outline, &point, unit)?;
    }
    Ok(outline)
}

/// Appends a point of a polyline.
fn push_point(outline: &mut Outline, point: &Seen<Texts>, unit: Unit) -> Result<(), AllocError>
    ensures { OnOk result (outline.new
        ≡ spec.with_spot outline.old (spec.point_faults unit point.now) (spec.spot_at unit (texts_at point.now))) }
{
    let spot = spot_seen(point, unit);
    let faults = Faults::of_seen(point, spot.is_none());
    push(outline, faults, spot_or_none(spot))
}

fn spot_seen(point: &Seen<Texts>, unit: Unit) -> Option<Spot>
    ensures { result ≡ spec.spot_in unit (texts_at point.now) }
{
    match point {
        Seen::Shown(texts) => spot_of_texts(texts, unit),
        _ => Some(origin()),
    }
}

fn spot_or_none(spot: Option<Spot>) -> Spot
    ensures { result ≡ spec.spot_or_none spot }
{
    match spot {
        Some(spot) => spot,
        None => origin(),
    }
}

/// Appends a point, and what is at fault there.
fn push(outline: &mut Outline, faults: Faults, spot: Spot) -> Result<(), AllocError>
    ensures { OnOk result (outline.new ≡ spec.with_spot outline.old faults spot) }
{
    outline.points.push(spot)?;
    outline.faults = outline.faults.and(faults);
    Ok(())
}

/// What is kept of the indexed curve of this number.
fn indexed_at(
    alloc: Global,
    file: &StepFile<'_>,
    number: u32,
    unit: Unit,
) -> Result<Outline, AllocError>
    ensures { IfOk result (λ outline. IsOther (codes "IFCPOLYLINE" ∷ []) file.now number
        → (s : SeenOf Curve) × IsCurve file.now number s × (outline ≡ spec.outline_of unit s)) }
{
    match indexed_seen(alloc, file, number)? {
        Seen::Absent(n) => Ok(no_points(alloc, Faults::absent(n))),
        Seen::Broken(n) => Ok(no_points(alloc, Faults::broken(n))),
        Seen::Other => Ok(no_points(alloc, Faults::stray())),
        Seen::Shown(curve) => listed_at(alloc, file, curve.a1, &curve.a2, unit),
    }
}

/// What is kept of the points of the list of this number, of which the segments name some.
fn listed_at(
    alloc: Global,
    file: &StepFile<'_>,
    number: u32,
    segments: &Option<TypedLists>,
    unit: Unit,
) -> Result<Outline, AllocError>
    ensures { IfOk result (λ outline. (points : SeenOf (List Coordinates)) × spec.IsList file.now number points
        × (outline ≡ spec.outline_of unit (seen.Shown (indexed points segments.now)))) }
{
    match list_seen(file, number)? {
        Seen::Absent(n) => Ok(no_points(alloc, Faults::absent(n))),
        Seen::Broken(n) => Ok(no_points(alloc, Faults::broken(n))),
        Seen::Other => Ok(no_points(alloc, Faults::stray())),
        Seen::Shown(list) => {
            let mut pairs = list.a1;
            points_of(alloc, &mut pairs, segments, unit)
        }
    }
}

/// What is kept of those points of a list that the segments name, or of all where there are none.
fn points_of(
    alloc: Global,
    pairs: &mut LentPairs<'_>,
    segments: &Option<TypedLists>,
    unit: Unit,
) -> Result<Outline, AllocError>
    ensures { IfOk result (λ outline. outline
        ≡ spec.outline_of unit (seen.Shown (indexed (seen.Shown pairs.old) segments.now))) }
{
    match segments {
        Some(segments) => named(alloc, pairs, segments.as_slice(), unit),
        None => whole(alloc, pairs, unit),
    }
}

/// What is kept of all points of a list.
fn whole(alloc: Global, pairs: &mut LentPairs<'_>, unit: Unit) -> Result<Outline, AllocError>
    ensures { IfOk result (λ outline. outline
        ≡ spec.outline_of unit (seen.Shown (indexed (seen.Shown pairs.old) None))) }
{
    let mut outline = no_points(alloc, Faults::none());
    'pairs: while let Some((x, y)) = pairs.next() {
        push_measured(&mut outline, spot_of_pair(x, y, unit))?;
    }
    Ok(outline)
}

/// What is kept of those points of a list that these segments name.
fn named(
    alloc: Global,
    pairs: &mut LentPairs<'_>,
    segments: &[TypedList],
    unit: Unit,
) -> Result<Outline, AllocError>
    ensures { IfOk result (λ outline. outline
        ≡ spec.outline_of unit (seen.Shown (indexed (seen.Shown pairs.old) (Some segments.now)))) }
{
    let picked = pick(alloc, pairs, segments, unit)?;
    let stray = !are_segments(picked.count, segments);
    let mut outline = no_points(alloc, Faults::of_lengths(stray, false));
    push_segments(&mut outline, &picked.points, segments)?;
    Ok(outline)
}

/// Appends the points that the segments name.
fn push_segments(
    outline: &mut Outline,
    picked: &Places,
    segments: &[TypedList],
) -> Result<(), AllocError>
    ensures { OnOk result ((unit : units.Unit) (points : List Coordinates)
        → All (λ s. All (Names unit points (get nat_cmp picked.now)) s.list) segments.now
        → outline.new ≡ spec.with_points unit outline.old
        (map (point_numbered points) (flat_map (λ s. s.list) segments.now))) }
{
    'segments: for segment in segments {
        push_named(outline, picked, segment.list.as_slice())?;
    }
    Ok(())
}

/// Appends the points of these indices.
fn push_named(outline: &mut Outline, picked: &Places, texts: &[Text]) -> Result<(), AllocError>
    ensures { OnOk result ((unit : units.Unit) (points : List Coordinates)
        → All (Names unit points (get nat_cmp picked.now)) texts.now
        → outline.new ≡ spec.with_points unit outline.old (map (point_numbered points) texts.now)) }
{
    'texts: for text in texts {
        push_measured(outline, named_point(picked, text.bytes()))?;
    }
    Ok(())
}

/// Appends a point of a list.
fn push_measured(outline: &mut Outline, spot: Option<Spot>) -> Result<(), AllocError>
    ensures { OnOk result (outline.new ≡ spec.with_measured outline.old spot) }
{
    let faults = Faults::of_lengths(false, spot.is_none());
    push(outline, faults, spot_or_none(spot))
}
