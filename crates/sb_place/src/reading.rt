// Positions as they are read from a file.
ghost use Rattle.std.specs.Prelude.{◌≡◌, ◌++◌, take, IfOk, OnOk, option_copied};
ghost use Rattle.sb_place.specs.Positions as spec;
ghost use Rattle.sb_schema.specs.Rows as rows;
ghost use Rattle.sb_place.specs.Sight.{IsSeen};
ghost use Rattle.sb_place.specs.Steps.{items_of};

use crate::position::Position;
use crate::sight::{Seen, sighted};
use sb_list::{Listed, Text};
use sb_schema::{
    Axis2Placement2d, Axis2Placement3d, CartesianPoint, Direction, LocalPlacement, Texts,
    axis2_placement_2d, axis2_placement_3d, cartesian_point, direction, local_placement,
};
use sb_step::StepFile;
use std::alloc::{AllocError, Global};

/// The position of this number in space (IfcAxis2Placement3D), with its point and its directions.
pub fn space_position(
    alloc: Global,
    file: &StepFile<'_>,
    number: u32,
) -> Result<Seen<Position>, AllocError>
    ensures { IfOk result (λ position. spec.IsSpacePosition file.now number position) }
{
    let axes = match space_axes(file, number)? {
        Seen::Absent(n) => return Ok(Seen::Absent(n)),
        Seen::Broken(n) => return Ok(Seen::Broken(n)),
        Seen::Other => return Ok(Seen::Other),
        Seen::Shown(axes) => axes,
    };
    let location = point_at(alloc, file, axes.a1)?;
    let axis = direction_where(alloc, file, axes.a2)?;
    let reference = direction_where(alloc, file, axes.a3)?;
    Ok(Seen::Shown(Position {
        location,
        axis,
        reference,
    }))
}

/// The position of this number in the plan (IfcAxis2Placement2D), with its point and its direction. A third
/// coordinate or ratio is not read.
pub fn plan_position(
    alloc: Global,
    file: &StepFile<'_>,
    number: u32,
) -> Result<Seen<Position>, AllocError>
    ensures { IfOk result (λ position. spec.IsPlanPosition file.now number position) }
{
    let axes = match plan_axes(file, number)? {
        Seen::Absent(n) => return Ok(Seen::Absent(n)),
        Seen::Broken(n) => return Ok(Seen::Broken(n)),
        Seen::Other => return Ok(Seen::Other),
        Seen::Shown(axes) => axes,
    };
    let location = point_at(alloc, file, axes.a1)?;
    let reference = direction_where(alloc, file, axes.a2)?;
    let location = in_plan(alloc, location)?;
    let reference = in_plan_where(alloc, reference)?;
    Ok(Seen::Shown(Position {
        location,
        axis: None,
        reference,
    }))
}

/// The coordinates of the point of this number.
fn point_at(alloc: Global, file: &StepFile<'_>, number: u32) -> Result<Seen<Texts>, AllocError>
    ensures { IfOk result (λ texts. spec.IsPoint file.now number texts) }
{
    match point_seen(alloc, file, number)? {
        Seen::Absent(n) => Ok(Seen::Absent(n)),
        Seen::Broken(n) => Ok(Seen::Broken(n)),
        Seen::Other => Ok(Seen::Other),
        Seen::Shown(point) => Ok(Seen::Shown(point.a1)),
    }
}

/// The ratios of the direction of this number.
fn direction_at(alloc: Global, file: &StepFile<'_>, number: u32) -> Result<Seen<Texts>, AllocError>
    ensures { IfOk result (λ texts. spec.IsDirection file.now number texts) }
{
    match direction_seen(alloc, file, number)? {
        Seen::Absent(n) => Ok(Seen::Absent(n)),
        Seen::Broken(n) => Ok(Seen::Broken(n)),
        Seen::Other => Ok(Seen::Other),
        Seen::Shown(direction) => Ok(Seen::Shown(direction.a1)),
    }
}

/// The ratios of a direction that may be left out.
fn direction_where(
    alloc: Global,
    file: &StepFile<'_>,
    number: Option<u32>,
) -> Result<Option<Seen<Texts>>, AllocError>
    ensures { IfOk result (λ texts. spec.IsDirectionWhere file.now number texts) }
{
    match number {
        None => Ok(None),
        Some(number) => Ok(Some(direction_at(alloc, file, number)?)),
    }
}

/// The first two of the coordinates.
fn in_plan(alloc: Global, whole: Seen<Texts>) -> Result<Seen<Texts>, AllocError>
    ensures { IfOk result (λ texts. texts ≡ spec.in_plan whole) }
{
    match whole {
        Seen::Shown(texts) => Ok(Seen::Shown(first_two(alloc, &texts)?)),
        other => Ok(other),
    }
}

fn in_plan_where(
    alloc: Global,
    whole: Option<Seen<Texts>>,
) -> Result<Option<Seen<Texts>>, AllocError>
    ensures { IfOk result (λ texts. texts ≡ spec.in_plan_where whole) }
{
    match whole {
        Some(seen) => Ok(Some(in_plan(alloc, seen)?)),
        None => Ok(None),
    }
}

/// The first two of a list, or what there is of them.
fn first_two(alloc: Global, whole: &Texts) -> Result<Texts, AllocError>
    ensures { IfOk result (λ texts. texts ≡ take 2 whole.now) }
{
    let mut two = Listed::new(alloc);
    append(&mut two, whole.get(0))?;
    append(&mut two, whole.get(1))?;
    Ok(two)
}

/// Puts a copy of the text, where there is one, behind the others.
fn append(texts: &mut Texts, text: Option<&Text>) -> Result<(), AllocError>
    ensures { OnOk result (texts.new ≡ texts.old ++ items_of (option_copied text.entry)) }
{
    match text {
        Some(text) => texts.push(text.copy()?),
        None => Ok(()),
    }
}

/// What is seen of an IfcLocalPlacement.
pub(crate) fn placement_seen(
    file: &StepFile<'_>,
    number: u32,
) -> Result<Seen<LocalPlacement>, AllocError>
    ensures { IfOk result (λ s. IsSeen rows.local_placement file.now number (λ v. (v.a1, (v.a2, tt))) s) }
{
    let view = local_placement(file, number);
    sighted(view)
}

/// What is seen of an IfcAxis2Placement3D.
fn space_axes(file: &StepFile<'_>, number: u32) -> Result<Seen<Axis2Placement3d>, AllocError>
    ensures { IfOk result (λ s. IsSeen rows.axis2_placement_3d file.now number
        (λ v. (v.a1, (v.a2, (v.a3, tt)))) s) }
{
    let view = axis2_placement_3d(file, number);
    sighted(view)
}

/// What is seen of an IfcAxis2Placement2D.
fn plan_axes(file: &StepFile<'_>, number: u32) -> Result<Seen<Axis2Placement2d>, AllocError>
    ensures { IfOk result (λ s. IsSeen rows.axis2_placement_2d file.now number (λ v. (v.a1, (v.a2, tt))) s) }
{
    let view = axis2_placement_2d(file, number);
    sighted(view)
}

/// What is seen of an IfcCartesianPoint.
fn point_seen(
    alloc: Global,
    file: &StepFile<'_>,
    number: u32,
) -> Result<Seen<CartesianPoint>, AllocError>
    ensures { IfOk result (λ s. IsSeen rows.cartesian_point file.now number (λ v. (v.a1, tt)) s) }
{
    let view = cartesian_point(alloc, file, number);
    sighted(view)
}

/// What is seen of an IfcDirection.
fn direction_seen(
    alloc: Global,
    file: &StepFile<'_>,
    number: u32,
) -> Result<Seen<Direction>, AllocError>
    ensures { IfOk result (λ s. IsSeen rows.direction file.now number (λ v. (v.a1, tt)) s) }
{
    let view = direction(alloc, file, number);
    sighted(view)
}
