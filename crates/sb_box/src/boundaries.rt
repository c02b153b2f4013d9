// The list of the boundaries of a box.
ghost use Rattle.std.specs.Prelude.{◌≡◌, ◌++◌, ◌∷◌, [], List, pos, IsTrue, IfOk, OnOk, OnErr, None};
ghost use Rattle.sb_box.specs.BoxList.{BoxPatch, IsBoxList, IsBoxBoundary, AreBoxBoundaries};
ghost use Rattle.sb_box.specs.BoxList.{IsLevelFace};
ghost use Rattle.sb_box.specs.BoxList.{box_patch, side_patches, is_cut, below, above};
ghost use Rattle.sb_box.specs.BoxModel.{IsBoxModel};
ghost use Rattle.sb_fraction.specs.Plane.{is_coordinate};
ghost use Rattle.sb_model.specs.Building.{Building};
ghost use Rattle.theory_numbers.specs.Fractions.{whole};
ghost use Rattle.sb_model.specs.Boundaries.Order.{IsInOrder};
ghost use Rattle.sb_model.specs.Boundaries.Sound.{IsSound};
ghost use Rattle.theory_plane.specs.Sides.{level};
ghost use Rattle.sb_model.specs.Surfaces.Sides.{line_of, is_side_of};

use crate::extent::{Extent, Interval};
use sb_fraction::{Direction, Fraction, Line};
use sb_model::{Boundaries, Boundary, End, Face, FaceKind, Items, Patch, Side, Walk};
use std::alloc::{AllocError, Global};

/// The boundaries of the box-shaped space with this number, in order: Bottom, Top, and the sides.
///
/// The ground is at height 0, and there is nothing else in the building. A side that the ground
/// cuts has two boundaries, the lower one first. Each boundary ends at once, at the earth where it
/// lies below the ground and else at the open air. The list is sound and in order for each model
/// that is this box; the only error is that memory ran out.
pub fn box_boundaries(alloc: Global, space: u32, extent: &Extent) -> Result<Boundaries, AllocError>
    ensures list { IfOk result (λ list. IsBoxList space extent.now list) }
    ensures sound { (m : Building) → IsBoxModel space extent.now m
        → IfOk result (λ list. IsSound m list) }
    ensures in_order { IfOk result (λ list. IsInOrder list) }
{
    let (x, y, z) = (extent.x(), extent.y(), extent.z());
    let mut list = Boundaries::new(alloc);
    list.push(level_boundary(alloc, space, FaceKind::Bottom, &x, &y, below(z.low)))?;
    list.push(level_boundary(alloc, space, FaceKind::Top, &x, &y, above(z.high)))?;
    push_side(&mut list, alloc, space, 0, &x, &z)?;
    push_side(&mut list, alloc, space, 1, &y, &z)?;
    push_side(&mut list, alloc, space, 2, &x, &z)?;
    push_side(&mut list, alloc, space, 3, &y, &z)?;
    Ok(list)
}

/// Appends the boundaries of a side, over u in `along`: two where the ground cuts it.
fn push_side(
    list: &mut Boundaries,
    alloc: Global,
    space: u32,
    edge: u32,
    along: &Interval,
    up: &Interval,
) -> Result<(), AllocError>
    ensures { (ps : List BoxPatch) → AreBoxBoundaries space ps list.old
        → OnOk result (AreBoxBoundaries space
        (ps ++ side_patches (FaceKind.Side edge) along.now.low along.now.high up.now.low up.now.high)
        list.new) }
{
    if is_cut(up) {
        let below_ground = up_to_ground(up);
        let above_ground = from_ground(up);
        list.push(side_boundary(alloc, space, edge, along, &below_ground, End::Earth))?;
        list.push(side_boundary(alloc, space, edge, along, &above_ground, End::Outside))?;
    } else {
        list.push(side_boundary(alloc, space, edge, along, up, above(up.low)))?;
    }
    Ok(())
}

/// Whether the ground lies strictly between these heights.
fn is_cut(up: &Interval) -> bool
    ensures { result ≡ is_cut up.now.low up.now.high }
{
    up.low < 0 && up.high > 0
}

/// The part of these heights below the ground.
fn up_to_ground(up: &Interval) -> Interval
    requires { IsTrue (is_cut up.now.low up.now.high) }
    ensures low { result.low ≡ up.now.low }
    ensures high { result.high ≡ pos 0 }
{
    Interval {
        low: up.low,
        high: 0,
    }
}

/// The part of these heights above the ground.
fn from_ground(up: &Interval) -> Interval
    requires { IsTrue (is_cut up.now.low up.now.high) }
    ensures low { result.low ≡ pos 0 }
    ensures high { result.high ≡ up.now.high }
{
    Interval {
        low: 0,
        high: up.high,
    }
}

/// The boundary that is the whole of Bottom or Top, over x and y.
fn level_boundary(
    alloc: Global,
    space: u32,
    kind: FaceKind,
    x: &Interval,
    y: &Interval,
    end: End,
) -> Boundary
    requires { IsLevelFace kind }
    ensures { IsBoxBoundary space
        (box_patch kind x.now.low x.now.high y.now.low y.now.high end) result }
{
    let patch = Patch {
        face: Face { space, kind },
        low: whole(x.low),
        high: whole(x.high),
        lower: level_line(y.low),
        upper: level_line(y.high),
    };
    boundary(alloc, patch, end)
}

/// The boundary that is a part of a side, over u in `along` and between the heights `up`.
fn side_boundary(
    alloc: Global,
    space: u32,
    edge: u32,
    along: &Interval,
    up: &Interval,
    end: End,
) -> Boundary
    ensures { IsBoxBoundary space (box_patch (FaceKind.Side edge)
        along.now.low along.now.high up.now.low up.now.high end) result }
{
    let patch = Patch {
        face: Face {
            space,
            kind: FaceKind::Side(edge),
        },
        low: whole(along.low),
        high: whole(along.high),
        lower: Side::Height(up.low),
        upper: Side::Height(up.high),
    };
    boundary(alloc, patch, end)
}

/// A boundary without items that ends at once.
fn boundary(alloc: Global, patch: Patch, end: End) -> Boundary
    ensures patch { result.patch ≡ patch }
    ensures items { result.walk.items ≡ [] }
    ensures depth { result.walk.depth ≡ pos 0 }
    ensures end { result.walk.end ≡ end }
    ensures pair { result.pair ≡ None }
    ensures parent { result.parent ≡ None }
    ensures key { result.key ≡ None }
{
    Boundary {
        patch,
        walk: Walk {
            items: Items::new(alloc),
            depth: 0,
            end,
        },
        pair: None,
        parent: None,
        key: None,
    }
}

/// A whole number as a fraction.
#[tactic(auto, using(crate::proofs::BoxPatchesArePatches::wholes))]
fn whole(x: i32) -> Fraction
    ensures { result ≡ whole x }
{
    Fraction::new(i128::from(x), 1)
}

/// The line in plan on which v is this.
fn level_line(v: i32) -> Side
    requires { IsTrue (is_coordinate v) }
    ensures same { line_of result ≡ level v }
    ensures fits { IsTrue (is_side_of FaceKind.Bottom result) }
{
    let east = Direction { x: 1, y: 0 };
    Side::OnLine(Line {
        dir: east,
        off: i64::from(v),
    })
}

/// What lies just below a height (mm).
fn below(z: i32) -> End
    ensures { result ≡ below z }
{
    if z <= 0 { End::Earth } else { End::Outside }
}

/// What lies just above a height (mm).
fn above(z: i32) -> End
    ensures { result ≡ above z }
{
    if z >= 0 { End::Outside } else { End::Earth }
}
