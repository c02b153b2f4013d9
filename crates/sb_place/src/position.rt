// Positions, and what they say.
ghost use Rattle.std.specs.Prelude.{◌≡◌, ◌≤◌, ℕ, ◌++◌, List, IsTrue, IfOk, IfSome, IfNone, option_map, option_copied, unsigned_abs, slice_get, is_some, not, true, false};
ghost use Rattle.sb_fraction.specs.Spots.{vector};
ghost use Rattle.sb_fraction.specs.Directions.{axis_x, axis_z};
ghost use Rattle.sb_fixed.specs.Lengths.{nanometres_of, greatest_nanometres};
ghost use Rattle.theory_turns.specs.Turns.{is_quarter};
ghost use Rattle.sb_model.specs.Frames.{numbers_of};
ghost use Rattle.sb_place.specs.Directions.{value_where, passes_where, vector_by, all_three, snapped};
ghost use Rattle.sb_place.specs.Sight.{broken_where, absent_where, is_other_where};
ghost use Rattle.sb_place.specs.Positions as spec;
ghost use Rattle.sb_place.specs.Kept.{local_of};
ghost use Rattle.sb_place.specs.Sizes.{are_lengths};

use crate::directions::axis_of;
use crate::sight::Seen;
use sb_fixed::nanometres;
use sb_fraction::Unit;
use sb_list::Text;
use sb_model::{Axis, Frame, Turn};
use sb_schema::Texts;

/// An origin and the directions of two local axes, as they stand (IfcAxis2Placement3D). One in the plan
/// (IfcAxis2Placement2D) has two coordinates and ratios, and no axis of its own.
#[derive(Drop)]
pub struct Position {
    /// Location: the coordinates of the origin.
    pub location: Seen<Texts>,
    /// Axis: the ratios of the local z; the world's z where it is left out.
    pub axis: Option<Seen<Texts>>,
    /// RefDirection: the ratios of the local x; the world's x where it is left out.
    pub reference: Option<Seen<Texts>>,
}

/// What a position says: its faults, and its frame where it has none.
#[derive(Clone, Copy)]
pub struct Local {
    /// An instance of it that is not of its row.
    pub broken: Option<u32>,
    /// A number that it names and no instance has.
    pub absent: Option<u32>,
    /// Whether an instance of it is of another entity.
    pub stray: bool,
    /// Whether a direction lies along no axis, or both lie along one.
    pub turned: bool,
    /// Whether a coordinate of the origin is out of range.
    pub far: bool,
    /// The frame. At a position of another entity or with a direction that does not snap it is not turned;
    /// where its origin is not read or out of range it is not shifted.
    pub frame: Frame,
}

/// What a position says, with lengths in this unit.
pub fn told(position: &Seen<Position>, unit: Unit) -> Local
    ensures value { result ≡ local_of unit position.now }
    ensures size { IsTrue (are_lengths result.frame.shift) }
    ensures upright { IsTrue (is_quarter result.frame.turn.x result.frame.turn.z) }
{
    Local {
        broken: broken(position),
        absent: absent(position),
        stray: is_stray(position),
        turned: is_turned(position),
        far: is_far(position, unit),
        frame: frame(position, unit),
    }
}

fn broken(position: &Seen<Position>) -> Option<u32>
    ensures { result ≡ slice_get (spec.broken_in position.now) 0 }
{
    match position {
        Seen::Shown(p) => first(
            p.location.broken(),
            first(broken_where(&p.axis), broken_where(&p.reference)),
        ),
        other => other.broken(),
    }
}

fn absent(position: &Seen<Position>) -> Option<u32>
    ensures { result ≡ slice_get (spec.absent_in position.now) 0 }
{
    match position {
        Seen::Shown(p) => first(
            p.location.absent(),
            first(absent_where(&p.axis), absent_where(&p.reference)),
        ),
        other => other.absent(),
    }
}

fn is_stray(position: &Seen<Position>) -> bool
    ensures { result ≡ spec.is_stray position.now }
{
    match position {
        Seen::Shown(p) => {
            p.location.is_other() || is_other_where(&p.axis) || is_other_where(&p.reference)
        }
        other => other.is_other(),
    }
}

/// The first of two numbers that is there.
fn first(a: Option<u32>, b: Option<u32>) -> Option<u32>
    ensures { (xs ys : List ℕ) → a ≡ slice_get xs 0 → b ≡ slice_get ys 0 → result ≡ slice_get (xs ++ ys) 0 }
{
    match a {
        Some(n) => Some(n),
        None => b,
    }
}

fn broken_where(direction: &Option<Seen<Texts>>) -> Option<u32>
    ensures { result ≡ slice_get (broken_where direction.now) 0 }
{
    match direction {
        Some(seen) => seen.broken(),
        None => None,
    }
}

fn absent_where(direction: &Option<Seen<Texts>>) -> Option<u32>
    ensures { result ≡ slice_get (absent_where direction.now) 0 }
{
    match direction {
        Some(seen) => seen.absent(),
        None => None,
    }
}

fn is_other_where(direction: &Option<Seen<Texts>>) -> bool
    ensures { result ≡ is_other_where direction.now }
{
    match direction {
        Some(seen) => seen.is_other(),
        None => false,
    }
}

fn is_turned(position: &Seen<Position>) -> bool
    ensures { result ≡ spec.is_turned position.now }
{
    match position {
        Seen::Shown(p) => is_slanted(&p.axis) || is_slanted(&p.reference) || is_along(p),
        _ => false,
    }
}

/// Whether the direction is given, and snaps to no axis.
fn is_slanted(direction: &Option<Seen<Texts>>) -> bool
    ensures { result ≡ spec.is_slanted direction.now }
{
    match direction {
        Some(Seen::Shown(ratios)) => axis_of(ratios).is_none(),
        _ => false,
    }
}

/// Whether both axes are known, and lie along one.
fn is_along(p: &Position) -> bool
    ensures { result ≡ spec.are_along (spec.x_in p.now) (spec.z_in p.now) }
{
    let x = axis_where(east(), &p.reference);
    let z = axis_where(up(), &p.axis);
    match (x, z) {
        (Some(x), Some(z)) => Turn::new(x, z).is_none(),
        _ => false,
    }
}

/// The axis of a direction, or this one where it is left out.
fn axis_where(left_out: Axis, direction: &Option<Seen<Texts>>) -> Option<Axis>
    ensures { option_map (λ a. vector a.x a.y a.z) result
        ≡ spec.axis_where (vector left_out.x left_out.y left_out.z) direction.now }
{
    match direction {
        None => Some(left_out),
        Some(Seen::Shown(ratios)) => axis_of(ratios),
        Some(_) => None,
    }
}

fn is_far(position: &Seen<Position>, unit: Unit) -> bool
    ensures { result ≡ spec.is_far unit position.now }
{
    match position {
        Seen::Shown(p) => match &p.location {
            Seen::Shown(texts) => point(texts, unit).is_none(),
            _ => false,
        },
        _ => false,
    }
}

/// The frame of a position.
fn frame(position: &Seen<Position>, unit: Unit) -> Frame
    ensures value { result ≡ spec.frame_in unit position.now }
    ensures size { IsTrue (are_lengths result.shift) }
    ensures upright { IsTrue (is_quarter result.turn.x result.turn.z) }
{
    match position {
        Seen::Shown(p) => Frame {
            turn: turn(p),
            shift: origin(&p.location, unit),
        },
        _ => Frame {
            turn: no_turn(),
            shift: [0, 0, 0],
        },
    }
}

/// The turn of a position, and no turn where it has none.
fn turn(p: &Position) -> Turn
    ensures value { result ≡ spec.turn_or_none (spec.turn_to (spec.x_in p.now) (spec.z_in p.now)) }
    ensures upright { IsTrue (is_quarter result.x result.z) }
{
    let x = axis_where(east(), &p.reference);
    let z = axis_where(up(), &p.axis);
    match turn_to(x, z) {
        Some(turn) => turn,
        None => no_turn(),
    }
}

fn turn_to(x: Option<Axis>, z: Option<Axis>) -> Option<Turn>
    ensures value { result ≡ spec.turn_to (option_map (λ a. vector a.x a.y a.z) x) (option_map (λ a. vector a.x a.y a.z) z) }
    ensures upright { IfSome result (λ turn. IsTrue (is_quarter turn.x turn.z)) }
{
    match (x, z) {
        (Some(x), Some(z)) => Turn::new(x, z),
        _ => None,
    }
}

pub(crate) fn no_turn() -> Turn
    ensures { result ≡ spec.unturned }
{
    Turn::new(east(), up()).unwrap()
}

fn east() -> Axis
    ensures { vector result.x result.y result.z ≡ axis_x }
{
    Axis { x: 1, y: 0, z: 0 }
}

fn up() -> Axis
    ensures { vector result.x result.y result.z ≡ axis_z }
{
    Axis { x: 0, y: 0, z: 1 }
}

/// The origin in nanometres (nm), and (0, 0, 0) where it is not read or out of range.
fn origin(location: &Seen<Texts>, unit: Unit) -> [i128; 3]
    ensures value { result ≡ numbers_of (spec.origin_at unit location.now) }
    ensures size { IsTrue (are_lengths result) }
{
    match location {
        Seen::Shown(texts) => point(texts, unit).unwrap_or([0, 0, 0]),
        _ => [0, 0, 0],
    }
}

/// Three coordinates in nanometres (nm); `None` where one is out of range.
fn point(texts: &Texts, unit: Unit) -> Option<[i128; 3]>
    ensures some { IfSome result (λ p. (all_three (spec.is_length unit) texts.now ≡ true)
        × (p ≡ numbers_of (vector_by (λ text. nanometres_of text unit) texts.now))) }
    ensures size { IfSome result (λ p. IsTrue (are_lengths p)) }
    ensures none { IfNone result (all_three (spec.is_length unit) texts.now ≡ false) }
{
    let x = length_where(texts.get(0), unit)?;
    let y = length_where(texts.get(1), unit)?;
    let z = length_where(texts.get(2), unit)?;
    Some([x, y, z])
}

/// A length in nanometres (nm), and 0 where it is left out; `None` where it is out of range.
fn length_where(text: Option<&Text>, unit: Unit) -> Option<i128>
    ensures value { IfSome result (λ nm. nm ≡ value_where (λ t. nanometres_of t unit) (option_copied text.entry)) }
    ensures size { IfSome result (λ nm. unsigned_abs nm ≤ greatest_nanometres) }
    ensures some { IfSome result (λ _. passes_where (spec.is_length unit) (option_copied text.entry) ≡ true) }
    ensures none { IfNone result (passes_where (spec.is_length unit) (option_copied text.entry) ≡ false) }
{
    match text {
        Some(text) => nanometres(text.bytes(), unit).ok(),
        None => Some(0),
    }
}
