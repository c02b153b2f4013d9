// A placement with those above it, composed from above.
ghost use Rattle.std.specs.Prelude.{◌≡◌, ◌≤◌, ◌<◌, ◌+◌, ℕ, Bool, List, [], ◌∷◌, Option, option_map, slice_get, length, None, Some, false, IfOk, IsTrue, not, ◌||◌, nat_lt, nat_le, unsigned_abs, if◌then◌else◌};
ghost use Rattle.std.specs.List.{list_all};
ghost use Rattle.sb_fraction.specs.declared.unit.Unit as units;
ghost use Rattle.sb_place.specs.declared.sight.Seen.{Seen};
ghost use Rattle.sb_place.specs.declared.sight.Seen.TheVariants as seen;
ghost use Rattle.sb_place.specs.declared.position.Position.{Position};
ghost use Rattle.sb_place.specs.Positions.{IsSpacePosition};
ghost use Rattle.sb_place.specs.Chains as chain;
ghost use Rattle.sb_place.specs.Judgement.{Judges, is_shift, greatest_shift, is_broken_off, is_out_of_range, IsFrameOf};
ghost use Rattle.sb_step.specs.Indexed.{Indexed};
ghost use Rattle.sb_place.specs.Steps.{nearest_read, read_below};
ghost use Rattle.theory_turns.specs.Turns.{is_quarter};
ghost use Rattle.sb_place.specs.Sizes.{fits_at, are_lengths};
ghost use Rattle.sb_place.specs.Kept as spec;

use crate::error::PlaceError;
use crate::kept::{Placed, Sighting};
use crate::position::{Local, no_turn, told};
use crate::reading::space_position;
use sb_fraction::Unit;
use sb_model::Frame;
use sb_step::StepFile;
use std::alloc::{AllocError, Global};

/// The greatest number of placements of a chain that are read.
pub(crate) const MOST: u32 = 64;

/// The placement whose position (its attribute RelativePlacement) has this number, on the chain above it.
/// Lengths are in this unit. The chain may be longer than what is read of one.
pub fn placed_on(
    alloc: Global,
    file: &StepFile<'_>,
    above: &Placed,
    axes: u32,
    unit: Unit,
) -> Result<Placed, AllocError>
    ensures { IfOk result (λ placed. (s : Seen Position) × IsSpacePosition file.now axes s
        × ((links : List chain.Link) (reached : Bool) → spec.IsKept unit links reached above.now
        → spec.IsKept unit (seen.Shown s ∷ links) reached placed)) }
{
    let position = space_position(alloc, file, axes)?;
    Ok(above.under(&told(&position, unit)))
}

impl Placed {
    /// What is kept above the highest placement, where the chain ends where it should, at the building's
    /// placement or with no building, or where it does not.
    pub fn end(reached: bool) -> Placed
        ensures { (unit : units.Unit) → spec.IsKept unit [] reached result }
    {
        Placed {
            depth: 0,
            reached,
            broken: None,
            absent: None,
            stray: false,
            turned: false,
            far: false,
            frame: unmoved(),
        }
    }

    /// What is kept of a placement that no instance is.
    pub fn absent(number: u32) -> Placed
        ensures { (unit : units.Unit) → spec.IsKept unit (seen.Absent number ∷ []) false result }
    {
        Placed {
            depth: 1,
            reached: false,
            broken: None,
            absent: Some(Sighting { number, above: 0 }),
            stray: false,
            turned: false,
            far: false,
            frame: unmoved(),
        }
    }

    /// What is kept of a placement that is not of its row.
    pub fn broken(number: u32) -> Placed
        ensures { (unit : units.Unit) → spec.IsKept unit (seen.Broken number ∷ []) false result }
    {
        Placed {
            depth: 1,
            reached: false,
            broken: Some(Sighting { number, above: 0 }),
            absent: None,
            stray: false,
            turned: false,
            far: false,
            frame: unmoved(),
        }
    }

    /// What is kept of an instance that is no placement.
    pub fn other() -> Placed
        ensures { (unit : units.Unit) → spec.IsKept unit (seen.Other ∷ []) false result }
    {
        Placed {
            depth: 1,
            reached: false,
            broken: None,
            absent: None,
            stray: true,
            turned: false,
            far: false,
            frame: unmoved(),
        }
    }

    /// A placement with this position, under these.
    fn under(&self, own: &Local) -> Placed
        requires size { IsTrue (are_lengths own.now.frame.shift) }
        requires upright { IsTrue (is_quarter own.now.frame.turn.x own.now.frame.turn.z) }
        ensures { (unit : units.Unit) (s : Seen Position) (links : List chain.Link) (reached : Bool)
            → own.now ≡ spec.local_of unit s → spec.IsKept unit links reached self.now
            → spec.IsKept unit (seen.Shown s ∷ links) reached result }
    {
        Placed {
            depth: deeper(self.depth),
            reached: self.reached,
            broken: nearest(own.broken, self.broken),
            absent: nearest(own.absent, self.absent),
            stray: either(own.stray, self.stray),
            turned: either(own.turned, self.turned),
            far: either(own.far, self.far),
            frame: frame_under(self, own.frame),
        }
    }

    /// The frame of the placements, where a product stands, or the first fault of Fields, Missing, Chain,
    /// Turned and Range. It tells what is read of them from the lowest upwards, at most 64: where there
    /// are more it is `Chain`, unless one of these 64 is at fault before.
    pub fn frame(&self) -> Result<Frame, PlaceError>
        ensures whole { (indexed : Indexed) (building placement : Option ℕ) (unit : units.Unit)
            → spec.IsKeptOf indexed building unit placement self.now
            → IsFrameOf indexed placement building unit result }
        ensures read { (unit : units.Unit) (links : List chain.Link) (reached : Bool)
            → spec.IsKept unit links reached self.now
            → Judges unit (spec.read_of links) (spec.is_reached_by links reached) result }
    {
        if let Some(broken) = self.broken {
            return Err(PlaceError::Fields(broken.number));
        }
        if let Some(absent) = self.absent {
            return Err(PlaceError::Missing(absent.number));
        }
        if self.is_broken_off() {
            return Err(PlaceError::Chain);
        }
        if self.turned {
            return Err(PlaceError::Turned);
        }
        if self.is_out_of_range() {
            return Err(PlaceError::Range);
        }
        Ok(self.frame)
    }

    /// Whether the chain does not end where it should, is too long, or has an instance of another entity.
    fn is_broken_off(&self) -> bool
        ensures { (unit : units.Unit) (links : List chain.Link) (reached : Bool)
            → spec.IsKept unit links reached self.now
            → result ≡ is_broken_off (spec.read_of links) (spec.is_reached_by links reached) }
    {
        is_off(self.reached, self.depth, self.stray)
    }

    /// Whether a coordinate of a placement or the whole shift is out of range.
    fn is_out_of_range(&self) -> bool
        ensures { (unit : units.Unit) (links : List chain.Link) (reached : Bool)
            → spec.IsKept unit links reached self.now → length links ≤ chain.most_placements
            → result ≡ is_out_of_range unit links }
    {
        either(self.far, !is_shift(self.frame.shift))
    }
}

/// Whether one of two things is so.
fn either(a: bool, b: bool) -> bool
    ensures { result ≡ (a || b) }
{
    a || b
}

/// Whether the chain does not end where it should, is too long, or has an instance of another entity.
fn is_off(reached: bool, depth: u32, stray: bool) -> bool
    ensures { result ≡ (not reached || (nat_lt chain.most_placements depth || stray)) }
{
    !reached || depth > MOST || stray
}

/// How deep a placement stands on one of this depth, and one more than are read where it is deeper.
fn deeper(depth: u32) -> u32
    ensures { result ≡ spec.below depth }
{
    if depth > MOST { depth } else { depth + 1 }
}

/// A number of the placement itself, or else one from above that is near enough to be read.
fn nearest(own: Option<u32>, above: Option<Sighting>) -> Option<Sighting>
    ensures { result ≡ nearest_read own above }
{
    match own {
        Some(number) => Some(Sighting { number, above: 0 }),
        None => from_below(above?),
    }
}

/// The same sighting from the placement below, if it is read from there.
fn from_below(above: Sighting) -> Option<Sighting>
    ensures { result ≡ read_below above }
{
    if above.above < MOST - 1 {
        Some(Sighting {
            number: above.number,
            above: above.above + 1,
        })
    } else {
        None
    }
}

/// The frame that takes every point to itself.
fn unmoved() -> Frame
    ensures { result ≡ chain.unmoved }
{
    Frame {
        turn: no_turn(),
        shift: [0, 0, 0],
    }
}

/// A frame within those above, while they are not too many.
fn frame_under(above: &Placed, own: Frame) -> Frame
    requires size { IsTrue (are_lengths own.shift) }
    requires upright { IsTrue (is_quarter own.turn.x own.turn.z) }
    ensures value { above.now.depth < chain.most_placements
        → result ≡ chain.within own above.now.frame }
    ensures fits { IsTrue (fits_at (spec.below above.now.depth) result.shift) }
    ensures upright { IsTrue (is_quarter result.turn.x result.turn.z) }
{
    if above.depth < MOST {
        within(own, above.frame, above.depth)
    } else {
        above.frame
    }
}

/// A frame within another, whose shift is that of so many placements.
fn within(inner: Frame, outer: Frame, depth: u32) -> Frame
    requires few { depth < chain.most_placements }
    requires inner_in { IsTrue (are_lengths inner.shift) }
    requires outer_in { IsTrue (fits_at depth outer.shift) }
    requires inner_upright { IsTrue (is_quarter inner.turn.x inner.turn.z) }
    requires outer_upright { IsTrue (is_quarter outer.turn.x outer.turn.z) }
    ensures value { result ≡ chain.within inner outer }
    ensures fits { IsTrue (fits_at (depth + 1) result.shift) }
    ensures upright { IsTrue (is_quarter result.turn.x result.turn.z) }
{
    Frame {
        turn: inner.turn.then(outer.turn),
        shift: outer.apply(inner.shift),
    }
}

/// Whether each number of a shift is at most 10^12 nm in size.
fn is_shift(shift: [i128; 3]) -> bool
    ensures { result ≡ is_shift shift }
{
    let [x, y, z] = shift;
    is_short(x) && is_short(y) && is_short(z)
}

fn is_short(number: i128) -> bool
    ensures { result ≡ nat_le (unsigned_abs number) greatest_shift }
{
    number.unsigned_abs() <= 1_000_000_000_000
}
