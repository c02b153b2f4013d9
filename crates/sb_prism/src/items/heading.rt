// The direction of an extrusion.
ghost use Rattle.std.specs.Prelude.{◌≡◌, option_map};
ghost use Rattle.sb_fraction.specs.Spots.{vector};
ghost use Rattle.sb_prism.specs.Faults as faults;
ghost use Rattle.sb_prism.specs.Outlines as outlines;
ghost use Rattle.sb_prism.specs.Kept as spec;

use crate::faults::Faults;
use sb_model::Axis;
use sb_place::{Seen, axis_of};
use sb_schema::Texts;

/// What the direction of an extrusion says: its faults, and whether it goes up along the local z.
#[derive(Clone, Copy)]
pub(crate) struct Heading {
    pub(crate) faults: Faults,
    pub(crate) upward: bool,
}

/// What a direction says.
pub(crate) fn heading_in(direction: &Seen<Texts>) -> Heading
    ensures { result ≡ spec.heading_of direction.now }
{
    Heading {
        faults: Faults {
            broken: direction.broken(),
            absent: direction.absent(),
            turned: false,
            stray: is_no_extrusion(direction),
            far: false,
        },
        upward: is_upward(direction),
    }
}

/// Whether it is a direction that does not snap to the local z or its opposite.
fn is_no_extrusion(direction: &Seen<Texts>) -> bool
    ensures { result ≡ faults.is_no_extrusion direction.now }
{
    match direction {
        Seen::Shown(ratios) => !is_along_z(axis_of(ratios)),
        other => other.is_other(),
    }
}

fn is_along_z(axis: Option<Axis>) -> bool
    ensures { result ≡ faults.is_along_z (option_map (λ a. vector a.x a.y a.z) axis) }
{
    match axis {
        Some(axis) => axis.x == 0 && axis.y == 0,
        None => false,
    }
}

fn is_upward(direction: &Seen<Texts>) -> bool
    ensures { result ≡ outlines.is_upward direction.now }
{
    match direction {
        Seen::Shown(ratios) => points_up(axis_of(ratios)),
        _ => true,
    }
}

fn points_up(axis: Option<Axis>) -> bool
    ensures { result ≡ outlines.points_up (option_map (λ a. vector a.x a.y a.z) axis) }
{
    match axis {
        Some(axis) => 0 < axis.z,
        None => true,
    }
}
