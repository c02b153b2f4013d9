// The axis that a direction snaps to.
ghost use Rattle.std.specs.Prelude.{◌≡◌, ◌≤◌, ◌*◌, List, IfOk, IfSome, IfNone, option_map, option_copied, unsigned_abs, pos, false, true};
ghost use Rattle.sb_fraction.specs.Spots.{vector};
ghost use Rattle.sb_fixed.specs.Lengths.{ratio_of, greatest_ratio};
ghost use Rattle.sb_place.specs.Directions as spec;

use sb_fixed::ratio;
use sb_list::Text;
use sb_model::Axis;
use sb_schema::Texts;

/// The axis that a direction (IfcDirection) snaps to: the signed axis of its ratio of greatest size, where
/// this is not 0 and each other ratio is at most a millionth of it in size. The ratios are read in whole
/// units of 10^-12; a third one that is left out is 0.
///
/// `None` exactly where a ratio is out of range, or the direction lies along no axis.
pub fn axis_of(ratios: &Texts) -> Option<Axis>
    ensures { option_map (λ a. vector a.x a.y a.z) result ≡ spec.snapped ratios.now }
{
    let x = ratio_where(ratios.get(0))?;
    let y = ratio_where(ratios.get(1))?;
    let z = ratio_where(ratios.get(2))?;
    axis_near(x, y, z)
}

/// A ratio, and 0 where it is left out; `None` where it is out of range.
fn ratio_where(text: Option<&Text>) -> Option<i128>
    ensures value { IfSome result (λ r. (r ≡ spec.value_where ratio_of (option_copied text.entry))
        × (unsigned_abs r ≤ greatest_ratio)) }
    ensures some { IfSome result (λ _. spec.passes_where spec.is_ratio (option_copied text.entry) ≡ true) }
    ensures none { IfNone result (spec.passes_where spec.is_ratio (option_copied text.entry) ≡ false) }
{
    match text {
        Some(text) => ratio(text.bytes()).ok(),
        None => Some(0),
    }
}

/// The axis of the ratio that leads.
fn axis_near(x: i128, y: i128, z: i128) -> Option<Axis>
    requires x_in { unsigned_abs x ≤ greatest_ratio }
    requires y_in { unsigned_abs y ≤ greatest_ratio }
    requires z_in { unsigned_abs z ≤ greatest_ratio }
    ensures { option_map (λ a. vector a.x a.y a.z) result ≡ spec.axis_near (vector x y z) }
{
    if leads(x, y, z) {
        Some(Axis {
            x: signed_one(x),
            y: 0,
            z: 0,
        })
    } else if leads(y, z, x) {
        Some(Axis {
            x: 0,
            y: signed_one(y),
            z: 0,
        })
    } else if leads(z, x, y) {
        Some(Axis {
            x: 0,
            y: 0,
            z: signed_one(z),
        })
    } else {
        None
    }
}

/// Whether the first ratio is not 0, and the others are at most a millionth of it.
fn leads(a: i128, b: i128, c: i128) -> bool
    requires b_in { unsigned_abs b ≤ greatest_ratio }
    requires c_in { unsigned_abs c ≤ greatest_ratio }
    ensures { result ≡ spec.leads a b c }
{
    a != 0 && is_slight_beside(b, a) && is_slight_beside(c, a)
}

/// Whether the first ratio is at most a millionth of the second.
fn is_slight_beside(a: i128, other: i128) -> bool
    requires a_in { unsigned_abs a ≤ greatest_ratio }
    ensures { result ≡ spec.is_slight_beside a other }
{
    a.unsigned_abs() * 1_000_000 <= other.unsigned_abs()
}

/// 1 with the sign of the ratio.
fn signed_one(a: i128) -> i32
    ensures { result ≡ spec.signed_one a }
{
    if a < 0 { -1 } else { 1 }
}
