// What an input of the first form means: a box, or the first of three defects.
ghost use Rattle.std.specs.Prelude.{◌≡◌, ◌-ℤ◌, ◌+ℤ◌, ◌≤◌, ◌<◌, ◌+◌, pos, true, int_lt, IfOk, unsigned_abs, None};
ghost use Rattle.std.specs.Result.{result_err};
ghost use Rattle.sb_box.specs.Extents.{is_interval};
ghost use Rattle.sb_form.specs.FirstForm.{AreShort};
ghost use Rattle.sb_form.specs.Meaning.{has_shape, is_near, is_near_about, is_near_up, is_near_doubled, is_on_grid, is_even, defect_of, half, IsExtentOf};

use crate::matcher::FirstForm;
use sb_box::Extent;

/// Why the six numbers make no box of this project's grid.
#[derive(Clone, Copy)]
pub enum Defect {
    /// A size is not above 0.
    Shape,
    /// A coordinate of the box is more than 500,000 mm in size.
    Range,
    /// A size in plan is odd, so that corners lie half a millimetre off the grid.
    OffGrid,
}

/// The box of the form, in whole millimetres (mm).
///
/// - `Err(defect)`: exactly where a defect holds; it is the first in the order of [`Defect`].
pub fn extent_of(form: &FirstForm) -> Result<Extent, Defect>
    requires { AreShort form.now }
    ensures defect { result_err result ≡ defect_of form.now }
    ensures extent { IfOk result (λ extent. IsExtentOf form.now extent) }
{
    if !has_shape(form) {
        return Err(Defect::Shape);
    }
    if !is_near(form) {
        return Err(Defect::Range);
    }
    if !is_on_grid(form) {
        return Err(Defect::OffGrid);
    }
    Ok(sound_extent(form))
}

#[tactic(auto, using(crate::proofs::Passing::passing))]
fn sound_extent(form: &FirstForm) -> Extent
    requires short { AreShort form.now }
    requires shape { has_shape form.now ≡ true }
    requires near { is_near form.now ≡ true }
    requires grid { is_on_grid form.now ≡ true }
    ensures { IsExtentOf form.now result }
{
    let (x0, x1) = interval_about(form.x, form.size_x);
    let (y0, y1) = interval_about(form.y, form.size_y);
    let (z0, z1) = interval_up(form.z, form.height);
    Extent {
        x0,
        x1,
        y0,
        y1,
        z0,
        z1,
    }
}

/// From half a size below a coordinate to half of it above.
#[tactic(auto, using(crate::proofs::Passing::passing, crate::proofs::NearIsInRange::about_is_interval))]
fn interval_about(middle: i32, size: i32) -> (i32, i32)
    requires middle { unsigned_abs middle < 1000000 }
    requires size { unsigned_abs size < 1000000 }
    requires shape { int_lt (pos 0) size ≡ true }
    requires near { is_near_about middle size ≡ true }
    requires grid { is_even size ≡ true }
    ensures low { result.0 ≡ middle -ℤ half size }
    ensures high { result.1 ≡ middle +ℤ half size }
    ensures interval { is_interval result.0 result.1 ≡ true }
{
    let half = half(size);
    (difference(middle, half), sum(middle, half))
}

/// From a height up by another.
#[tactic(auto, using(crate::proofs::Passing::passing, crate::proofs::NearIsInRange::up_is_interval))]
fn interval_up(z: i32, height: i32) -> (i32, i32)
    requires z { unsigned_abs z < 1000000 }
    requires size { unsigned_abs height < 1000000 }
    requires shape { int_lt (pos 0) height ≡ true }
    requires near { is_near_up z height ≡ true }
    ensures low { result.0 ≡ z }
    ensures high { result.1 ≡ z +ℤ height }
    ensures interval { is_interval result.0 result.1 ≡ true }
{
    (z, sum(z, height))
}

fn half(size: i32) -> i32
    requires { unsigned_abs size ≤ 1000000 }
    ensures value { result ≡ half size }
    ensures within { unsigned_abs result ≤ 500000 }
{
    (size.unsigned_abs() / 2) as i32
}

fn sum(a: i32, b: i32) -> i32
    requires a_in { unsigned_abs a ≤ 4000000 }
    requires b_in { unsigned_abs b ≤ 4000000 }
    ensures value { result ≡ a +ℤ b }
    ensures size { unsigned_abs result ≤ unsigned_abs a + unsigned_abs b }
{
    a + b
}

fn difference(a: i32, b: i32) -> i32
    requires a_in { unsigned_abs a ≤ 4000000 }
    requires b_in { unsigned_abs b ≤ 4000000 }
    ensures value { result ≡ a -ℤ b }
    ensures size { unsigned_abs result ≤ unsigned_abs a + unsigned_abs b }
{
    a - b
}

fn has_shape(form: &FirstForm) -> bool
    ensures { result ≡ has_shape form.now }
{
    form.size_x > 0 && form.size_y > 0 && form.height > 0
}

#[tactic(auto, using(crate::proofs::Passing::passing))]
fn is_near(form: &FirstForm) -> bool
    requires { AreShort form.now }
    ensures { result ≡ is_near form.now }
{
    is_near_about(form.x, form.size_x)
        && is_near_about(form.y, form.size_y)
        && is_near_up(form.z, form.height)
}

#[tactic(auto, using(crate::proofs::Passing::passing))]
fn is_near_up(z: i32, height: i32) -> bool
    requires z { unsigned_abs z ≤ 1000000 }
    requires size { unsigned_abs height ≤ 1000000 }
    ensures { result ≡ is_near_up z height }
{
    let top = sum(z, height);
    is_near_doubled(sum(z, z)) && is_near_doubled(sum(top, top))
}

#[tactic(auto, using(crate::proofs::Passing::passing))]
fn is_near_about(middle: i32, size: i32) -> bool
    requires middle { unsigned_abs middle ≤ 1000000 }
    requires size { unsigned_abs size ≤ 1000000 }
    ensures { result ≡ is_near_about middle size }
{
    let twice = sum(middle, middle);
    is_near_doubled(difference(twice, size)) && is_near_doubled(sum(twice, size))
}

fn is_near_doubled(twice: i32) -> bool
    ensures { result ≡ is_near_doubled twice }
{
    twice.unsigned_abs() <= 1_000_000
}

fn is_on_grid(form: &FirstForm) -> bool
    ensures { result ≡ is_on_grid form.now }
{
    is_even(form.size_x) && is_even(form.size_y)
}

fn is_even(size: i32) -> bool
    ensures { result ≡ is_even size }
{
    size.unsigned_abs() % 2 == 0
}
