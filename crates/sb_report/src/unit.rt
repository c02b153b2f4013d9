//! The units of faces.

ghost use Rattle.std.specs.Prelude.{◌≡◌, ◌≤◌, ◌||◌, ◌*ℤ◌, ◌+ℤ◌, ◌+◌, ◌*◌, IsTrue, unsigned_abs};
ghost use Rattle.sb_fraction.specs.Plane.{longest_step};
ghost use Rattle.sb_fraction.specs.Spots.{inner};
ghost use Rattle.sb_model.specs.Building.{is_level_axis, is_upright_axis};
ghost use Rattle.sb_model.specs.Labels.{axis_vector};

use sb_model::Axis;

/// The unit of a normal: its inner product with itself.
#[tactic(auto, using(crate::proofs::Passing::passing))]
pub fn unit_of(normal: Axis) -> i64
    requires { IsTrue (is_level_axis normal || is_upright_axis normal) }
    ensures { result ≡ inner (axis_vector normal) (axis_vector normal) }
{
    sum(sum(square(normal.x), square(normal.y)), square(normal.z))
}

/// The product of a number with itself.
fn square(a: i32) -> i64
    requires { unsigned_abs a ≤ longest_step }
    ensures value { result ≡ a *ℤ a }
    ensures size { unsigned_abs result ≤ longest_step * longest_step }
{
    a as i64 * a as i64
}

/// The sum of two numbers.
fn sum(a: i64, b: i64) -> i64
    requires a_size { unsigned_abs a ≤ 2 * (longest_step * longest_step) }
    requires b_size { unsigned_abs b ≤ 2 * (longest_step * longest_step) }
    ensures value { result ≡ a +ℤ b }
    ensures size { unsigned_abs result ≤ unsigned_abs a + unsigned_abs b }
{
    a + b
}
