//! Where a way is bent.

ghost use Rattle.std.specs.Prelude.{◌≡◌, ◌≤◌, ◌-ℤ◌, ◌*ℤ◌, pos, unsigned_abs, not};
ghost use Rattle.std.specs.Ordering.{int_eq};
ghost use Rattle.theory_plans.specs.Loops as loops;

use sb_fraction::Point;

/// Whether the way from `a` over `b` to `c` does not go straight: a point that equals a neighbour
/// goes straight, and so does the tip of a spike.
#[tactic(auto, using(crate::proofs::NumbersFit::numbers))]
pub(crate) fn is_bent(a: Point, b: Point, c: Point) -> bool
    ensures { result ≡ loops.is_bent a b c }
{
    is_not_0(bend(a, b, c))
}

#[tactic(auto, using(crate::proofs::NumbersFit::numbers))]
fn bend(a: Point, b: Point, c: Point) -> i128
    ensures { result ≡ loops.bend a b c }
{
    minus(
        product(difference(b.x, a.x), difference(c.y, b.y)),
        product(difference(b.y, a.y), difference(c.x, b.x)),
    )
}

fn is_not_0(n: i128) -> bool
    ensures { result ≡ not (int_eq n (pos 0)) }
{
    n != 0
}

/// Whether `a` comes before `b`: it has the lesser x, or the same x and the lesser y.
pub(crate) fn comes_before(a: Point, b: Point) -> bool
    ensures { result ≡ loops.comes_before a b }
{
    a.x < b.x || (a.x == b.x && a.y < b.y)
}

#[tactic(auto, using(crate::proofs::NumbersFit::numbers))]
fn difference(a: i32, b: i32) -> i64
    ensures value { result ≡ a -ℤ b }
    ensures size { unsigned_abs result ≤ 4294967296 }
{
    a as i64 - b as i64
}

#[tactic(auto, using(crate::proofs::NumbersFit::numbers))]
fn product(a: i64, b: i64) -> i128
    requires a_in { unsigned_abs a ≤ 4294967296 }
    requires b_in { unsigned_abs b ≤ 4294967296 }
    ensures value { result ≡ a *ℤ b }
    ensures size { unsigned_abs result ≤ 18446744073709551616 }
{
    a as i128 * b as i128
}

#[tactic(auto, using(crate::proofs::NumbersFit::numbers))]
fn minus(a: i128, b: i128) -> i128
    requires a_in { unsigned_abs a ≤ 18446744073709551616 }
    requires b_in { unsigned_abs b ≤ 18446744073709551616 }
    ensures { result ≡ a -ℤ b }
{
    a - b
}
