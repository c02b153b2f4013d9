//! The abscissae of a direction.

ghost use Rattle.std.specs.Prelude.{◌≡◌, ◌≤◌, ◌<ℤ◌, ◌+ℤ◌, ◌*ℤ◌, ◌++◌, [], pos, ℕ, List, map, unsigned_abs, IfOk, OnOk, IsTrue};
ghost use Rattle.std.specs.List.{list_all};
ghost use Rattle.std.specs.Ordering.{is_eq};
ghost use Rattle.theory_numbers.specs.Fractions.{whole, reduced};
ghost use Rattle.sb_fraction.specs.Bounds.{is_abscissa_size, is_crossing_size};
ghost use Rattle.sb_fraction.specs.Bounds.{greatest_abscissa, greatest_cross, greatest_crossing};
ghost use Rattle.sb_fraction.specs.Crossings.{abscissa_at};
ghost use Rattle.sb_fraction.specs.Lines.{arrow_along, flat};
ghost use Rattle.sb_fraction.specs.Numbers.{number, order_of};
ghost use Rattle.sb_fraction.specs.Plane.{is_plan_point, longest_step};
ghost use Rattle.sb_fraction.specs.Spots.{spot_of, times_w};
ghost use Rattle.sb_model.specs.Building.{Building};
ghost use Rattle.theory_lines.specs.Slabs.{AreAbscissae};
ghost use Rattle.sb_frame.specs.Network.{IsNetwork, plan_edges_of, spots_of};
ghost use Rattle.sb_frame.specs.Abscissae.{ratios_of, of_edges, of_crossings, of_point, all_along, order_of_abscissae, greatest_part};
ghost use Rattle.sb_frame.specs.Rising.{IsRisingOf};

use crate::abscissa::Abscissa;
use crate::edge::PlanEdge;
use crate::network::PlanEdges;
use sb_fraction::{Direction, Fraction, HPoint, Point, compare};
use sb_list::Listed;
use std::alloc::{AllocError, Global};
use std::cmp::Ordering;

/// Numbers in lowest terms.
pub type Fractions = Listed<Fraction>;

impl PlanEdges {
    /// The abscissae of a direction, rising, each once: those of all ends of plan edges and of all
    /// crossings.
    pub fn abscissae(&self, d: Direction) -> Result<Fractions, AllocError>
        ensures size { IfOk result (λ list. IsTrue (list_all is_abscissa_size list)) }
        ensures abscissae { (m : Building) → IsNetwork m self.now
            → IfOk result (λ list. AreAbscissae m (arrow_along d) (map number list)) }
    {
        let list = each_once(self.all_abscissae(d)?);
        numbers_of(*list.allocator(), list.as_slice())
    }

    /// The abscissae of all ends and of all crossings.
    fn all_abscissae(&self, d: Direction) -> Result<Vec<Abscissa>, AllocError>
        ensures { IfOk result (λ list. ratios_of list.items ≡ all_along (arrow_along d) self.now) }
    {
        let mut list = ends(*self.edges.allocator(), self.edges.as_slice(), d)?;
        append_crossings(&mut list, self.crossings.as_slice(), d)?;
        Ok(list)
    }
}

/// The abscissae of both ends of each edge.
fn ends(alloc: Global, edges: &[PlanEdge], d: Direction) -> Result<Vec<Abscissa>, AllocError>
    ensures { IfOk result (λ list. ratios_of list.items ≡ of_edges (arrow_along d) (plan_edges_of edges.now)) }
{
    let mut list = Vec::new(alloc);
    'edges: for edge in edges {
        list.push(of_end(edge.segment.a, d))?;
        list.push(of_end(edge.segment.b, d))?;
    }
    Ok(list)
}

/// Appends the abscissae of crossings.
fn append_crossings(
    list: &mut Vec<Abscissa>,
    points: &[HPoint],
    d: Direction,
) -> Result<(), AllocError>
    requires { IsTrue (list_all is_crossing_size (spots_of points.now)) }
    ensures { OnOk result (ratios_of list.new.items ≡ ratios_of list.old.items ++ of_crossings (arrow_along d) (spots_of points.now)) }
{
    'points: for point in points {
        list.push(of_crossing(*point, d))?;
    }
    Ok(())
}

/// The abscissae by rising numbers, each once.
fn each_once(list: Vec<Abscissa>) -> Vec<Abscissa>
    ensures { IsRisingOf order_of_abscissae list.items result.items }
{
    let mut list = list;
    list.sort_unstable_by(|a, b| order_of_two(*a, *b));
    list.dedup_by(|a, b| is_same(*a, *b));
    list
}

fn order_of_two(a: Abscissa, b: Abscissa) -> Ordering
    ensures { result ≡ order_of_abscissae a b }
{
    compare(&a.number, &b.number)
}

fn is_same(a: Abscissa, b: Abscissa) -> bool
    ensures { result ≡ is_eq (order_of_abscissae a b) }
{
    match order_of_two(a, b) {
        Ordering::Equal => true,
        Ordering::Less | Ordering::Greater => false,
    }
}

fn numbers_of(alloc: Global, list: &[Abscissa]) -> Result<Fractions, AllocError>
    ensures { IfOk result (λ numbers. numbers ≡ ratios_of list.now) }
{
    let mut numbers = Listed::new(alloc);
    'list: for abscissa in list {
        numbers.push(abscissa.number)?;
    }
    Ok(numbers)
}

/// The abscissa of a plan point.
fn of_end(p: Point, d: Direction) -> Abscissa
    requires { IsTrue (is_plan_point p) }
    ensures { result.number ≡ whole (abscissa_at p (flat (arrow_along d))) }
{
    in_lowest_terms(along(p.x as i128, p.y as i128, d), 1)
}

/// The abscissa of a crossing.
fn of_crossing(p: HPoint, d: Direction) -> Abscissa
    requires { IsTrue (is_crossing_size (spot_of p)) }
    ensures { result.number ≡ of_point (arrow_along d) (spot_of p) }
{
    in_lowest_terms(along(p.x, p.y, d), p.w)
}

fn in_lowest_terms(num: i128, den: i128) -> Abscissa
    requires positive { pos 0 <ℤ den }
    requires num_size { unsigned_abs num ≤ greatest_abscissa }
    requires den_size { unsigned_abs den ≤ greatest_cross }
    ensures { result.number ≡ reduced num den }
{
    Abscissa {
        number: Fraction::new(num, den),
    }
}

/// How far (x, y) lies along a direction.
#[tactic(auto, using(crate::proofs::ProductsFit::products))]
fn along(x: i128, y: i128, d: Direction) -> i128
    requires x_in { unsigned_abs x ≤ greatest_crossing }
    requires y_in { unsigned_abs y ≤ greatest_crossing }
    ensures value { result ≡ (x *ℤ d.x) +ℤ (y *ℤ d.y) }
    ensures size { unsigned_abs result ≤ greatest_abscissa }
{
    part(x, d.x) + part(y, d.y)
}

#[tactic(auto, using(crate::proofs::ProductsFit::products))]
fn part(a: i128, step: i32) -> i128
    requires coordinate_in { unsigned_abs a ≤ greatest_crossing }
    requires step_in { unsigned_abs step ≤ longest_step }
    ensures value { result ≡ a *ℤ step }
    ensures size { unsigned_abs result ≤ greatest_part }
{
    a * step as i128
}
