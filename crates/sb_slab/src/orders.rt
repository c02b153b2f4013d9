//! The slabs of a direction, one after another.

ghost use Rattle.std.specs.Prelude.{◌≡◌, ◌≢◌, ◌↔◌, ◌≤◌, ◌+◌, ◌&&◌, nat_lt, if◌then◌else◌, List, [], Ok, Some, None, length, slice_get, IfOk, IfSome, IfNone, OnErr, IsTrue};
ghost use Rattle.theory_numbers.specs.Arrows.{Arrow};
ghost use Rattle.sb_fraction.specs.Bounds.{is_abscissa_size, is_fraction};
ghost use Rattle.sb_fraction.specs.Lines.{arrow_along};
ghost use Rattle.sb_fraction.specs.Numbers.{number};
ghost use Rattle.sb_model.specs.Building.{Building};
ghost use Rattle.sb_frame.specs.Network.{IsNetwork};
ghost use Rattle.sb_slab.specs.Slabs.{HasLeft, IsNext, IsMade, are_ends};

use crate::sorting::order_past;
use sb_fraction::{Direction, Fraction, Steps};
use sb_frame::{Fractions, PlanEdges, Slab};
use std::alloc::{AllocError, Global};
use std::marker;
use std::sync::ledger::Ledger;

/// Where a slab begins and ends.
#[derive(Clone, Copy)]
struct Ends {
    low: Fraction,
    high: Fraction,
}

/// The slabs of a direction, by rising abscissae. Each is sorted anew.
#[derive(Drop)]
pub struct SlabOrders<'a> {
    alloc: Global,
    edges: &'a PlanEdges,
    direction: Direction,
    abscissae: Fractions,
    next: usize,
}

impl<'a> marker::Model for SlabOrders<'a> {
    ghost use Rattle.std.specs.Prelude.{IsTrue};
    ghost use Rattle.sb_slab.specs.Slabs.{SlabsLeft, slabs_left, is_within};

    ghost Value = { SlabsLeft };

    ghost view = { λ s. slabs_left s.edges.now s.direction s.abscissae s.next };

    ghost invariant = { λ s. IsTrue (is_within s.abscissae s.next) };
}

impl<'a> SlabOrders<'a> {
    /// The slabs of a direction of plan edges.
    pub fn new(
        alloc: Global,
        edges: &'a PlanEdges,
        d: Direction,
    ) -> Result<SlabOrders<'a>, AllocError>
        ensures { (m : Building) → IsNetwork m edges.now → IfOk result (HasLeft m (arrow_along d) []) }
    {
        let abscissae = edges.abscissae(d)?;
        Ok(SlabOrders {
            alloc,
            edges,
            direction: d,
            abscissae,
            next: 0,
        })
    }

    /// The next slab: the plan between the next two abscissae, and the places of the plan edges that
    /// span it, in their order from below at every abscissa strictly inside; edges on one line by their
    /// places.
    ///
    /// Both ends are in lowest terms and within the bounds of abscissae, as the ends of patches must be.
    ///
    /// - `Ok(None)`: exactly after the last, where fewer than two abscissae are left. It stays so.
    /// - `Err`: there is no memory. What is left is as before.
    pub fn next<L: Ledger>(&mut self, steps: &mut Steps<L>) -> Result<Option<Slab>, AllocError>
        ensures none { IsMade result → (result ≡ Ok None) ↔ (length self.old.left ≤ 1) }
        ensures slab { (m : Building) (d : Arrow) (passed : List Arrow) → HasLeft m d passed self.old
            → IfOk result (λ answer. IfSome answer (IsNext m d passed self.old self.new)) }
        ensures ends { IfOk result (λ answer. IfSome answer (λ slab. IsTrue (are_ends slab.low slab.high))) }
        ensures after_last { IfOk result (λ answer. IfNone answer (self.new ≡ self.old)) }
        ensures refused { OnErr result (self.new ≡ self.old) }
    {
        let Some(ends) = self.next_ends() else {
            return Ok(None);
        };
        let order = order_past(self.alloc, self.edges, self.direction, ends.low, steps)?;
        self.next = following(self.next, self.abscissae.len());
        Ok(Some(Slab {
            direction: self.direction,
            low: ends.low,
            high: ends.high,
            order,
        }))
    }

    /// The next two abscissae.
    fn next_ends(&self) -> Option<Ends>
        ensures low { IfSome result (λ ends. slice_get self.now.left 0 ≡ Some (number ends.low)) }
        ensures high { IfSome result (λ ends. slice_get self.now.left 1 ≡ Some (number ends.high)) }
        ensures size { IfSome result (λ ends. IsTrue (is_abscissa_size ends.low)) }
        ensures ends { IfSome result (λ ends. IsTrue (are_ends ends.low ends.high)) }
        ensures none { IfNone result (length self.now.left ≤ 1) }
    {
        ends_from(self.abscissae.as_slice(), self.next)
    }
}

/// The place after one in a list of so many.
fn following(place: usize, len: usize) -> usize
    ensures { result ≡ (if nat_lt place len then place + 1 else place) }
{
    if place < len { place + 1 } else { place }
}

/// The two numbers from a place on.
fn ends_from(list: &[Fraction], place: usize) -> Option<Ends>
    ensures low { IfSome result (λ ends. slice_get list.now place ≡ Some ends.low) }
    ensures high { IfSome result (λ ends. slice_get list.now (place + 1) ≡ Some ends.high) }
    ensures lowest { IfSome result (λ ends. IsTrue (is_fraction ends.low && is_fraction ends.high)) }
    ensures none { IfNone result (length list.now ≤ place + 1) }
{
    if place >= list.len() {
        return None;
    }
    let next = place + 1;
    if next >= list.len() {
        return None;
    }
    Some(Ends {
        low: in_lowest_terms(list[place]),
        high: in_lowest_terms(list[next]),
    })
}

/// The number; its denominator tells that it is in lowest terms.
fn in_lowest_terms(number: Fraction) -> Fraction
    ensures value { result ≡ number }
    ensures lowest { IsTrue (is_fraction result) }
{
    let _den = number.den();
    number
}
