// Lists whose items are gone over one by one, and kept in the text alone.
ghost use Rattle.std.specs.Prelude.{◌≡◌, ℕ, [], ◌∷◌, drop, slice_get, option_map, is_some};
ghost use Rattle.sb_step.specs.Cursors.Forms.{reference_in, number_in};
ghost use Rattle.sb_schema.specs.Forms.{each, pair_in, only_if, are_two};

use crate::lists::items;
use sb_step::Cursor;
use std::marker::Model;

/// References in order, each found in the text as it is asked for. Contracts see it as the list of
/// those that are left.
#[derive(Drop)]
pub struct LentReferences<'a> {
    items: Cursor<'a>,
}

impl<'a> Model for LentReferences<'a> {
    ghost use Rattle.std.specs.Prelude.{◌≡◌, ℕ, List, [], true, is_some, unwrap_or};
    ghost use Rattle.sb_step.specs.Cursors.Forms.{reference_in};
    ghost use Rattle.sb_schema.specs.Forms.{each};

    ghost Value = { List ℕ };

    ghost view = { λ lent. unwrap_or (each reference_in lent.items) [] };

    ghost invariant = { λ lent. is_some (each reference_in lent.items) ≡ true };
}

impl<'a> LentReferences<'a> {
    /// These parameters, if all are references.
    pub(crate) fn of(items: Cursor<'a>) -> Option<LentReferences<'a>>
        ensures { result ≡ each reference_in items.entry }
    {
        if are_references(items.copy()) {
            Some(LentReferences { items })
        } else {
            None
        }
    }

    /// The next reference, or `None` exactly where none is left.
    pub fn next(&mut self) -> Option<u32>
        ensures item { result ≡ slice_get self.old 0 }
        ensures left { self.new ≡ drop 1 self.old }
    {
        self.items.reference()
    }
}

fn are_references(first_items: Cursor<'_>) -> bool
    ensures { result ≡ is_some (each reference_in first_items.entry) }
{
    let mut items = first_items;
    'items: while !items.is_done() {
        if items.reference().is_none() {
            return false;
        }
    }
    true
}

/// Lists of two numbers in order, each found in the text as it is asked for. Contracts see it as the
/// list of those that are left.
#[derive(Drop)]
pub struct LentPairs<'a> {
    items: Cursor<'a>,
}

impl<'a> Model for LentPairs<'a> {
    ghost use Rattle.std.specs.Prelude.{◌≡◌, ℕ, List, [], true, is_some, unwrap_or};
    ghost use Rattle.sb_schema.specs.Forms.{each, pair_in};

    ghost Value = { List (List (List ℕ)) };

    ghost view = { λ lent. unwrap_or (each pair_in lent.items) [] };

    ghost invariant = { λ lent. is_some (each pair_in lent.items) ≡ true };
}

impl<'a> LentPairs<'a> {
    /// These parameters, if all are lists of two numbers.
    pub(crate) fn of(items: Cursor<'a>) -> Option<LentPairs<'a>>
        ensures { result ≡ each pair_in items.entry }
    {
        if are_pairs(items.copy()) {
            Some(LentPairs { items })
        } else {
            None
        }
    }

    /// The next two numbers as they stand, or `None` exactly where none are left.
    pub fn next(&mut self) -> Option<(&'a [u8], &'a [u8])>
        ensures item { option_map (λ p. p.0.now ∷ p.1.now ∷ []) result ≡ slice_get self.old 0 }
        ensures left { self.new ≡ drop 1 self.old }
    {
        pair(&mut self.items)
    }
}

fn are_pairs(first_items: Cursor<'_>) -> bool
    ensures { result ≡ is_some (each pair_in first_items.entry) }
{
    let mut items = first_items;
    'items: while !items.is_done() {
        if pair(&mut items).is_none() {
            return false;
        }
    }
    true
}

/// The two numbers of the next parameter, if it is a list of two. The cursor then stands behind it.
fn pair<'a>(left: &mut Cursor<'a>) -> Option<(&'a [u8], &'a [u8])>
    ensures value { option_map (λ p. p.0.now ∷ p.1.now ∷ []) result ≡ pair_in (slice_get left.old 0) }
    ensures left { left.new ≡ drop 1 left.old }
{
    match items(left) {
        Some(items) => two_numbers(items),
        None => None,
    }
}

/// The two numbers, if these parameters are two numbers.
fn two_numbers<'a>(first_items: Cursor<'a>) -> Option<(&'a [u8], &'a [u8])>
    ensures { option_map (λ p. p.0.now ∷ p.1.now ∷ []) result
        ≡ only_if are_two (each number_in first_items.entry) }
{
    let mut items = first_items;
    let one = items.number()?;
    let other = items.number()?;
    if items.is_done() {
        Some((one, other))
    } else {
        None
    }
}
