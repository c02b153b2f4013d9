// The unit of the lengths of a file.
ghost use Rattle.std.specs.Prelude.{◌≡◌, ◌==◌, ◌&&◌, List, [], ◌∷◌, filter, filter_map, length, slice_get, Some, None, IfSome, codes};
ghost use Rattle.std.specs.Option.{option_copied};
ghost use Rattle.sb_step.specs.Cursors.Forms.{reference_in};
ghost use Rattle.sb_schema.specs.Forms.{items_in};
ghost use Rattle.sb_profile.specs.Contents.{Contents, Says};
ghost use Rattle.sb_profile.specs.Units as spec;
ghost use Rattle.sb_profile.specs.Steps.Counting as counting;

use crate::reading::kinds::is_one_of;
use sb_fraction::Unit;
use sb_step::{Cursor, StepFile, one_list_of_parameters};

/// A number, if it is the only one.
#[derive(Clone, Copy)]
pub(crate) enum Only {
    None,
    One(u32),
    Several,
}

/// The unit of the file's lengths, if it has one that is read. These are the numbers of its
/// IFCUNITASSIGNMENT.
pub(crate) fn unit(file: &StepFile<'_>, assignments: &[u32]) -> Option<Unit>
    ensures { (c : Contents) → Says file.now c
        → assignments.now ≡ filter (spec.is_called (codes "IFCUNITASSIGNMENT") c) c.numbers
        → result ≡ spec.unit_in c }
{
    let assignment = only_one(assignments)?;
    let listed = listed_units(file, assignment)?;
    let length_unit = length_unit(file, listed)?;
    unit_of(file, length_unit)
}

fn only_one(numbers: &[u32]) -> Option<u32>
    ensures { result ≡ spec.only_one numbers.now }
{
    match numbers {
        [one] => Some(*one),
        _ => None,
    }
}

/// A cursor before the parameters of the instance of this number, if there is one.
fn parameters<'a>(file: &StepFile<'a>, number: u32) -> Option<Cursor<'a>>
    ensures some { IfSome result (λ ps. (c : Contents) → Says file.now c
        → ps ≡ c.parameters number) }
    ensures none { result ≡ None → (c : Contents) → Says file.now c → c.parameters number ≡ [] }
{
    one_list_of_parameters();
    file.cursor(number)
}

/// A cursor before what the attribute 1 of the instance lists.
fn listed_units<'a>(file: &StepFile<'a>, number: u32) -> Option<Cursor<'a>>
    ensures { (c : Contents) → Says file.now c
        → result ≡ items_in (slice_get (c.parameters number) 0) }
{
    let parameters = parameters(file, number)?;
    items(parameters)
}

/// A cursor before the items of the first parameter, if that is a list.
fn items<'a>(parameters: Cursor<'a>) -> Option<Cursor<'a>>
    ensures { result ≡ items_in (slice_get parameters.entry 0) }
{
    let mut left = parameters;
    left.list()
}

/// The only member that is an IFCSIUNIT of lengths.
fn length_unit(file: &StepFile<'_>, first_members: Cursor<'_>) -> Option<u32>
    ensures { (c : Contents) → Says file.now c → result ≡ spec.only_one
        (filter (spec.is_length_unit c)
        (filter_map (λ p. reference_in (Some p)) first_members.entry)) }
{
    let mut members = first_members;
    let mut found = Only::None;
    'members: while !members.is_done() {
        let member = members.reference();
        found = with_member(file, member, found);
    }
    the_only(found)
}

fn the_only(found: Only) -> Option<u32>
    ensures { result ≡ counting.the_only found }
{
    match found {
        Only::One(number) => Some(number),
        _ => None,
    }
}

fn with_member(file: &StepFile<'_>, member: Option<u32>, found: Only) -> Only
    ensures { (c : Contents) → Says file.now c
        → result ≡ counting.with_member (spec.is_length_unit c) member found }
{
    match member {
        Some(number) if is_length_unit(file, number) => one_more(number, found),
        _ => found,
    }
}

fn one_more(number: u32, found: Only) -> Only
    ensures { result ≡ counting.one_more number found }
{
    match found {
        Only::None => Only::One(number),
        _ => Only::Several,
    }
}

fn is_length_unit(file: &StepFile<'_>, number: u32) -> bool
    ensures { (c : Contents) → Says file.now c → result ≡ spec.is_length_unit c number }
{
    let is_si_unit = is_one_of(file.keyword(number), &[b"IFCSIUNIT"]);
    is_si_unit && has_type_of_lengths(file, number)
}

fn has_type_of_lengths(file: &StepFile<'_>, number: u32) -> bool
    ensures { (c : Contents) → Says file.now c → result ≡ spec.says_length (c.parameters number) }
{
    match parameters(file, number) {
        Some(parameters) => says_length(parameters),
        None => false,
    }
}

/// Whether there are four parameters, of which the second is the type of lengths.
fn says_length(parameters: Cursor<'_>) -> bool
    ensures { result ≡ spec.says_length parameters.entry }
{
    let mut left = parameters;
    left.skip();
    let kind = left.enumeration();
    left.skip();
    let has_three = left.is_done();
    left.skip();
    let has_four = left.is_done();
    let is_length = is_one_of(kind, &[b"LENGTHUNIT"]);
    !has_three && has_four && is_length
}

/// The unit that the parameters of the instance say.
fn unit_of(file: &StepFile<'_>, number: u32) -> Option<Unit>
    ensures { (c : Contents) → Says file.now c → result ≡ spec.unit_of (c.parameters number) }
{
    let parameters = parameters(file, number)?;
    said_unit(parameters)
}

fn said_unit(parameters: Cursor<'_>) -> Option<Unit>
    ensures { result ≡ spec.unit_of parameters.entry }
{
    let mut left = parameters;
    left.skip();
    left.skip();
    let none = left.is_null();
    let prefix = left.enumeration();
    let name = left.enumeration();
    if is_one_of(name, &[b"METRE"]) {
        unit_by_prefix(none, prefix)
    } else {
        None
    }
}

fn unit_by_prefix(none: bool, prefix: Option<&[u8]>) -> Option<Unit>
    ensures { result ≡ spec.unit_by none (option_copied prefix.entry) }
{
    if none {
        Some(Unit::Metre)
    } else if is_one_of(prefix, &[b"MILLI"]) {
        Some(Unit::Millimetre)
    } else {
        None
    }
}
