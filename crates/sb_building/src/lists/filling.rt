// The doors and windows of a model.
ghost use Rattle.std.specs.Prelude.{◌≡◌, ◌++◌, ℕ, IfOk, OnOk, is_some};
ghost use Rattle.std.specs.Ordering.{nat_cmp};
ghost use Rattle.std.specs.BTreeMap.{get, IsOrdered};
ghost use Rattle.std.specs.Option.{option_copied};
ghost use Rattle.sb_model.specs.declared.products.Filling.{Filling as FillingOf};
ghost use Rattle.sb_profile.specs.Entities.Entity.{opening_filling as the_filling};
ghost use Rattle.sb_profile.specs.Contents.{Contents, Says};
ghost use Rattle.sb_profile.specs.Products.{is_filling, opening_of};
ghost use Rattle.sb_profile.specs.Steps.Read.{target_in};
ghost use Rattle.sb_building.specs.Models.{IsFillingOf};
ghost use Rattle.sb_building.specs.Steps.Parts as spec;

use crate::materials::given;
use sb_model::{FillKind, Filling, Fillings};
use sb_profile::Link;
use sb_schema::opening_filling;
use sb_step::StepFile;
use std::alloc::{AllocError, Global};
use std::collections::BTreeMap;

/// The doors and windows that fill openings, by rising numbers, where this is the table of the opening that
/// each fills.
pub(crate) fn fillings(
    alloc: Global,
    file: &StepFile<'_>,
    fills: &BTreeMap<u32, Link>,
) -> Result<Fillings, AllocError>
    ensures { IfOk result (λ list. (c : Contents) → Says file.now c
        → ((q : ℕ) → target_in (get nat_cmp fills.now q) ≡ opening_of c q)
        → spec.AreOf (λ (f : FillingOf). f.number) (is_filling c) (IsFillingOf c) list) }
{
    let list = listed(alloc, file, fills)?;
    Ok(list)
}

/// Those of the table that are doors or windows.
fn listed(
    alloc: Global,
    file: &StepFile<'_>,
    fills: &BTreeMap<u32, Link>,
) -> Result<Fillings, AllocError>
    ensures list { IfOk result (λ list. (c : Contents) → Says file.now c
        → list ≡ spec.all_filled c fills.now.entries) }
    ensures ordered { IfOk result (λ _. IsOrdered nat_cmp fills.now) }
{
    let mut list = Fillings::new(alloc);
    'fills: for (number, link) in fills {
        add(file, &mut list, *number, link.target)?;
    }
    Ok(list)
}

/// Appends the filling, if the instance is a door or a window.
fn add(
    file: &StepFile<'_>,
    list: &mut Fillings,
    number: u32,
    opening: u32,
) -> Result<(), AllocError>
    ensures { OnOk result ((c : Contents) → Says file.now c → list.new ≡ list.old ++ spec.filled c number opening) }
{
    let passed = is_door_or_window(file, number)?;
    let filling = Filling {
        number,
        opening,
        kind: kind(file.keyword(number)),
    };
    push_if(list, passed, filling)
}

fn push_if(list: &mut Fillings, passed: bool, filling: Filling) -> Result<(), AllocError>
    ensures { OnOk result (list.new ≡ list.old ++ spec.filled_if passed filling.number filling.opening filling.kind) }
{
    if passed {
        list.push(filling)?;
    }
    Ok(())
}

/// Whether the instance is of their row.
fn is_door_or_window(file: &StepFile<'_>, number: u32) -> Result<bool, AllocError>
    ensures { IfOk result (λ is. (c : Contents) → Says file.now c → is ≡ is_some (c.given the_filling number)) }
{
    let view = opening_filling(file, number);
    Ok(given(view)?.is_some())
}

fn kind(keyword: Option<&[u8]>) -> FillKind
    ensures { result ≡ spec.kind_by (option_copied keyword.entry) }
{
    match keyword {
        Some(b"IFCDOOR") => FillKind::Door,
        _ => FillKind::Window,
    }
}
