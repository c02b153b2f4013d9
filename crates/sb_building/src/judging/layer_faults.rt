// Elements whose layers are at fault.
ghost use Rattle.std.specs.Prelude.{◌≡◌, ◌++◌, ℕ, List, Option, Some, is_none, IfOk, OnOk};
ghost use Rattle.std.specs.Ordering.{nat_cmp};
ghost use Rattle.std.specs.BTreeMap.{get};
ghost use Rattle.sb_profile.specs.declared.defects.Code.{Code as CodeOf};
ghost use Rattle.sb_profile.specs.Contents.{Contents, Says};
ghost use Rattle.sb_profile.specs.Steps.Read.{made_of, target_in};
ghost use Rattle.sb_building.specs.declared.made.Made.{Made as MadeOf};
ghost use Rattle.sb_building.specs.Layerings.{AreMade, has_bad_layers};
ghost use Rattle.sb_building.specs.Steps.Least.{IsLeastOf};
ghost use Rattle.sb_building.specs.Steps.Layers as spec;

use crate::judging::least::least;
use crate::judging::standing::Standing;
use crate::once::{Materials, read_once};
use sb_fraction::Unit;
use sb_profile::{Code, Defect, Link};
use sb_step::StepFile;
use std::alloc::{AllocError, Global};
use std::collections::BTreeMap;

/// Of the elements whose layers are at fault the least condition is kept, by their material instances.
pub(crate) fn judge_layers(
    alloc: Global,
    file: &StepFile<'_>,
    known: &mut Materials,
    materials: &BTreeMap<u32, Link>,
    types: &BTreeMap<u32, Link>,
    elements: &[Standing],
    unit: Unit,
    found: &mut Option<Defect>,
) -> Result<(), AllocError>
    requires { AreMade file.now unit (get nat_cmp known.now) }
    ensures judged { OnOk result (spec.LayersAreJudged file.now unit (made_of materials.now types.now)
        elements.now found.old found.new) }
    ensures known { OnOk result (AreMade file.now unit (get nat_cmp known.new)) }
{
    'elements: for element in elements {
        let instance = instance_of(materials, types, element.number);
        judge(alloc, file, known, instance, element.number, unit, found)?;
    }
    Ok(())
}

/// Keeps the condition of an element whose material instance cannot be read, if it is the least.
fn judge(
    alloc: Global,
    file: &StepFile<'_>,
    known: &mut Materials,
    instance: Option<u32>,
    number: u32,
    unit: Unit,
    found: &mut Option<Defect>,
) -> Result<(), AllocError>
    requires { AreMade file.now unit (get nat_cmp known.now) }
    ensures judged { OnOk result ((c : Contents) → Says file.now c → (before : List (ℕ × CodeOf))
        → IsLeastOf before found.old
        → IsLeastOf (before ++ spec.bad_if (has_bad_layers c unit instance) number) found.new) }
    ensures known { OnOk result (AreMade file.now unit (get nat_cmp known.new)) }
{
    let bad = is_bad(alloc, file, known, instance, unit)?;
    *found = noted(*found, bad, number);
    Ok(())
}

fn noted(found: Option<Defect>, bad: bool, number: u32) -> Option<Defect>
    ensures { (before : List (ℕ × CodeOf)) → IsLeastOf before found
        → IsLeastOf (before ++ spec.bad_if bad number) result }
{
    if bad {
        least(found, number, Code::Layers)
    } else {
        found
    }
}

/// Whether the material instance cannot be read.
fn is_bad(
    alloc: Global,
    file: &StepFile<'_>,
    known: &mut Materials,
    instance: Option<u32>,
    unit: Unit,
) -> Result<bool, AllocError>
    requires { AreMade file.now unit (get nat_cmp known.now) }
    ensures bad { IfOk result (λ bad. (c : Contents) → Says file.now c → bad ≡ has_bad_layers c unit instance) }
    ensures known { OnOk result (AreMade file.now unit (get nat_cmp known.new)) }
{
    let Some(number) = instance else {
        return Ok(false);
    };
    read_once(alloc, file, known, number, unit)?;
    Ok(is_bad_by(known, number))
}

/// Whether nothing is known of a material instance that was read.
fn is_bad_by(known: &Materials, number: u32) -> bool
    ensures { (what : Option MadeOf) → get nat_cmp known.now number ≡ Some what → result ≡ is_none what }
{
    match known.get(&number) {
        Some(Some(_)) => false,
        _ => true,
    }
}

/// The material instance of an element: by a relation of its own, or else by one of its type.
pub(crate) fn instance_of(
    materials: &BTreeMap<u32, Link>,
    types: &BTreeMap<u32, Link>,
    number: u32,
) -> Option<u32>
    ensures { result ≡ made_of materials.now types.now number }
{
    match target(materials, number) {
        Some(material) => Some(material),
        None => target(materials, target(types, number)?),
    }
}

/// What the link of the number says.
fn target(links: &BTreeMap<u32, Link>, number: u32) -> Option<u32>
    ensures { result ≡ target_in (get nat_cmp links.now number) }
{
    let link = links.get(&number)?;
    Some(link.target)
}
