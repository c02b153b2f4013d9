// The layerings of elements: each material instance is read once.
ghost use Rattle.std.specs.Prelude.{◌≡◌, ℕ, Option, Some, IfOk, OnOk, option_map, if◌then◌else◌, nat_eq};
ghost use Rattle.std.specs.Ordering.{nat_cmp};
ghost use Rattle.std.specs.BTreeMap.{get};
ghost use Rattle.std.specs.Option.{option_copied};
ghost use Rattle.sb_fraction.specs.declared.unit.Unit as units;
ghost use Rattle.sb_step.specs.Indexed.{Indexed};
ghost use Rattle.sb_profile.specs.Contents.{Contents, Says};
ghost use Rattle.sb_building.specs.declared.made.Made.{Made as MadeOf};
ghost use Rattle.sb_building.specs.Layerings as spec;

use crate::made::Made;
use crate::materials::made_of;
use sb_fraction::Unit;
use sb_model::{Layering, Prism, Turn};
use sb_step::StepFile;
use std::alloc::{AllocError, Global};
use std::collections::BTreeMap;

/// What is read of material instances, by their numbers; `None` of one that cannot be read.
pub type Materials = BTreeMap<u32, Option<Made>>;

/// Nothing is known yet.
pub fn no_materials(alloc: Global) -> Materials
    ensures { (indexed : Indexed) (unit : units.Unit) → spec.AreMade indexed unit (get nat_cmp result) }
{
    BTreeMap::new(alloc)
}

/// The layering of an element with this keyword and this prism, which is turned so, by its material
/// instance. Thicknesses are in micrometres (µm).
///
/// - `Ok(None)`: exactly where the instance cannot be read, as [`made_of`] says.
/// - `Err`: there was no memory.
///
/// What is read of material instances is kept in `known`, so that each is read once however many elements
/// have it. It begins with [`no_materials`], and serves one file and one unit.
pub fn layering_of(
    alloc: Global,
    file: &StepFile<'_>,
    known: &mut Materials,
    instance: Option<u32>,
    unit: Unit,
    keyword: Option<&[u8]>,
    prism: &Prism,
    turn: Turn,
) -> Result<Option<Layering>, AllocError>
    requires { spec.AreMade file.now unit (get nat_cmp known.now) }
    ensures layering { IfOk result (λ layering. (c : Contents) → Says file.now c
        → spec.IsLayeringOf c unit (option_copied keyword.entry) prism.now turn instance layering) }
    ensures known { OnOk result (spec.AreMade file.now unit (get nat_cmp known.new)) }
{
    let Some(number) = instance else {
        return Ok(Some(Layering::Plain));
    };
    read_once(alloc, file, known, number, unit)?;
    layering_by(alloc, known, number, keyword, prism, turn)
}

/// Reads a material instance, unless that was done before.
pub(crate) fn read_once(
    alloc: Global,
    file: &StepFile<'_>,
    known: &mut Materials,
    number: u32,
    unit: Unit,
) -> Result<(), AllocError>
    requires { spec.AreMade file.now unit (get nat_cmp known.now) }
    ensures there { OnOk result ((what : Option MadeOf) × (get nat_cmp known.new number ≡ Some what)) }
    ensures known { OnOk result (spec.AreMade file.now unit (get nat_cmp known.new)) }
{
    if known.contains_key(&number) {
        return Ok(());
    }
    let made = made_of(alloc, file, Some(number), unit)?;
    keep_made(known, number, made)
}

fn keep_made(known: &mut Materials, number: u32, made: Option<Made>) -> Result<(), AllocError>
    ensures { OnOk result ((q : ℕ) → get nat_cmp known.new q
        ≡ (if nat_eq q number then Some made else get nat_cmp known.old q)) }
{
    known.insert(number, made)?;
    Ok(())
}

/// The layering by what is known of a material instance.
fn layering_by(
    alloc: Global,
    known: &Materials,
    number: u32,
    keyword: Option<&[u8]>,
    prism: &Prism,
    turn: Turn,
) -> Result<Option<Layering>, AllocError>
    ensures { IfOk result (λ layering. (what : Option MadeOf) → get nat_cmp known.now number ≡ Some what
        → layering ≡ option_map (λ made. spec.layering_in made (option_copied keyword.entry) prism.now turn) what) }
{
    match known.get(&number) {
        Some(Some(made)) => {
            let layering = made.layering(alloc, keyword, prism, turn)?;
            Ok(Some(layering))
        }
        _ => Ok(None),
    }
}
