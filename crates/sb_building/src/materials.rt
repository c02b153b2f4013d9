// What is read of material instances.
ghost use Rattle.std.specs.Prelude.{◌≡◌, ℕ, Some, None, IfOk, option_map};
ghost use Rattle.sb_step.specs.Indexed.{Indexed};
ghost use Rattle.sb_fixed.specs.Lengths.{micrometres_of};
ghost use Rattle.sb_schema.specs.Table.{Values};
ghost use Rattle.sb_schema.specs.Views.{Views, Taking};
ghost use Rattle.sb_profile.specs.Entities.{Entity, row_of};
ghost use Rattle.sb_profile.specs.Entities.Entity.{material as the_material, material_layer_set_usage as the_usage};
ghost use Rattle.sb_profile.specs.Contents.{Contents, Says};
ghost use Rattle.sb_building.specs.Layerings as spec;
ghost use Rattle.sb_building.specs.Steps.Materials as steps;

use crate::made::{Along, LayerAxis, Made};
use sb_fixed::micrometres;
use sb_fraction::Unit;
use sb_list::{Listed, Text};
use sb_model::{Layer, Layers};
use sb_schema::{
    MaterialLayerSetUsage, ViewError, material, material_layer, material_layer_set,
    material_layer_set_usage,
};
use sb_step::{StepFile, one_list_of_parameters};
use std::alloc::{AllocError, Global};

/// How many members a set of layers has at most.
const MOST: usize = 64;

/// What is read of the material instance that an element has (IfcMaterial, IfcMaterialLayerSetUsage or
/// IfcMaterialLayerSet of ISO 16739), with thicknesses in whole micrometres (µm) by this unit.
///
/// - `Ok(None)`: exactly where it cannot be read: a set is none or has more than 64 members, a member is no
///   layer, a thickness is below 0 or above 10,000,000 µm, or an axis or a sense is none of those named.
/// - `Err`: there was no memory.
pub fn made_of(
    alloc: Global,
    file: &StepFile<'_>,
    instance: Option<u32>,
    unit: Unit,
) -> Result<Option<Made>, AllocError>
    ensures { IfOk result (λ what. (c : Contents) → Says file.now c → spec.IsMadeOf c unit instance what) }
{
    match instance {
        None => Ok(Some(Made::Nothing)),
        Some(number) => made_at(alloc, file, number, unit),
    }
}

fn made_at(
    alloc: Global,
    file: &StepFile<'_>,
    number: u32,
    unit: Unit,
) -> Result<Option<Made>, AllocError>
    ensures { IfOk result (λ what. (c : Contents) → Says file.now c → spec.IsMadeOf c unit (Some number) what) }
{
    if let Some(view) = given(material(alloc, file, number))? {
        return Ok(Some(Made::OneMaterial(view.a1)));
    }
    if let Some(usage) = given(material_layer_set_usage(alloc, file, number))? {
        return by_usage(alloc, file, usage, unit);
    }
    by_set(alloc, file, number, unit)
}

/// Layers along the axis of a usage.
fn by_usage(
    alloc: Global,
    file: &StepFile<'_>,
    usage: MaterialLayerSetUsage,
    unit: Unit,
) -> Result<Option<Made>, AllocError>
    ensures { IfOk result (λ what. (c : Contents) → Says file.now c → (n : ℕ)
        → c.given the_material n ≡ None
        → c.given the_usage n ≡ Some (usage.a1, (usage.a2, (usage.a3, tt)))
        → spec.IsMadeOf c unit (Some n) what) }
{
    let Some(along) = along_named(usage.a2.bytes(), usage.a3.bytes()) else {
        return Ok(None);
    };
    match given(material_layer_set(alloc, file, usage.a1))? {
        None => Ok(None),
        Some(set) => {
            let layers = layers_from(alloc, file, set.a1.as_slice(), unit)?;
            Ok(in_layers(layers, Some(along)))
        }
    }
}

/// Layers of a set by itself, if it is one.
fn by_set(
    alloc: Global,
    file: &StepFile<'_>,
    number: u32,
    unit: Unit,
) -> Result<Option<Made>, AllocError>
    ensures { IfOk result (λ what. (c : Contents) → Says file.now c
        → c.given the_material number ≡ None → c.given the_usage number ≡ None
        → spec.IsMadeOf c unit (Some number) what) }
{
    match given(material_layer_set(alloc, file, number))? {
        None => Ok(Some(Made::Nothing)),
        Some(set) => {
            let layers = layers_from(alloc, file, set.a1.as_slice(), unit)?;
            Ok(in_layers(layers, None))
        }
    }
}

fn in_layers(layers: Option<Layers>, along: Option<Along>) -> Option<Made>
    ensures { result ≡ option_map (λ ls. Made.InLayers ls along) layers }
{
    match layers {
        Some(layers) => Some(Made::InLayers(layers, along)),
        None => None,
    }
}

/// The axis and the sense that these words name.
fn along_named(axis: &[u8], sense: &[u8]) -> Option<Along>
    ensures { steps.IsAlong axis.now sense.now result }
{
    let axis = match axis {
        b"AXIS1" => LayerAxis::First,
        b"AXIS2" => LayerAxis::Second,
        b"AXIS3" => LayerAxis::Third,
        _ => return None,
    };
    let negative = match sense {
        b"POSITIVE" => false,
        b"NEGATIVE" => true,
        _ => return None,
    };
    Some(Along { axis, negative })
}

/// The layers of the members of a set; `None` where there are too many or one is no layer.
fn layers_from(
    alloc: Global,
    file: &StepFile<'_>,
    members: &[u32],
    unit: Unit,
) -> Result<Option<Layers>, AllocError>
    ensures { IfOk result (λ layers. (c : Contents) → Says file.now c
        → steps.AreLayersOf c unit members.now layers) }
{
    if members.len() > MOST {
        return Ok(None);
    }
    let mut layers = Listed::new(alloc);
    'members: for place in 0..members.len() {
        if !push_layer(
            alloc,
            file,
            &mut layers,
            place as u32 + 1,
            members[place],
            unit,
        )? {
            return Ok(None);
        }
    }
    Ok(Some(layers))
}

/// Appends the layer of this number, unless its thickness rounds to 0. It is at this place of its set,
/// counted from 1. The answer is whether it is a layer.
fn push_layer(
    alloc: Global,
    file: &StepFile<'_>,
    layers: &mut Layers,
    index: u32,
    number: u32,
    unit: Unit,
) -> Result<bool, AllocError>
    ensures { IfOk result (λ good. (c : Contents) → Says file.now c
        → steps.IsPushed c unit index number layers.old layers.new good) }
{
    let Some(view) = given(material_layer(alloc, file, number))? else {
        return Ok(false);
    };
    match thickness(view.a2.bytes(), unit) {
        None => Ok(false),
        Some(0) => Ok(true),
        Some(micro) => {
            let material = name_at(alloc, file, view.a1)?;
            let layer = Layer {
                index,
                material,
                micro,
            };
            layers.push(layer)?;
            Ok(true)
        }
    }
}

/// The name of a material: no bytes where there is none, or it is no IfcMaterial.
fn name_at(alloc: Global, file: &StepFile<'_>, number: Option<u32>) -> Result<Text, AllocError>
    ensures { IfOk result (λ name. (c : Contents) → Says file.now c → name ≡ spec.name_of c number) }
{
    let Some(number) = number else {
        return Ok(Listed::new(alloc));
    };
    match given(material(alloc, file, number))? {
        Some(view) => Ok(view.a1),
        None => Ok(Listed::new(alloc)),
    }
}

/// A thickness in whole micrometres that a layer may have.
fn thickness(text: &[u8], unit: Unit) -> Option<u64>
    ensures { steps.IsThicknessOf (micrometres_of text.now unit) result }
{
    match micrometres(text, unit) {
        Ok(micro) if 0 <= micro && micro <= 10_000_000 => Some(micro as u64),
        _ => None,
    }
}

/// What a view shows of an instance; `None` where there is none of its row.
pub(crate) fn given<V: Drop>(view: Result<V, ViewError>) -> Result<Option<V>, AllocError>
    ensures { (taking : Taking) (e : Entity) (fields : V → Values (row_of e).read) (indexed : Indexed) (n : ℕ)
        (c : Contents) → Views taking (row_of e) fields indexed n view → Says indexed c
        → IfOk result (λ o. option_map fields o ≡ c.given e n) }
{
    one_list_of_parameters();
    shown(view)
}

fn shown<V: Drop>(view: Result<V, ViewError>) -> Result<Option<V>, AllocError>
    ensures { result ≡ steps.shown_of view }
{
    match view {
        Ok(v) => Ok(Some(v)),
        Err(ViewError::NoMemory) => Err(AllocError),
        Err(_) => Ok(None),
    }
}
