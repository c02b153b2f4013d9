// What elements are made of.
ghost use Rattle.std.specs.Prelude.{◌≡◌, ◌≤◌, IfOk, IsTrue};
ghost use Rattle.std.specs.Option.{option_copied};
ghost use Rattle.sb_building.specs.Layerings as spec;

use sb_layers::axis_of;
use sb_list::{Listed, Text};
use sb_model::{Axis, Layer, Layering, Layers, Prism, Turn};
use std::alloc::{AllocError, Global};

/// One of the three axes of an element that its layers may follow (IfcLayerSetDirectionEnum of ISO 16739).
#[derive(Clone, Copy)]
pub enum LayerAxis {
    First,
    Second,
    Third,
}

/// Along which axis layers follow each other, and whether backwards.
#[derive(Clone, Copy)]
pub struct Along {
    pub axis: LayerAxis,
    pub negative: bool,
}

/// What is read of a material instance, once for all elements that have it.
#[derive(Drop)]
pub enum Made {
    /// Nothing that is read.
    Nothing,
    /// One material with this name (IfcMaterial).
    OneMaterial(Text),
    /// Layers, thicknesses in micrometres (µm): along the axis of a usage (IfcMaterialLayerSetUsage), or, of
    /// a set by itself (IfcMaterialLayerSet), along that of the element's class.
    InLayers(Layers, Option<Along>),
}

impl Made {
    /// The layering of an element of this keyword with this prism, which is turned so.
    ///
    /// `Err`: there was no memory.
    pub fn layering(
        &self,
        alloc: Global,
        keyword: Option<&[u8]>,
        prism: &Prism,
        turn: Turn,
    ) -> Result<Layering, AllocError>
        ensures { IfOk result (λ l. l ≡ spec.layering_in self.now (option_copied keyword.entry) prism.now turn) }
    {
        match self {
            Made::Nothing => Ok(Layering::Plain),
            Made::OneMaterial(name) => Ok(Layering::Single(name.copy()?)),
            Made::InLayers(layers, along) => {
                let along = axis_where(keyword, *along);
                layered(alloc, layers, along, prism, turn)
            }
        }
    }
}

/// The axis that is given, and that of the element's class where none is.
fn axis_where(keyword: Option<&[u8]>, along: Option<Along>) -> Along
    ensures number { spec.number_at result.axis ≡ (spec.axis_at (option_copied keyword.entry) along).0 }
    ensures sense { result.negative ≡ (spec.axis_at (option_copied keyword.entry) along).1 }
{
    match along {
        Some(along) => along,
        None => Along {
            axis: axis_of_class(keyword),
            negative: false,
        },
    }
}

/// Upward in what lies, across in what stands.
fn axis_of_class(keyword: Option<&[u8]>) -> LayerAxis
    ensures { spec.number_at result ≡ spec.axis_of_class (option_copied keyword.entry) }
{
    match keyword {
        Some(b"IFCSLAB" | b"IFCROOF" | b"IFCCOVERING") => LayerAxis::Third,
        _ => LayerAxis::Second,
    }
}

/// Layers along an axis, if any is left.
fn layered(
    alloc: Global,
    layers: &Layers,
    along: Along,
    prism: &Prism,
    turn: Turn,
) -> Result<Layering, AllocError>
    ensures { IfOk result (λ l. l
        ≡ spec.along prism.now turn (Some (spec.number_at along.axis, along.negative)) layers.now) }
{
    if layers.is_empty() {
        return Ok(Layering::Plain);
    }
    let copy = copied(alloc, layers.as_slice())?;
    let axis = axis_of(prism, turn, number_of(along.axis), along.negative);
    Ok(Layering::Layered(copy, axis))
}

fn number_of(axis: LayerAxis) -> u32
    ensures value { result ≡ spec.number_at axis }
    ensures from_1 { 1 ≤ result }
    ensures to_3 { result ≤ 3 }
{
    match axis {
        LayerAxis::First => 1,
        LayerAxis::Second => 2,
        LayerAxis::Third => 3,
    }
}

/// The same layers.
fn copied(alloc: Global, layers: &[Layer]) -> Result<Layers, AllocError>
    ensures { IfOk result (λ copy. copy ≡ layers.now) }
{
    let mut copy = Listed::new(alloc);
    'layers: for layer in layers {
        let same = copy_of(layer)?;
        copy.push(same)?;
    }
    Ok(copy)
}

fn copy_of(layer: &Layer) -> Result<Layer, AllocError>
    ensures { IfOk result (λ copy. copy ≡ layer.now) }
{
    let material = layer.material.copy()?;
    Ok(Layer {
        index: layer.index,
        material,
        micro: layer.micro,
    })
}
