//! Models of buildings.

ghost use Rattle.std.specs.Prelude.{◌≡◌, ◌↔◌, ◌==◌, ℕ, IsTrue, IfOk, Some};
ghost use Rattle.std.specs.List.{list_any, find};
ghost use Rattle.std.specs.Option.{option_copied};
ghost use Rattle.std.specs.Result.{IsErrOf};
ghost use Rattle.sb_model.specs.Building.{building, is_building, is_in_range, IsMade};
ghost use Rattle.sb_model.specs.Building.{first_bad};
ghost use Rattle.sb_model.specs.Building.{material_of, material_in as material_name};
ghost use Rattle.sb_model.specs.Building.{material_at as name_at};
ghost use Rattle.sb_model.specs.Surfaces.Faces.{space_numbered};
ghost use Rattle.sb_model.specs.Building.{element_numbered, opening_numbered, filling_numbered};

use crate::layers::{Layer, Layering, Layers};
use crate::numbering::first_bad_number;
use crate::products::{Element, Elements, Filling, Fillings, Opening, Openings, Space, Spaces};
use sb_fraction::Unit;
use std::alloc::Global;
use std::marker;
use thiserror::Error;

/// A building: its spaces, elements, openings and fillings, the height of the ground and the reach
/// of walks. In each list the numbers rise from 1 on, no number stands in two lists, and what an
/// opening or a filling names is there.
#[derive(Drop)]
pub struct Model {
    unit: Unit,
    ground_height: i32,
    reach: u32,
    spaces: Spaces,
    elements: Elements,
    openings: Openings,
    fillings: Fillings,
}

impl marker::Model for Model {
    ghost use Rattle.std.specs.Prelude.{IsTrue};
    ghost use Rattle.sb_model.specs.Building.{Building, building, is_building};

    ghost Value = { Building };

    ghost view = { λ m. building m.unit m.ground_height m.reach m.spaces m.elements m.openings m.fillings };

    ghost invariant = { λ m. IsTrue (is_building (
        building m.unit m.ground_height m.reach m.spaces m.elements m.openings m.fillings
        )) };
}

/// Why products are no model.
#[derive(Debug, Drop, Error)]
pub enum ModelError {
    /// This number is 0, is not above the number before it in its list, stands in two lists, or is
    /// of an opening or a filling that names what is not there. It is the first such number, in the
    /// order of the arguments of [`Model::new`].
    #[error("#{0} is no number of its own, or names what is not there")]
    BadNumber(u32),
    /// There is no memory.
    #[error("no memory")]
    NoMemory,
}

impl Model {
    /// The model of these products. Heights and the reach are in millimetres (mm).
    ///
    /// - `Ok(model)`: it has exactly these products.
    /// - `Err(BadNumber(n))`: exactly where n is the first bad number.
    /// - `Err(NoMemory)`: at any time. The other yields to it.
    ///
    /// It takes the time of sorting the numbers.
    pub fn new(
        alloc: Global,
        unit: Unit,
        ground_height: i32,
        reach: u32,
        spaces: Spaces,
        elements: Elements,
        openings: Openings,
        fillings: Fillings,
    ) -> Result<Model, ModelError>
        requires in_range { IsTrue (is_in_range (building unit ground_height reach spaces elements openings fillings)) }
        ensures value { IfOk result (λ m. m ≡ building unit ground_height reach spaces elements openings fillings) }
        ensures bad_number { (n : ℕ) → IsMade result → IsErrOf result (ModelError.BadNumber n)
            ↔ (first_bad (building unit ground_height reach spaces elements openings fillings) ≡ Some n) }
    {
        match first_bad_number(alloc, &spaces, &elements, &openings, &fillings) {
            Err(_) => return Err(ModelError::NoMemory),
            Ok(Some(n)) => return Err(ModelError::BadNumber(n)),
            Ok(None) => {}
        }
        Ok(Model {
            unit,
            ground_height,
            reach,
            spaces,
            elements,
            openings,
            fillings,
        })
    }

    /// The unit of the file's lengths.
    pub fn unit(&self) -> Unit
        ensures { result ≡ self.now.unit }
    {
        self.unit
    }

    /// The height of the ground in millimetres (mm).
    pub fn ground(&self) -> i32
        ensures value { result ≡ self.now.ground_height }
        ensures is_building { IsTrue (is_building self.now) }
    {
        self.ground_height
    }

    /// How far a walk passes through one element, in millimetres (mm).
    pub fn reach(&self) -> u32
        ensures value { result ≡ self.now.reach }
        ensures is_building { IsTrue (is_building self.now) }
    {
        self.reach
    }

    /// The spaces.
    pub fn spaces(&self) -> &Spaces
        ensures value { result.now ≡ self.now.spaces }
        ensures is_building { IsTrue (is_building self.now) }
    {
        &self.spaces
    }

    /// The space with this number; `None` where there is none. It is found by halving. Its lengths are in
    /// millimetres (mm).
    pub fn space(&self, number: u32) -> Option<&Space>
        ensures { option_copied result ≡ space_numbered self.now number }
    {
        let spaces = self.spaces.as_slice();
        match spaces.binary_search_by_key(&number, |s| s.number) {
            Ok(at) => Some(&spaces[at]),
            Err(_) => None,
        }
    }

    /// The elements.
    pub fn elements(&self) -> &Elements
        ensures value { result.now ≡ self.now.elements }
        ensures is_building { IsTrue (is_building self.now) }
    {
        &self.elements
    }

    /// The element with this number; `None` where there is none. It is found by halving.
    pub fn element(&self, number: u32) -> Option<&Element>
        ensures { option_copied result ≡ element_numbered self.now number }
    {
        let elements = self.elements.as_slice();
        match elements.binary_search_by_key(&number, |e| e.number) {
            Ok(at) => Some(&elements[at]),
            Err(_) => None,
        }
    }

    /// The openings.
    pub fn openings(&self) -> &Openings
        ensures value { result.now ≡ self.now.openings }
        ensures is_building { IsTrue (is_building self.now) }
    {
        &self.openings
    }

    /// The opening with this number; `None` where there is none. It is found by halving.
    pub fn opening(&self, number: u32) -> Option<&Opening>
        ensures { option_copied result ≡ opening_numbered self.now number }
    {
        let openings = self.openings.as_slice();
        match openings.binary_search_by_key(&number, |o| o.number) {
            Ok(at) => Some(&openings[at]),
            Err(_) => None,
        }
    }

    /// The fillings.
    pub fn fillings(&self) -> &Fillings
        ensures value { result.now ≡ self.now.fillings }
        ensures is_building { IsTrue (is_building self.now) }
    {
        &self.fillings
    }

    /// The filling with this number; `None` where there is none. It is found by halving.
    pub fn filling(&self, number: u32) -> Option<&Filling>
        ensures { option_copied result ≡ filling_numbered self.now number }
    {
        let fillings = self.fillings.as_slice();
        match fillings.binary_search_by_key(&number, |f| f.number) {
            Ok(at) => Some(&fillings[at]),
            Err(_) => None,
        }
    }

    /// The name of the material of a layer of an element, or no bytes where there is none. One
    /// material through and through is that of layer 0.
    pub fn material(&self, element: u32, layer: u32) -> &[u8]
        ensures { result.now ≡ material_of self.now element layer }
    {
        match self.element(element) {
            Some(element) => material_in(&element.layering, layer),
            None => &[],
        }
    }
}

/// The layer with this index.
fn find_layer(layers: &Layers, index: u32) -> Option<&Layer>
    ensures { option_copied result ≡ find (λ l. l.index == index) layers.now }
{
    layers.as_slice().iter().find(|l| l.index == index)
}

/// The name of the material of a layer, or no bytes.
fn material_in(layering: &Layering, layer: u32) -> &[u8]
    ensures { result.now ≡ material_name layering.now layer }
{
    match layering {
        Layering::Plain => &[],
        Layering::Single(material) => { if layer == 0 { material.bytes() } else { &[] } }
        Layering::Layered(layers, _) => material_at(layers, layer),
    }
}

/// The name of the material of the layer with this index, or no bytes.
fn material_at(layers: &Layers, index: u32) -> &[u8]
    ensures { result.now ≡ name_at (find (λ l. l.index == index) layers.now) }
{
    match find_layer(layers, index) {
        Some(layer) => layer.material.bytes(),
        None => &[],
    }
}
