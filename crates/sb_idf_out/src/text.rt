//! The whole text.

ghost use Rattle.std.specs.Prelude.{◌≡◌, ◌++◌, ◌+◌, ◌<◌, ℕ, [], Some, IfOk, OnOk, IsTrue, length, slice_get};
ghost use Rattle.sb_model.specs.declared.boundary.Boundary.{Boundary};
ghost use Rattle.std.specs.List.{flat_map};
ghost use Rattle.sb_model.specs.Surfaces.Faces.{is_face_of};
ghost use Rattle.sb_model.specs.ListOfModel.{is_list_of};
ghost use Rattle.sb_idf_out.specs.Objects.{zone_object, object_under};
ghost use Rattle.sb_idf_out.specs.IdfText.{head as head_text, idf_text_of};
ghost use Rattle.sb_idf_out.specs.Steps.Surfaces.{objects_by};
ghost use Rattle.sb_idf_out.specs.Steps.Uses.{numbers_used, front_text};

use crate::surfaces::append_surface;
use crate::uses::survey;
use crate::windows::append_child;
use sb_list::Text;
use sb_model::{Boundaries, Boundary, Model, Spaces};
use sb_texts::{Piece, append, append_all};
use std::alloc::{AllocError, Global};

/// The text of a list of boundaries and its model, as EnergyPlus 9.4 reads it: fixed objects, a zone for
/// each space, materials and constructions in order of first use, surfaces, windows and doors.
///
/// Each boundary names faces, spaces, elements and keys of the model, and its pair and its parent are ids
/// of the list. A top-level boundary that ends at a space and has no pair has an empty field for it. The
/// one error is want of memory.
pub fn idf_text(alloc: Global, model: &Model, bounds: &Boundaries) -> Result<Vec<u8>, AllocError>
    requires of_model { IsTrue (is_list_of model.now bounds.now) }
    ensures { IfOk result (λ text. text.items ≡ idf_text_of model.now bounds.now) }
{
    let front = begun(alloc, model, bounds)?;
    let numbers = front.numbers;
    let mut text = bytes_of(alloc, front.text)?;
    append_boundaries(alloc, &mut text, model, bounds, numbers.as_slice())?;
    Ok(text)
}

/// The bytes of a text, which is let go.
fn bytes_of(alloc: Global, text: Text) -> Result<Vec<u8>, AllocError>
    ensures { IfOk result (λ bytes. bytes.items ≡ text) }
{
    Vec::from_slice(alloc, text.bytes())
}

/// What stands before the boundaries, and the number of the construction of each.
#[derive(Drop)]
struct Front {
    text: Text,
    numbers: Vec<u64>,
}

/// Goes over a list for what stands before its boundaries. The tables of materials and constructions are let
/// go before the boundaries are written.
fn begun(alloc: Global, model: &Model, bounds: &Boundaries) -> Result<Front, AllocError>
    ensures text { IfOk result (λ f. f.text ≡ front_text model.now bounds.now) }
    ensures numbers { IfOk result (λ f. f.numbers.items ≡ numbers_used model.now [] [] bounds.now) }
{
    let survey = survey(alloc, model, bounds)?;
    let mut text = Text::of(alloc, head())?;
    append_zones(&mut text, model.spaces())?;
    append(&mut text, survey.uses.materials.objects.bytes())?;
    append(&mut text, survey.uses.objects.bytes())?;
    Ok(Front {
        text,
        numbers: survey.numbers,
    })
}

/// Appends a zone for each space.
fn append_zones(text: &mut Text, spaces: &Spaces) -> Result<(), AllocError>
    ensures { OnOk result (text.new ≡ text.old ++ flat_map (λ s. zone_object s.number) spaces.now) }
{
    'spaces: for space in spaces.as_slice() {
        append_zone(text, u64::from(space.number))?;
    }
    Ok(())
}

#[tactic(auto, unfolding(crate::specs::Objects::zone_object))]
fn append_zone(text: &mut Text, number: u64) -> Result<(), AllocError>
    ensures { OnOk result (text.new ≡ text.old ++ zone_object number) }
{
    append_all(
        text,
        &[
            Piece::Bytes(b"Zone,SPACE_"),
            Piece::Number(number),
            Piece::Bytes(b",0,0,0,0,1,1;\n"),
        ],
    )
}

/// Appends the objects of all boundaries, whose constructions have these numbers.
fn append_boundaries(
    alloc: Global,
    text: &mut Vec<u8>,
    model: &Model,
    bounds: &Boundaries,
    numbers: &[u64],
) -> Result<(), AllocError>
    requires of_model { IsTrue (is_list_of model.now bounds.now) }
    requires each { length numbers.now ≡ length bounds.now }
    ensures { OnOk result (text.new.items ≡ text.old.items ++ objects_by model.now 1 numbers.now bounds.now) }
{
    'bounds: for index in 0..bounds.len() {
        append_boundary_at(alloc, text, model, bounds, numbers, index)?;
    }
    Ok(())
}

/// Appends the object of the boundary at a place of the list, counted from 0. Its id is one more.
fn append_boundary_at(
    alloc: Global,
    text: &mut Vec<u8>,
    model: &Model,
    bounds: &Boundaries,
    numbers: &[u64],
    index: usize,
) -> Result<(), AllocError>
    requires of_model { IsTrue (is_list_of model.now bounds.now) }
    requires each { length numbers.now ≡ length bounds.now }
    requires within { index < length bounds.now }
    ensures { OnOk result ((k : ℕ) (b : Boundary) → slice_get numbers.now index ≡ Some k
        → slice_get bounds.now index ≡ Some b
        → text.new.items ≡ text.old.items ++ object_under model.now k (index + 1) b b.parent) }
{
    let boundary = &bounds.as_slice()[index];
    append_object(
        alloc,
        text,
        model,
        numbers[index],
        index as u64 + 1,
        boundary,
    )
}

/// The same, made apart and then appended: so all boundaries stand in memory once.
fn append_object(
    alloc: Global,
    text: &mut Vec<u8>,
    model: &Model,
    construction: u64,
    id: u64,
    boundary: &Boundary,
) -> Result<(), AllocError>
    requires face { IsTrue (is_face_of model.now boundary.now.patch.face) }
    ensures { OnOk result (text.new.items
        ≡ text.old.items ++ object_under model.now construction id boundary.now boundary.now.parent) }
{
    let mut object = Text::new(alloc);
    append_boundary(alloc, &mut object, model, construction, id, boundary)?;
    text.extend_from_slice(object.bytes())
}

/// Appends the object of a boundary with this id, whose construction has this number.
fn append_boundary(
    alloc: Global,
    text: &mut Text,
    model: &Model,
    construction: u64,
    id: u64,
    boundary: &Boundary,
) -> Result<(), AllocError>
    requires face { IsTrue (is_face_of model.now boundary.now.patch.face) }
    ensures { OnOk result (text.new
        ≡ text.old ++ object_under model.now construction id boundary.now boundary.now.parent) }
{
    match boundary.parent {
        Some(parent) => append_child(alloc, text, model, id, parent, boundary),
        None => append_surface(alloc, text, model, construction, id, boundary),
    }
}

/// The objects that stand in every text.
#[tactic(auto, unfolding(crate::specs::IdfText::head))]
fn head() -> &'static [u8]
    ensures { result.now ≡ head_text }
{
    b"Version,9.4;\n\
GlobalGeometryRules,UpperLeftCorner,Counterclockwise,World;\n\
Material,M_0,MediumRough,0.001000,1.000000,1000.000000,1000.000000;\n\
Construction,C_0,M_0;\n\
Material,M_DOOR,MediumRough,0.040000,0.150000,600.000000,1600.000000;\n\
Construction,C_DOOR,M_DOOR;\n\
WindowMaterial:SimpleGlazingSystem,M_WINDOW,2.000000,0.600000;\n\
Construction,C_WINDOW,M_WINDOW;\n"
}
