//! Whether a list of boundaries is one of a model, tried at run time: what a list made by hand has to
//! pass before it is written.

ghost use Rattle.std.specs.Prelude.{◌≡◌, ◌&&◌, Some};
ghost use Rattle.std.specs.List.{list_all};
ghost use Rattle.sb_model.specs.Building.{is_space, is_element, is_opening, is_filling};
ghost use Rattle.sb_model.specs.Surfaces.Faces.{is_face_of, has_face};
ghost use Rattle.sb_model.specs.ListOfModel.{is_list_of, is_boundary_of, is_end_of, is_key_of, is_id_in};

use sb_model::{Boundaries, Boundary, End, Face, FaceKind, Item, Model, Space};

/// Whether each boundary of the list names what is the model's or in the list.
pub fn is_list_of(model: &Model, bounds: &Boundaries) -> bool
    ensures { result ≡ is_list_of model.now bounds.now }
{
    let count = bounds.len() as u64;
    bounds
        .as_slice()
        .iter()
        .all(|boundary| is_boundary_of(model, count, boundary))
}

fn is_boundary_of(model: &Model, count: u64, boundary: &Boundary) -> bool
    ensures { result ≡ is_boundary_of model.now count boundary.now }
{
    is_face_of(model, boundary.patch.face) && names_behind(model, count, boundary)
}

/// Whether what a boundary names behind its face is there.
fn names_behind(model: &Model, count: u64, boundary: &Boundary) -> bool
    ensures { result ≡ (list_all (λ i. is_element model.now i.element) boundary.now.walk.items
        && (is_end_of model.now boundary.now.walk.end
        && (is_key_of model.now boundary.now.parent boundary.now.key
        && (is_id_in count boundary.now.pair && is_id_in count boundary.now.parent)))) }
{
    both(
        are_elements(model, boundary.walk.items.as_slice()),
        names_at_end(model, count, boundary),
    )
}

fn both(a: bool, b: bool) -> bool
    ensures { result ≡ (a && b) }
{
    a && b
}

/// Whether what a boundary names at its end is there, and what it is tied to.
fn names_at_end(model: &Model, count: u64, boundary: &Boundary) -> bool
    ensures { result ≡ (is_end_of model.now boundary.now.walk.end
        && (is_key_of model.now boundary.now.parent boundary.now.key
        && (is_id_in count boundary.now.pair && is_id_in count boundary.now.parent))) }
{
    is_end_of(model, boundary.walk.end) && names_ties(model, count, boundary)
}

/// Whether what a boundary is tied to is there.
fn names_ties(model: &Model, count: u64, boundary: &Boundary) -> bool
    ensures { result ≡ (is_key_of model.now boundary.now.parent boundary.now.key
        && (is_id_in count boundary.now.pair && is_id_in count boundary.now.parent)) }
{
    is_key_of(model, boundary.parent, boundary.key)
        && are_ids_in(count, boundary.pair, boundary.parent)
}

fn are_ids_in(count: u64, pair: Option<u64>, parent: Option<u64>) -> bool
    ensures { result ≡ (is_id_in count pair && is_id_in count parent) }
{
    is_id_in(count, pair) && is_id_in(count, parent)
}

fn is_face_of(model: &Model, face: Face) -> bool
    ensures { result ≡ is_face_of model.now face }
{
    match model.space(face.space) {
        Some(space) => has_face(space, face.kind),
        None => false,
    }
}

fn has_face(space: &Space, kind: FaceKind) -> bool
    ensures { result ≡ has_face (Some space.now) kind }
{
    match kind {
        FaceKind::Bottom | FaceKind::Top => true,
        FaceKind::Side(k) => space.prism.loops().edge(k as usize).is_some(),
    }
}

fn are_elements(model: &Model, items: &[Item]) -> bool
    ensures { result ≡ list_all (λ i. is_element model.now i.element) items.now }
{
    items.iter().all(|item| is_element(model, item.element))
}

#[tactic(auto, using(crate::proofs::FoundIfThere::element_found))]
fn is_element(model: &Model, number: u32) -> bool
    ensures { result ≡ is_element model.now number }
{
    model.element(number).is_some()
}

fn is_end_of(model: &Model, end: End) -> bool
    ensures { result ≡ is_end_of model.now end }
{
    match end {
        End::Space(number) => is_space(model, number),
        End::Outside | End::Earth => true,
        End::Solid(number) => is_element(model, number),
    }
}

fn is_key_of(model: &Model, parent: Option<u64>, key: Option<u32>) -> bool
    ensures { result ≡ is_key_of model.now parent key }
{
    match (parent, key) {
        (None, None) => true,
        (Some(_), Some(key)) => is_opening(model, key) || is_filling(model, key),
        _ => false,
    }
}

#[tactic(auto, using(crate::proofs::FoundIfThere::space_found))]
fn is_space(model: &Model, number: u32) -> bool
    ensures { result ≡ is_space model.now number }
{
    model.space(number).is_some()
}

#[tactic(auto, using(crate::proofs::FoundIfThere::opening_found))]
fn is_opening(model: &Model, number: u32) -> bool
    ensures { result ≡ is_opening model.now number }
{
    model.opening(number).is_some()
}

#[tactic(auto, using(crate::proofs::FoundIfThere::filling_found))]
fn is_filling(model: &Model, number: u32) -> bool
    ensures { result ≡ is_filling model.now number }
{
    model.filling(number).is_some()
}

fn is_id_in(count: u64, id: Option<u64>) -> bool
    ensures { result ≡ is_id_in count id }
{
    match id {
        Some(id) => 1 <= id && id <= count,
        None => true,
    }
}
