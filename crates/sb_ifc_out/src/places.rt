//! The boundaries of a list by their places, and the spaces of their faces.

ghost use Rattle.std.specs.Prelude.{◌≡◌, ◌<◌, IsTrue, Some, length, slice_get};
ghost use Rattle.sb_model.specs.Building.{Building, is_shift};
ghost use Rattle.sb_model.specs.Surfaces.Faces.{is_face_of, space_numbered};
ghost use Rattle.sb_model.specs.ListOfModel.{is_list_of, is_boundary_of};

use sb_model::{Boundaries, Boundary, Face, Model, Space};

/// The boundary at a place of the list, counted from 0.
pub fn boundary_at(bounds: &Boundaries, index: usize) -> &Boundary
    requires { index < length bounds.now }
    ensures value { slice_get bounds.now index ≡ Some result.now }
    ensures of_model { (m : Building) → IsTrue (is_list_of m bounds.now)
        → IsTrue (is_boundary_of m (length bounds.now) result.now) }
{
    &bounds.as_slice()[index]
}

/// The space of a face of the model.
#[tactic(auto, using(crate::proofs::ShiftsOfModels::shift_of_space))]
pub fn space_of(model: &Model, face: Face) -> &Space
    requires { IsTrue (is_face_of model.now face) }
    ensures value { space_numbered model.now face.space ≡ Some result.now }
    ensures shift { IsTrue (is_shift result.now.frame.shift) }
{
    // What holds of every model is told with its spaces.
    let _spaces = model.spaces();
    model.space(face.space).unwrap()
}
