//! The whole text.

ghost use Rattle.std.specs.Prelude.{◌≡◌, ◌≤◌, ◌<◌, ◌+◌, ◌++◌, ℕ, List, IfOk, OnOk, IsTrue, Some, length, map, take, drop, slice_get, option_map};
ghost use Rattle.std.specs.List.{range_with_len};
ghost use Rattle.sb_model.specs.declared.boundary.Boundary.{Boundary};
ghost use Rattle.sb_model.specs.Surfaces.Faces.{space_numbered, is_face_of};
ghost use Rattle.sb_model.specs.ListOfModel.{is_list_of};
ghost use Rattle.sb_step.specs.Numbers.{IsGreatest};
ghost use Rattle.sb_ifc_out.specs.Numbers.{last_line, line_count};
ghost use Rattle.sb_ifc_out.specs.IfcText.{lines_at, lines_from, lines_of, ifc_text_of, IsIfcText};
ghost use Rattle.sb_ifc_out.specs.Steps.{AreKept, AreOutlines, IsBegunFor};

use crate::boundary::{Entry, append_boundary};
use crate::names::{Names, names_of};
use crate::numbers::{line_at, outline_at, outlines, relation_of, relations};
use crate::places::{boundary_at, space_of};
use sb_list::Text;
use sb_model::{Boundaries, Corners, Model};
use sb_step::StepFile;
use std::alloc::{AllocError, Global};

/// The input with the boundaries of a list added, each as an IfcRelSpaceBoundary2ndLevel with its
/// surface (ISO 16739). The added lines stand where the data section's ENDSEC begins; their numbers
/// go on from the greatest of the input, and may pass 32 bits.
///
/// The file is that of the bytes. Each boundary names faces, spaces, elements and keys of the
/// model, and its pair and its parent are ids of the list. The one error is want of memory.
pub fn ifc_text(
    alloc: Global,
    bytes: &[u8],
    file: &StepFile,
    model: &Model,
    bounds: &Boundaries,
) -> Result<Vec<u8>, AllocError>
    requires of_bytes { file.now.input ≡ bytes.now }
    requires of_model { IsTrue (is_list_of model.now bounds.now) }
    ensures { IfOk result (λ text. IsIfcText bytes.now file.now.file model.now bounds.now text.items) }
{
    let lines = lines_of(alloc, model, bounds, file.greatest())?;
    with_lines(alloc, bytes, file.data_end(), lines.bytes())
}

/// The bytes with these lines put in at a place.
fn with_lines(
    alloc: Global,
    bytes: &[u8],
    place: usize,
    lines: &[u8],
) -> Result<Vec<u8>, AllocError>
    ensures { IfOk result (λ text. text.items ≡ take place bytes.now ++ lines.now ++ drop place bytes.now) }
{
    let (front, back) = parted(bytes, place);
    let mut text = Vec::with_capacity(alloc, bytes.len().saturating_add(lines.len()))?;
    text.extend_from_slice(front)?;
    text.extend_from_slice(lines)?;
    text.extend_from_slice(back)?;
    Ok(text)
}

/// The bytes before a place, and those from it on.
fn parted(bytes: &[u8], place: usize) -> (&[u8], &[u8])
    ensures front { result.0.now ≡ take place bytes.now }
    ensures back { result.1.now ≡ drop place bytes.now }
{
    let place = place.min(bytes.len());
    (&bytes[..place], &bytes[place..])
}

/// The lines of a list, behind the greatest number of the input.
#[tactic(auto, unfolding(crate::specs::IfcText::lines_of))]
fn lines_of(
    alloc: Global,
    model: &Model,
    bounds: &Boundaries,
    greatest: u32,
) -> Result<Text, AllocError>
    requires { IsTrue (is_list_of model.now bounds.now) }
    ensures { IfOk result (λ text. text ≡ lines_of model.now greatest bounds.now) }
{
    let outlines = outlines(alloc, model, bounds)?;
    let relations = relations(alloc, bounds, outlines.as_slice(), greatest)?;
    let mut text = Text::new(alloc);
    append_boundaries(
        &mut text,
        alloc,
        model,
        bounds,
        outlines.as_slice(),
        relations.as_slice(),
        greatest,
    )?;
    Ok(text)
}

/// Appends the lines of all boundaries.
fn append_boundaries(
    text: &mut Text,
    alloc: Global,
    model: &Model,
    bounds: &Boundaries,
    outlines: &[Corners],
    relations: &[u64],
    greatest: u32,
) -> Result<(), AllocError>
    requires of_model { IsTrue (is_list_of model.now bounds.now) }
    requires outlines { AreOutlines model.now bounds.now outlines.now }
    requires lines { relations.now ≡ map (last_line model.now greatest bounds.now) (range_with_len 1 (length bounds.now)) }
    ensures { OnOk result (text.new
        ≡ text.old ++ lines_from model.now (last_line model.now greatest bounds.now) greatest 1 bounds.now) }
{
    let mut before = u64::from(greatest);
    let mut names = None;
    for index in 0..bounds.len() {
        names = append_at(
            text, alloc, model, bounds, outlines, relations, index, before, names,
        )?;
        before = line_at(relations, index);
    }
    Ok(())
}

/// Appends the lines of the boundary at a place of the list, and answers the names of its space.
fn append_at(
    text: &mut Text,
    alloc: Global,
    model: &Model,
    bounds: &Boundaries,
    outlines: &[Corners],
    relations: &[u64],
    index: usize,
    before: u64,
    names: Option<Names>,
) -> Result<Option<Names>, AllocError>
    requires of_model { IsTrue (is_list_of model.now bounds.now) }
    requires within { index < length bounds.now }
    requires outlines { AreOutlines model.now bounds.now outlines.now }
    requires count { length relations.now ≡ length bounds.now }
    requires fits { index < usize.MAX }
    requires last { slice_get relations.now index
        ≡ option_map (λ b. before + line_count model.now b) (slice_get bounds.now index) }
    requires kept { AreKept model.now names }
    ensures kept { IfOk result (λ names. AreKept model.now names) }
    ensures lines { (f : ℕ → ℕ) → relations.now ≡ map f (range_with_len 1 (length relations.now))
        → OnOk result (Some text.new
        ≡ option_map (λ b. text.old ++ lines_at model.now f before (index + 1) b) (slice_get bounds.now index)) }
{
    let boundary = boundary_at(bounds, index);
    let space = space_of(model, boundary.patch.face);
    let names = names_of(names, boundary.patch.face.space, space.global_id.bytes());
    let entry = Entry {
        boundary,
        corners: outline_at(outlines, index),
        id: index as u64 + 1,
        before,
        parent: relation_of(relations, boundary.parent),
        pair: relation_of(relations, boundary.pair),
    };
    append_boundary(text, alloc, model, space, &names.begun, &entry)?;
    Ok(Some(names))
}
