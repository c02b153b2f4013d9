// Products as their placements are judged.
ghost use Rattle.std.specs.Prelude.{◌≡◌, ℕ, List, [], ◌∷◌, ◌++◌, Some, IfOk, OnOk};
ghost use Rattle.std.specs.Ordering.{nat_cmp};
ghost use Rattle.std.specs.BTreeMap.{get};
ghost use Rattle.sb_profile.specs.declared.defects.Code.{Code as CodeOf};
ghost use Rattle.sb_building.specs.Frames.{AreKnown};
ghost use Rattle.sb_building.specs.Steps.Least.{IsLeastOf};
ghost use Rattle.sb_building.specs.Steps.Standing as spec;

use crate::frames::{Placements, frame_in};
use crate::judging::least::least;
use crate::judging::ordered::in_order;
use sb_fraction::Unit;
use sb_model::Frame;
use sb_place::PlaceError;
use sb_profile::{Code, Defect, Shaped};
use sb_step::StepFile;
use std::alloc::{AllocError, Global};

/// A product, its shape, and the frame in which it stands.
#[derive(Clone, Copy)]
pub(crate) struct Standing {
    pub number: u32,
    pub shape: u32,
    pub frame: Frame,
}

/// Those of some taken products that stand in a frame, by rising numbers; of the others the least condition
/// is kept.
pub(crate) fn stand_taken(
    alloc: Global,
    file: &StepFile<'_>,
    known: &mut Placements,
    products: &[Shaped],
    building: Option<u32>,
    unit: Unit,
    found: &mut Option<Defect>,
) -> Result<Vec<Standing>, AllocError>
    requires { AreKnown file.now building unit (get nat_cmp known.now) }
    ensures judged { IfOk result (λ all. spec.TakenAreJudged file.now building unit products.now all.items
        found.old found.new) }
    ensures known { OnOk result (AreKnown file.now building unit (get nat_cmp known.new)) }
{
    let products = in_order(alloc, products)?;
    let all = stand_each(
        alloc,
        file,
        known,
        products.as_slice(),
        building,
        unit,
        found,
    )?;
    Ok(all)
}

/// The products that stand in a frame, in order; of the others the least condition is kept.
fn stand_each(
    alloc: Global,
    file: &StepFile<'_>,
    known: &mut Placements,
    products: &[Shaped],
    building: Option<u32>,
    unit: Unit,
    found: &mut Option<Defect>,
) -> Result<Vec<Standing>, AllocError>
    requires { AreKnown file.now building unit (get nat_cmp known.now) }
    ensures judged { IfOk result (λ all. spec.AreJudged file.now building unit products.now all.items
        found.old found.new) }
    ensures known { OnOk result (AreKnown file.now building unit (get nat_cmp known.new)) }
{
    let mut all = Vec::new(alloc);
    'products: for product in products {
        stand(
            alloc, file, known, *product, building, unit, &mut all, found,
        )?;
    }
    Ok(all)
}

/// Judges the placement of one product.
fn stand(
    alloc: Global,
    file: &StepFile<'_>,
    known: &mut Placements,
    product: Shaped,
    building: Option<u32>,
    unit: Unit,
    all: &mut Vec<Standing>,
    found: &mut Option<Defect>,
) -> Result<(), AllocError>
    requires { AreKnown file.now building unit (get nat_cmp known.now) }
    ensures judged { OnOk result (spec.IsOneMore file.now building unit product all.old.items all.new.items
        found.old found.new) }
    ensures known { OnOk result (AreKnown file.now building unit (get nat_cmp known.new)) }
{
    match frame_in(alloc, file, known, product.placement, building, unit) {
        Ok(frame) => {
            let standing = Standing {
                number: product.number,
                shape: product.shape,
                frame,
            };
            all.push(standing)?;
            Ok(())
        }
        Err(error) => note(found, product.number, error),
    }
}

/// Keeps the condition of a product whose placement gives no frame, if it is the least.
fn note(found: &mut Option<Defect>, number: u32, error: PlaceError) -> Result<(), AllocError>
    ensures { OnOk result ((k : CodeOf) × (spec.code_of error ≡ Some k)
        × ((seen : List (ℕ × CodeOf)) → IsLeastOf seen found.old
        → IsLeastOf (seen ++ (number, k) ∷ []) found.new)) }
{
    let code = code(error)?;
    *found = least(*found, number, code);
    Ok(())
}

/// The condition of a product whose placement gives no frame. An instance that is not of its row, or
/// absent, is a defect of the file, so none of these comes here.
fn code(error: PlaceError) -> Result<Code, AllocError>
    ensures { IfOk result (λ k. spec.code_of error ≡ Some k) }
{
    match error {
        PlaceError::Chain => Ok(Code::Chain),
        PlaceError::Turned => Ok(Code::Turned),
        PlaceError::Range => Ok(Code::Range),
        PlaceError::Fields(_) | PlaceError::Missing(_) | PlaceError::NoMemory => Err(AllocError),
    }
}
