// Products as their shapes are judged.
ghost use Rattle.std.specs.Prelude.{◌≡◌, ℕ, List, [], ◌∷◌, ◌++◌, Some, IfOk, OnOk};
ghost use Rattle.sb_profile.specs.declared.defects.Code.{Code as CodeOf};
ghost use Rattle.sb_building.specs.Steps.Least.{IsLeastOf};
ghost use Rattle.sb_building.specs.Steps.Shaping as spec;

use crate::judging::least::least;
use crate::judging::standing::Standing;
use sb_fraction::Unit;
use sb_prism::{PrismError, prism_of};
use sb_profile::{Code, Defect};
use sb_step::StepFile;
use std::alloc::{AllocError, Global};

/// The products whose shapes give prisms in their frames, in order; of the others the least condition is
/// kept.
pub(crate) fn shape_each(
    alloc: Global,
    file: &StepFile<'_>,
    products: &[Standing],
    unit: Unit,
    found: &mut Option<Defect>,
) -> Result<Vec<Standing>, AllocError>
    ensures { IfOk result (λ all. spec.ShapesAreJudged file.now unit products.now all.items found.old found.new) }
{
    let mut all = Vec::new(alloc);
    'products: for product in products {
        shape(alloc, file, product, unit, &mut all, found)?;
    }
    Ok(all)
}

/// Judges the shape of one product.
fn shape(
    alloc: Global,
    file: &StepFile<'_>,
    product: &Standing,
    unit: Unit,
    all: &mut Vec<Standing>,
    found: &mut Option<Defect>,
) -> Result<(), AllocError>
    ensures { OnOk result (spec.IsOneMoreShaped file.now unit product.now all.old.items all.new.items
        found.old found.new) }
{
    match fills(alloc, file, product, unit) {
        Ok(()) => {
            all.push(*product)?;
            Ok(())
        }
        Err(error) => note(found, product.number, error),
    }
}

/// Whether the shape of a product gives a prism in its frame, or why it gives none.
fn fills(
    alloc: Global,
    file: &StepFile<'_>,
    product: &Standing,
    unit: Unit,
) -> Result<(), PrismError>
    ensures { spec.IsAnswered file.now unit product.now result }
{
    match prism_of(alloc, file, product.shape, &product.frame, unit) {
        Ok(_) => Ok(()),
        Err(error) => Err(error),
    }
}

/// Keeps the condition of a product whose shape gives no prism, if it is the least.
fn note(found: &mut Option<Defect>, number: u32, error: PrismError) -> Result<(), AllocError>
    ensures { OnOk result ((k : CodeOf) × (spec.code_of error ≡ Some k)
        × ((seen : List (ℕ × CodeOf)) → IsLeastOf seen found.old
        → IsLeastOf (seen ++ (number, k) ∷ []) found.new)) }
{
    let code = code(error)?;
    *found = least(*found, number, code);
    Ok(())
}

/// The condition of a product whose shape gives no prism. An instance that is not of its row, or absent, is a
/// defect of the file, so none of these comes here.
fn code(error: PrismError) -> Result<Code, AllocError>
    ensures { IfOk result (λ k. spec.code_of error ≡ Some k) }
{
    match error {
        PrismError::Turned => Ok(Code::Turned),
        PrismError::Shape => Ok(Code::Shape),
        PrismError::Range => Ok(Code::Range),
        PrismError::OffGrid => Ok(Code::OffGrid),
        PrismError::Loops => Ok(Code::Loops),
        PrismError::Fields(_) | PrismError::Missing(_) | PrismError::NoMemory => Err(AllocError),
    }
}
