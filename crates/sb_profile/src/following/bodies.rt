// Which representations are bodies: of each that a shape has it is found once.
ghost use Rattle.std.specs.Prelude.{◌≡◌, ◌++◌, ◌&&◌, ◌||◌, ◌↔◌, ℕ, nat_eq, codes, false, IfOk, OnOk};
ghost use Rattle.std.specs.List.{list_any, flat_map};
ghost use Rattle.std.specs.Option.{option_map_or};
ghost use Rattle.std.specs.Str.{bytes_eq};
ghost use Rattle.std.specs.Ordering.{nat_cmp};
ghost use Rattle.std.specs.BTreeSet.{contains};
ghost use Rattle.theory_lists.specs.Members.{Stands};
ghost use Rattle.sb_profile.specs.declared.following.places.Place.TheVariants as place;
ghost use Rattle.sb_profile.specs.Contents.{Contents, Says};
ghost use Rattle.sb_profile.specs.Following as following;
ghost use Rattle.sb_profile.specs.Steps.Found.{leads_with, AreBodies};
ghost use Rattle.sb_profile.specs.Steps.Read.{representations_of};

use crate::following::places::Place;
use crate::following::survey::wanted;
use crate::reading::products::put;
use crate::sights::{Sight, look};
use sb_list::Text;
use sb_schema::{ProductDefinitionShape, ShapeRepresentation};
use sb_step::StepFile;
use std::alloc::{AllocError, Global};
use std::collections::BTreeSet;

/// The bodies among the representations of the shapes to which these leads are.
pub(crate) fn bodies(
    alloc: Global,
    file: &StepFile<'_>,
    leads: &[(Place, u32)],
) -> Result<BTreeSet<u32>, AllocError>
    ensures leads { IfOk result (λ bodies. (c : Contents) → Says file.now c → (n : ℕ)
        → Stands (place.Shape, n) leads.now
        → leads_with (contains nat_cmp bodies) c place.Shape n ≡ following.leads c place.Shape n) }
    ensures bodies { IfOk result (λ bodies. (c : Contents) → Says file.now c
        → AreBodies c (contains nat_cmp bodies)) }
{
    let shapes = wanted(alloc, leads, Place::Shape)?;
    let representations = representations(alloc, file, shapes.as_slice())?;
    let bodies = bodies_among(alloc, file, representations.as_slice())?;
    Ok(bodies)
}

/// The representations of these shapes, each once.
fn representations(
    alloc: Global,
    file: &StepFile<'_>,
    shapes: &[u32],
) -> Result<Vec<u32>, AllocError>
    ensures { IfOk result (λ numbers. (c : Contents) → Says file.now c → (n : ℕ)
        → Stands n numbers.items ↔ Stands n (flat_map (representations_of c) shapes.now)) }
{
    let mut numbers = listed(alloc, file, shapes)?;
    numbers.sort_unstable();
    numbers.dedup();
    Ok(numbers)
}

fn listed(alloc: Global, file: &StepFile<'_>, shapes: &[u32]) -> Result<Vec<u32>, AllocError>
    ensures { IfOk result (λ numbers. (c : Contents) → Says file.now c
        → numbers.items ≡ flat_map (representations_of c) shapes.now) }
{
    let mut numbers = Vec::new(alloc);
    'shapes: for shape in shapes {
        list(alloc, file, *shape, &mut numbers)?;
    }
    Ok(numbers)
}

fn list(
    alloc: Global,
    file: &StepFile<'_>,
    shape: u32,
    numbers: &mut Vec<u32>,
) -> Result<(), AllocError>
    ensures { OnOk result ((c : Contents) → Says file.now c
        → numbers.new.items ≡ numbers.old.items ++ representations_of c shape) }
{
    if let Sight::Of(view) = look::<ProductDefinitionShape>(alloc, file, shape)? {
        numbers.extend_from_slice(view.a3.as_slice())?;
    }
    Ok(())
}

/// Those of these representations that are bodies.
fn bodies_among(
    alloc: Global,
    file: &StepFile<'_>,
    representations: &[u32],
) -> Result<BTreeSet<u32>, AllocError>
    ensures { IfOk result (λ bodies. (c : Contents) → Says file.now c → (q : ℕ)
        → contains nat_cmp bodies q
        ≡ (list_any (nat_eq q) representations.now && following.is_body c q)) }
{
    let mut bodies = BTreeSet::new(alloc);
    'numbers: for number in representations {
        let is_body = is_body(alloc, file, *number)?;
        put_if(&mut bodies, *number, is_body)?;
    }
    Ok(bodies)
}

fn put_if(bodies: &mut BTreeSet<u32>, number: u32, passed: bool) -> Result<(), AllocError>
    ensures { OnOk result ((q : ℕ) → contains nat_cmp bodies.new q
        ≡ (contains nat_cmp bodies.old q || (nat_eq q number && passed))) }
{
    if passed {
        put(bodies, number)?;
    }
    Ok(())
}

/// Whether the representation is a body.
fn is_body(alloc: Global, file: &StepFile<'_>, number: u32) -> Result<bool, AllocError>
    ensures { IfOk result (λ is_body. (c : Contents) → Says file.now c
        → is_body ≡ following.is_body c number) }
{
    match look::<ShapeRepresentation>(alloc, file, number)? {
        Sight::Of(view) => Ok(is_called_body(&view.a2)),
        _ => Ok(false),
    }
}

fn is_called_body(identifier: &Option<Text>) -> bool
    ensures { result ≡ option_map_or (bytes_eq (codes "Body")) identifier.now false }
{
    match identifier {
        Some(text) => b"Body".as_slice() == text.bytes(),
        None => false,
    }
}
