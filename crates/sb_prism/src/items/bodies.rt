// The first Body of a shape, as it is read.
ghost use Rattle.std.specs.Prelude.{◌≡◌, ◌++◌, List, [], ◌∷◌, IfOk};
ghost use Rattle.sb_place.specs.declared.sight.Seen.{Seen as SeenOf};
ghost use Rattle.sb_prism.specs.Shapes as shapes;
ghost use Rattle.sb_prism.specs.Kept as spec;

use crate::faults::Faults;
use crate::items::body::Body;
use crate::reading::representation_at;
use sb_list::Text;
use sb_place::Seen;
use sb_schema::{References, ShapeRepresentation};
use sb_step::StepFile;
use std::alloc::{AllocError, Global};

/// The first Body among the representations of these numbers.
pub(crate) fn body_among(
    alloc: Global,
    file: &StepFile<'_>,
    numbers: &[u32],
) -> Result<Body, AllocError>
    ensures { IfOk result (λ body. (rs : List (SeenOf shapes.Representation))
        × shapes.AreEach (shapes.IsRepresentation file.now) numbers.now rs × (body ≡ spec.body_of rs)) }
{
    let mut body = Body {
        faults: Faults::none(),
        items: None,
    };
    'numbers: for number in numbers {
        let next = representation_at(alloc, file, *number)?;
        body = with_next(body, next);
    }
    Ok(body)
}

/// What is kept with one representation more.
fn with_next(body: Body, next: Seen<ShapeRepresentation>) -> Body
    ensures { (rs : List (SeenOf shapes.Representation)) → body ≡ spec.body_of rs
        → result ≡ spec.body_of (rs ++ next ∷ []) }
{
    let Body { faults, items } = body;
    let next_faults = representation_faults(&next);
    Body {
        faults: faults.and(next_faults),
        items: first_items(items, next),
    }
}

/// What is at fault with a representation: one of another entity is passed over.
fn representation_faults(next: &Seen<ShapeRepresentation>) -> Faults
    ensures { result ≡ spec.representation_faults next.now }
{
    Faults {
        broken: next.broken(),
        absent: next.absent(),
        turned: false,
        stray: false,
        far: false,
    }
}

/// The items of the first Body, or else of this representation, if it is one.
fn first_items(items: Option<References>, next: Seen<ShapeRepresentation>) -> Option<References>
    ensures { result ≡ spec.items_or items (shapes.first_body (next ∷ [])) }
{
    match items {
        Some(items) => Some(items),
        None => body_items(next),
    }
}

/// The items of a representation, if it is a Body.
fn body_items(next: Seen<ShapeRepresentation>) -> Option<References>
    ensures { result ≡ shapes.first_body (next ∷ []) }
{
    match next {
        Seen::Shown(representation) => {
            let ShapeRepresentation { a2, a4 } = representation;
            if is_named_body(&a2) { Some(a4) } else { None }
        }
        _ => None,
    }
}

fn is_named_body(identifier: &Option<Text>) -> bool
    ensures { result ≡ shapes.is_named_body identifier.now }
{
    match identifier {
        Some(name) => name.bytes() == b"Body".as_slice(),
        None => false,
    }
}
