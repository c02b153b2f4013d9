// The matcher of the first form: one pass over the bytes.
ghost use Rattle.std.specs.Prelude.{◌≡◌, ◌≢◌, ◌<◌, ◌≤◌, ◌++◌, ◌∷◌, List, ℕ, ℤ, IfSome, IfNone};
ghost use Rattle.sb_form.specs.Numbers.{IsShort, number_text};
ghost use Rattle.sb_form.specs.FirstForm.{before_place, before_sizes, before_height, behind_height, comma, IsFormOf};
ghost use Rattle.sb_form.specs.ThreeNumbers.{AreThree};
ghost use Rattle.sb_form.specs.declared.matcher.FirstForm.{FirstForm};

use crate::number::{behind, number};

/// The six numbers of the first form, in whole millimetres (mm).
///
/// The space stands on a rectangle of `size_x` by `size_y` about (`x`, `y`), and goes from `z` up by
/// `height`.
#[derive(Clone, Copy)]
pub struct FirstForm {
    pub x: i32,
    pub y: i32,
    pub z: i32,
    pub size_x: i32,
    pub size_y: i32,
    pub height: i32,
}

/// The six numbers of an input of the first form.
///
/// - `Some(form)`: the bytes are the text with these numbers. There is never a second such form.
/// - `None`: exactly where the bytes are not the text with any six numbers.
///
/// The text is this project's own; its lines are instances of ISO 16739.
pub fn first_form(bytes: &[u8]) -> Option<FirstForm>
    ensures found { IfSome result (λ form. IsFormOf form bytes.now) }
    ensures sole { IfSome result (λ form. (other : FirstForm) → IsFormOf other bytes.now → other ≡ form) }
    ensures none { IfNone result ((form : FirstForm) → IsFormOf form bytes.now → ⊥) }
{
    let (x, y, z, rest) = three_behind(place_opening(), b",", b",", bytes)?;
    let (size_x, size_y, height, rest) = three_behind(
        sizes_opening(),
        b",",
        height_opening(),
        rest,
    )?;
    if rest == closing() {
        Some(FirstForm {
            x,
            y,
            z,
            size_x,
            size_y,
            height,
        })
    } else {
        None
    }
}

/// Three numbers, each behind an opening of its own, and what stands behind them.
fn three_behind<'a>(
    first: &[u8],
    second: &[u8],
    third: &[u8],
    bytes: &'a [u8],
) -> Option<(i32, i32, i32, &'a [u8])>
    ensures found { IfSome result (λ p. AreThree first.now second.now third.now p.0 p.1 p.2 p.3.now bytes.now) }
    ensures none { IfNone result ((a b c : ℤ) (rest : List ℕ) → AreThree first.now second.now third.now a b c rest bytes.now → ⊥) }
{
    let (a, rest) = number_behind(first, bytes)?;
    let (b, rest) = number_behind(second, rest)?;
    let (c, rest) = number_behind(third, rest)?;
    Some((a, b, c, rest))
}

/// The number that follows the opening at the front of the bytes, and what stands behind it.
fn number_behind<'a>(opening: &[u8], bytes: &'a [u8]) -> Option<(i32, &'a [u8])>
    ensures found { IfSome result (λ p. IsShort p.0 × (bytes.now ≡ opening.now ++ (number_text p.0 ++ p.1.now))) }
    ensures none { IfNone result ((n : ℤ) (rest : List ℕ) → IsShort n → bytes.now ≢ opening.now ++ (number_text n ++ rest)) }
{
    match behind(opening, bytes) {
        None => None,
        Some(rest) => number(rest),
    }
}

#[tactic(auto, unfolding(crate::specs::FirstForm::before_place))]
fn place_opening() -> &'static [u8]
    ensures { result.now ≡ before_place }
{
    b"ISO-10303-21;\nHEADER;\nFILE_SCHEMA(('IFC4'));\nENDSEC;\nDATA;\n\
#1=IFCSIUNIT(*,.LENGTHUNIT.,.MILLI.,.METRE.);\n\
#2=IFCUNITASSIGNMENT((#1));\n\
#3=IFCBUILDING('0000000000000000000003',$,$,$,$,$,$,$,$,$,$,$);\n\
#10=IFCCARTESIANPOINT(("
}

#[tactic(auto, unfolding(crate::specs::FirstForm::before_sizes))]
fn sizes_opening() -> &'static [u8]
    ensures { result.now ≡ before_sizes }
{
    b"));\n#11=IFCAXIS2PLACEMENT3D(#10,$,$);\n#12=IFCLOCALPLACEMENT($,#11);\n\
#13=IFCRECTANGLEPROFILEDEF(.AREA.,$,$,"
}

#[tactic(auto, unfolding(crate::specs::FirstForm::before_height))]
fn height_opening() -> &'static [u8]
    ensures { result.now ≡ before_height }
{
    b");\n#14=IFCDIRECTION((0.,0.,1.));\n#15=IFCEXTRUDEDAREASOLID(#13,$,#14,"
}

#[tactic(auto, unfolding(crate::specs::FirstForm::behind_height))]
fn closing() -> &'static [u8]
    ensures { result.now ≡ behind_height }
{
    b");\n#16=IFCSHAPEREPRESENTATION($,'Body',$,(#15));\n\
#17=IFCPRODUCTDEFINITIONSHAPE($,$,(#16));\n\
#20=IFCSPACE('0000000000000000000020',$,$,$,$,#12,#17,$,$,$,$);\n\
ENDSEC;\nEND-ISO-10303-21;\n"
}
