//! The strings of the report.

ghost use Rattle.std.specs.Prelude.{◌≡◌, IfOk, string_bytes};
ghost use Rattle.sb_report.specs.Strings.{fraction_text, material_text, face_name, end_name};

use sb_fraction::Fraction;
use sb_model::{End, FaceKind};
use std::alloc::{AllocError, Global};

/// A fraction: its numerator, and `/` and the denominator where this is not 1.
pub fn written_fraction(alloc: Global, fraction: &Fraction) -> Result<String, AllocError>
    ensures { IfOk result (λ text. string_bytes text ≡ fraction_text fraction.now) }
{
    let num = fraction.num();
    let den = fraction.den();
    if den == 1 {
        format!(in alloc; "{num}")
    } else {
        format!(in alloc; "{num}/{den}")
    }
}

/// A material's name, in which each byte has become the character of that number.
#[tactic(auto, using(crate::proofs::CharactersOfMore::characters_of_more))]
pub fn written_material(alloc: Global, name: &[u8]) -> Result<String, AllocError>
    ensures { IfOk result (λ text. string_bytes text ≡ material_text name.now) }
{
    let mut text = String::new(alloc);
    for byte in name {
        text.push(*byte as char)?;
    }
    Ok(text)
}

/// The name of a kind of face.
pub fn name_of_face(kind: FaceKind) -> &'static str
    ensures { result.now ≡ face_name kind }
{
    match kind {
        FaceKind::Bottom => "bottom",
        FaceKind::Top => "top",
        FaceKind::Side(_) => "side",
    }
}

/// The name of a kind of end.
pub fn name_of_end(end: End) -> &'static str
    ensures { result.now ≡ end_name end }
{
    match end {
        End::Space(_) => "space",
        End::Outside => "outside",
        End::Earth => "earth",
        End::Solid(_) => "solid",
    }
}
