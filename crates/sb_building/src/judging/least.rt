// The least of the conditions of products.
ghost use Rattle.std.specs.Prelude.{◌≡◌, ℕ, List, [], ◌∷◌, ◌++◌};
ghost use Rattle.sb_profile.specs.declared.defects.Code.{Code as CodeOf};
ghost use Rattle.sb_building.specs.Steps.Least as spec;

use sb_profile::{Code, Defect};

/// The least of a defect and a further condition: that of the first code, of one code that of the lowest
/// number.
pub(crate) fn least(found: Option<Defect>, number: u32, code: Code) -> Option<Defect>
    ensures { (seen : List (ℕ × CodeOf)) → spec.IsLeastOf seen found
        → spec.IsLeastOf (seen ++ (number, code) ∷ []) result }
{
    match found {
        Some(defect) => Some(lesser(defect, Defect { number, code })),
        None => Some(Defect { number, code }),
    }
}

/// The defect of the earlier code, of one code that of the lower number.
fn lesser(one: Defect, other: Defect) -> Defect
    ensures { result ≡ spec.lesser one other }
{
    let first = rank(one.code);
    let second = rank(other.code);
    if second < first || (second == first && other.number < one.number) {
        other
    } else {
        one
    }
}

/// How many codes come before.
fn rank(code: Code) -> u8
    ensures { result ≡ spec.rank code }
{
    match code {
        Code::Schema => 0,
        Code::Units => 1,
        Code::Building => 2,
        Code::Class => 3,
        Code::Fields => 4,
        Code::Missing => 5,
        Code::Chain => 6,
        Code::Turned => 7,
        Code::Shape => 8,
        Code::Range => 9,
        Code::OffGrid => 10,
        Code::Loops => 11,
        Code::Layers => 12,
    }
}
