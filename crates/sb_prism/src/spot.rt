// Points in the plane of a profile.
ghost use Rattle.std.specs.Prelude.{◌≡◌, [], ◌∷◌, take, option_copied};
ghost use Rattle.sb_prism.specs.Kept as spec;

use sb_fixed::nanometres;
use sb_fraction::Unit;
use sb_list::Text;
use sb_schema::Texts;
use sb_solid::Spot;

/// The origin.
pub(crate) fn origin() -> Spot
    ensures { result ≡ spec.no_spot }
{
    Spot { x: 0, y: 0, z: 0 }
}

/// The point of these coordinates, of which a third is not read; `None` exactly where one is out of
/// range.
pub(crate) fn spot_of_texts(texts: &Texts, unit: Unit) -> Option<Spot>
    ensures { result ≡ spec.spot_in unit (take 2 texts.now) }
{
    let x = length_where(texts.get(0), unit);
    let y = length_where(texts.get(1), unit);
    spot_from(x, y)
}

/// The point of these two coordinates; `None` exactly where one is out of range.
pub(crate) fn spot_of_pair(x: &[u8], y: &[u8], unit: Unit) -> Option<Spot>
    ensures { result ≡ spec.spot_in unit (x.now ∷ y.now ∷ []) }
{
    let x = length(x, unit);
    let y = length(y, unit);
    spot_from(x, y)
}

fn spot_from(x: Option<i128>, y: Option<i128>) -> Option<Spot>
    ensures { result ≡ spec.spot_from x y }
{
    match (x, y) {
        (Some(x), Some(y)) => Some(Spot { x, y, z: 0 }),
        _ => None,
    }
}

/// A length in nanometres (nm), and 0 where it is left out; `None` exactly where it is out of range.
fn length_where(text: Option<&Text>, unit: Unit) -> Option<i128>
    ensures { result ≡ spec.length_where unit (option_copied text.entry) }
{
    match text {
        Some(text) => length(text.bytes(), unit),
        None => Some(0),
    }
}

/// A length in nanometres (nm); `None` exactly where it is out of range.
pub(crate) fn length(text: &[u8], unit: Unit) -> Option<i128>
    ensures { result ≡ spec.length_in unit text.now }
{
    match nanometres(text, unit) {
        Ok(nm) => Some(nm),
        Err(_) => None,
    }
}
