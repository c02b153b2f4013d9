//! The coordinates of corners, as fields of an object.

ghost use Rattle.std.specs.Prelude.{◌≡◌, ◌++◌, Some, codes, IfOk, OnOk};
ghost use Rattle.sb_idf_out.specs.Fields.{fields_text, corner_fields as fields_of, coordinate, coordinates};

use sb_fixed::{print_scaled, round_micro};
use sb_fraction::Fraction;
use sb_model::{Corner, Corners};
use std::alloc::{AllocError, Global};

/// How many corners there are, and the coordinates of each in metres, each behind a comma.
pub(crate) fn corner_fields(alloc: Global, corners: &Corners) -> Result<Vec<u8>, AllocError>
    ensures { IfOk result (λ text. text.items ≡ fields_text (fields_of (Some corners.now))) }
{
    let mut text = Vec::new(alloc);
    match corners {
        Corners::Three(a, b, c) => {
            text.extend_from_slice(b",3")?;
            append_corner(&mut text, a)?;
            append_corner(&mut text, b)?;
            append_corner(&mut text, c)?;
        }
        Corners::Four(a, b, c, d) => {
            text.extend_from_slice(b",4")?;
            append_corner(&mut text, a)?;
            append_corner(&mut text, b)?;
            append_corner(&mut text, c)?;
            append_corner(&mut text, d)?;
        }
    }
    Ok(text)
}

/// Appends the coordinates of a corner, each behind a comma.
fn append_corner(text: &mut Vec<u8>, corner: &Corner) -> Result<(), AllocError>
    ensures { OnOk result (text.new.items ≡ text.old.items ++ fields_text (coordinates corner.now)) }
{
    append_coordinate(text, &corner.x)?;
    append_coordinate(text, &corner.y)?;
    append_coordinate(text, &corner.z)
}

/// Appends a coordinate in metres behind a comma.
fn append_coordinate(text: &mut Vec<u8>, f: &Fraction) -> Result<(), AllocError>
    ensures { OnOk result (text.new.items ≡ text.old.items ++ (codes "," ++ coordinate f.now)) }
{
    text.extend_from_slice(b",")?;
    print_scaled(text, round_micro(f), 6)
}
