//! The corners of a boundary, in millimetres (mm).

ghost use Rattle.std.specs.Prelude.{◌≡◌, IfOk, Some};
ghost use Rattle.serde_json.specs.View.{view};
ghost use Rattle.sb_report.specs.Entries.{corner_data, corners_data};

use crate::strings::written_fraction;
use sb_model::{Corner, Corners};
use serde_json::{Value, json};
use std::alloc::{AllocError, Global};

/// A corner: its three coordinates.
fn corner_value(alloc: Global, corner: &Corner) -> Result<Value, AllocError>
    ensures { IfOk result (λ v. view v ≡ corner_data corner.now) }
{
    let x = written_fraction(alloc, &corner.x)?;
    let y = written_fraction(alloc, &corner.y)?;
    let z = written_fraction(alloc, &corner.z)?;
    json!(in alloc; [x, y, z])
}

/// The three or four corners of a patch, in order.
pub fn corners_value(alloc: Global, corners: &Corners) -> Result<Value, AllocError>
    ensures { IfOk result (λ v. view v ≡ corners_data (Some corners.now)) }
{
    match corners {
        Corners::Three(a, b, c) => {
            let a = corner_value(alloc, a)?;
            let b = corner_value(alloc, b)?;
            let c = corner_value(alloc, c)?;
            json!(in alloc; [a, b, c])
        }
        Corners::Four(a, b, c, d) => {
            let a = corner_value(alloc, a)?;
            let b = corner_value(alloc, b)?;
            let c = corner_value(alloc, c)?;
            let d = corner_value(alloc, d)?;
            json!(in alloc; [a, b, c, d])
        }
    }
}
