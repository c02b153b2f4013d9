// The grid of whole millimetres.
ghost use Rattle.std.specs.Prelude.{◌≡◌, ◌↔◌, ◌≤◌, neg_ℤ, pos, IfOk, Err, true, false, if◌then◌else◌};
ghost use Rattle.sb_solid.specs.Grid as spec;

/// Why a world coordinate is on no whole millimetre.
#[derive(Debug, Clone, Copy, PartialEq)]
pub enum GridError {
    /// It lies more than 500 m and 10 µm from the origin.
    Range,
    /// It is in range and lies more than 10 µm from every whole millimetre.
    OffGrid,
}

/// The whole millimetre (mm) at a world coordinate given in nanometres (nm).
///
/// - `Ok(mm)`: it lies at most 10 µm from `mm`. There is never a second such.
/// - `Err(Range)`: exactly where it lies more than 500 m and 10 µm from the origin. Tried first.
/// - `Err(OffGrid)`: exactly where it is in range and no whole millimetre lies that near.
///
/// The grid is this project's own rule, not one of ISO 16739.
pub fn snap(nm: i128) -> Result<i32, GridError>
    ensures near { IfOk result (λ mm. mm ≡ spec.nearest_millimetre nm) }
    ensures ok { IfOk result (λ _. (spec.is_near nm ≡ true) × (spec.is_in_world nm ≡ true)) }
    ensures range { (result ≡ Err GridError.Range) ↔ (spec.is_in_world nm ≡ false) }
    ensures off_grid { (result ≡ Err GridError.OffGrid)
        ↔ ((spec.is_in_world nm ≡ true) × (spec.is_near nm ≡ false)) }
{
    let size = nm.unsigned_abs();
    if size > 500_000_010_000 {
        return Err(GridError::Range);
    }
    let mm = (size as u64 + 500_000) / 1_000_000;
    if (mm * 1_000_000).abs_diff(size as u64) > 10_000 {
        return Err(GridError::OffGrid);
    }
    Ok(signed(nm < 0, mm as u32))
}

/// The number of this size, below 0 where it is negative.
fn signed(negative: bool, size: u32) -> i32
    requires { size ≤ 500001 }
    ensures { result ≡ if negative then neg_ℤ (pos size) else pos size }
{
    if negative {
        -(size as i32)
    } else {
        size as i32
    }
}

/// Law of the grid: there is never a second whole millimetre near a world coordinate, and none but the
/// nearest.
#[inline(always)]
pub fn one_millimetre()
    ensures { spec.NearIsNearest }
{}
