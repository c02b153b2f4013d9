//! The lines of single instances.

ghost use Rattle.std.specs.Prelude.{◌≡◌, ◌++◌, Some, length, OnOk, OnErr};
ghost use Rattle.std.specs.List.{flat_map, range_with_len};
ghost use Rattle.sb_fraction.specs.Spots.{vector};
ghost use Rattle.sb_texts.specs.Pieces.{piece_text};
ghost use Rattle.sb_ifc_out.specs.Lines.{line, loop_body, bound_body, direction_body, placement_body};
ghost use Rattle.sb_ifc_out.specs.Lines.{plane_body, face_body, connection_body, virtual_body, point_body};

use sb_list::Text;
use sb_texts::{Piece, append, append_all, append_reference};
use std::alloc::AllocError;

/// Appends an instance on a line of its own.
#[tactic(auto, unfolding(crate::specs::Lines::line))]
pub fn append_line(text: &mut Text, n: u64, body: &[Piece]) -> Result<(), AllocError>
    ensures { OnOk result (text.new ≡ text.old ++ line n (flat_map piece_text body.now)) }
{
    append_reference(text, n)?;
    append(text, b"=")?;
    append_all(text, body)?;
    append(text, b";\n")
}

/// Appends a point of three coordinates as they are printed.
#[tactic(auto, unfolding(crate::specs::Lines::point_body))]
pub fn append_point<'a>(
    text: &mut Text,
    n: u64,
    x: &'a [u8],
    y: &'a [u8],
    z: &'a [u8],
) -> Result<(), AllocError>
    ensures { OnOk result (text.new ≡ text.old ++ line n (point_body x.now y.now z.now)) }
{
    append_line(
        text,
        n,
        &[
            Piece::Bytes(b"IFCCARTESIANPOINT(("),
            Piece::Bytes(x),
            Piece::Bytes(b","),
            Piece::Bytes(y),
            Piece::Bytes(b","),
            Piece::Bytes(z),
            Piece::Bytes(b"))"),
        ],
    )
}

/// Appends a loop through these points.
#[tactic(auto, unfolding(crate::specs::Lines::loop_body))]
pub fn append_loop(text: &mut Text, n: u64, points: &[u64]) -> Result<(), AllocError>
    ensures { OnOk result (text.new ≡ text.old ++ line n (loop_body points.now)) }
{
    append_line(
        text,
        n,
        &[
            Piece::Bytes(b"IFCPOLYLOOP(("),
            Piece::References(points),
            Piece::Bytes(b"))"),
        ],
    )
}

/// Appends the outer bound that this loop is.
#[tactic(auto, unfolding(crate::specs::Lines::bound_body))]
pub fn append_bound(text: &mut Text, n: u64, loop_at: u64) -> Result<(), AllocError>
    ensures { OnOk result (text.new ≡ text.old ++ line n (bound_body loop_at)) }
{
    append_line(
        text,
        n,
        &[
            Piece::Bytes(b"IFCFACEOUTERBOUND("),
            Piece::Reference(loop_at),
            Piece::Bytes(b",.T.)"),
        ],
    )
}

/// Appends a direction of these whole ratios.
#[tactic(auto, unfolding(crate::specs::Lines::direction_body))]
pub fn append_direction(text: &mut Text, n: u64, x: i64, y: i64, z: i64) -> Result<(), AllocError>
    ensures { OnOk result (text.new ≡ text.old ++ line n (direction_body (vector x y z))) }
{
    append_line(
        text,
        n,
        &[
            Piece::Bytes(b"IFCDIRECTION(("),
            Piece::Whole(x),
            Piece::Bytes(b","),
            Piece::Whole(y),
            Piece::Bytes(b","),
            Piece::Whole(z),
            Piece::Bytes(b"))"),
        ],
    )
}

/// Appends a placement at a point, with its axis and its reference direction.
#[tactic(auto, unfolding(crate::specs::Lines::placement_body))]
pub fn append_placement(
    text: &mut Text,
    n: u64,
    point: u64,
    axis: u64,
    across: u64,
) -> Result<(), AllocError>
    ensures { OnOk result (text.new ≡ text.old ++ line n (placement_body point axis across)) }
{
    append_line(
        text,
        n,
        &[
            Piece::Bytes(b"IFCAXIS2PLACEMENT3D("),
            Piece::Reference(point),
            Piece::Bytes(b","),
            Piece::Reference(axis),
            Piece::Bytes(b","),
            Piece::Reference(across),
            Piece::Bytes(b")"),
        ],
    )
}

/// Appends the plane of a placement.
#[tactic(auto, unfolding(crate::specs::Lines::plane_body))]
pub fn append_plane(text: &mut Text, n: u64, placement: u64) -> Result<(), AllocError>
    ensures { OnOk result (text.new ≡ text.old ++ line n (plane_body placement)) }
{
    append_line(
        text,
        n,
        &[
            Piece::Bytes(b"IFCPLANE("),
            Piece::Reference(placement),
            Piece::Bytes(b")"),
        ],
    )
}

/// Appends the face of a bound in a plane.
#[tactic(auto, unfolding(crate::specs::Lines::face_body))]
pub fn append_face(text: &mut Text, n: u64, bound: u64, plane: u64) -> Result<(), AllocError>
    ensures { OnOk result (text.new ≡ text.old ++ line n (face_body bound plane)) }
{
    append_line(
        text,
        n,
        &[
            Piece::Bytes(b"IFCFACESURFACE(("),
            Piece::Reference(bound),
            Piece::Bytes(b"),"),
            Piece::Reference(plane),
            Piece::Bytes(b",.T.)"),
        ],
    )
}

/// Appends the connection that a surface is.
#[tactic(auto, unfolding(crate::specs::Lines::connection_body))]
pub fn append_connection(text: &mut Text, n: u64, surface: u64) -> Result<(), AllocError>
    ensures { OnOk result (text.new ≡ text.old ++ line n (connection_body surface)) }
{
    append_line(
        text,
        n,
        &[
            Piece::Bytes(b"IFCCONNECTIONSURFACEGEOMETRY("),
            Piece::Reference(surface),
            Piece::Bytes(b",$)"),
        ],
    )
}

/// Appends a virtual element with this identifier.
#[tactic(auto, unfolding(crate::specs::Lines::virtual_body))]
pub fn append_virtual(text: &mut Text, n: u64, identifier: &[u8]) -> Result<(), AllocError>
    ensures { OnOk result (text.new ≡ text.old ++ line n (virtual_body identifier.now)) }
{
    append_line(
        text,
        n,
        &[
            Piece::Bytes(b"IFCVIRTUALELEMENT('"),
            Piece::Bytes(identifier),
            Piece::Bytes(b"',$,$,$,$,$,$,$)"),
        ],
    )
}
