//! The relation of a boundary to its space and to an element.

ghost use Rattle.std.specs.Prelude.{◌≡◌, ◌++◌, OnOk, is_some};
ghost use Rattle.sb_texts.specs.Pieces.{piece_text};
ghost use Rattle.sb_model.specs.Building.{is_opening};
ghost use Rattle.sb_ifc_out.specs.Lines.{line, relation_body, reference_or_null};
ghost use Rattle.sb_ifc_out.specs.Steps.{told_by};
ghost use Rattle.sb_ifc_out.specs.BoundaryLines.{type_text, physical_text, outside_text, is_opening_key};

use crate::lines::append_line;
use sb_list::Text;
use sb_model::{End, Model};
use sb_texts::Piece;
use std::alloc::AllocError;

/// What a relation says.
#[derive(Clone, Copy)]
pub struct Relation<'a> {
    pub identifier: &'a [u8],
    pub type_name: &'a [u8],
    pub space: u64,
    pub element: u64,
    pub connection: u64,
    pub physical: &'a [u8],
    pub outside: &'a [u8],
    /// The line of the parent's relation.
    pub parent: Option<u64>,
    /// The line of the counterpart's relation.
    pub pair: Option<u64>,
}

/// Appends a relation.
#[tactic(auto, unfolding(crate::specs::Lines::relation_body))]
pub fn append_relation(text: &mut Text, n: u64, told: &Relation) -> Result<(), AllocError>
    ensures { OnOk result (text.new ≡ text.old ++ line n (relation_body (told_by told.now))) }
{
    append_line(
        text,
        n,
        &[
            Piece::Bytes(b"IFCRELSPACEBOUNDARY2NDLEVEL('"),
            Piece::Bytes(told.identifier),
            Piece::Bytes(b"',$,'2ndLevel','"),
            Piece::Bytes(told.type_name),
            Piece::Bytes(b"',"),
            Piece::Reference(told.space),
            Piece::Bytes(b","),
            Piece::Reference(told.element),
            Piece::Bytes(b","),
            Piece::Reference(told.connection),
            Piece::Bytes(b",."),
            Piece::Bytes(told.physical),
            Piece::Bytes(b".,."),
            Piece::Bytes(told.outside),
            Piece::Bytes(b".,"),
            reference_or_null(told.parent),
            Piece::Bytes(b","),
            reference_or_null(told.pair),
            Piece::Bytes(b")"),
        ],
    )
}

/// The number of an instance, or nothing.
fn reference_or_null(number: Option<u64>) -> Piece<'static>
    ensures { piece_text result ≡ reference_or_null number }
{
    match number {
        Some(number) => Piece::Reference(number),
        None => Piece::Bytes(b"$"),
    }
}

/// The type by what is met: 2b where it is an element that is not passed.
pub fn type_name(end: End) -> &'static [u8]
    ensures { result.now ≡ type_text end }
{
    match end {
        End::Solid(_) => b"2b",
        End::Space(_) | End::Outside | End::Earth => b"2a",
    }
}

/// What lies behind.
pub fn outside_name(end: End) -> &'static [u8]
    ensures { result.now ≡ outside_text end }
{
    match end {
        End::Outside => b"EXTERNAL",
        End::Earth => b"EXTERNAL_EARTH",
        End::Space(_) | End::Solid(_) => b"INTERNAL",
    }
}

/// Whether there is an element to touch: none of a virtual one, nor where the key is an opening.
pub fn physical_name(is_open: bool, element: Option<u32>) -> &'static [u8]
    ensures { result.now ≡ physical_text is_open element }
{
    match element {
        Some(_) => { if is_open { b"VIRTUAL" } else { b"PHYSICAL" } }
        None => b"VIRTUAL",
    }
}

/// Whether the key of a child is an opening.
#[tactic(auto, using(crate::proofs::FoundIfThere::opening_found))]
pub fn is_opening_key(model: &Model, key: Option<u32>) -> bool
    ensures { result ≡ is_opening_key model.now key }
{
    match key {
        Some(key) => model.opening(key).is_some(),
        None => false,
    }
}
