// What stands behind the boxes.
ghost use Rattle.std.specs.Prelude.{◌≡◌, ◌≤◌, ◌<◌, ◌^◌, ◌+◌, ◌++◌, IfOk, OnOk, map};
ghost use Rattle.std.specs.List.{range_with_len};
ghost use Rattle.sb_demo.specs.Numbering.{most_rooms, product_number};
ghost use Rattle.sb_demo.specs.Relations.{window_text, filled_text, association_text, products};

use crate::blocks::opening_place;
use crate::numbering::{FIRST_FILLING, FIRST_VOID, FIRST_WINDOW, GLOBAL_ID_WIDTH, product_number};
use sb_list::{Listed, Text};
use sb_texts::{Piece, append_all};
use std::alloc::{AllocError, Global};

/// The place of the wall that has the openings.
const NEAR_WALL: u32 = 2;

/// Appends the window of room `i` of `n`.
pub fn append_window(text: &mut Text, n: u32, i: u32) -> Result<(), AllocError>
    requires rooms { n ≤ most_rooms }
    requires within { i < n }
    ensures { OnOk result (text.new ≡ text.old ++ window_text n i) }
{
    let wall = product_number(NEAR_WALL);
    let hole = product_number(opening_place(n, i));
    append_filled(text, u64::from(i), wall, hole)
}

/// Appends window `i`, which fills this hole in this wall.
#[tactic(auto, unfolding(crate::specs::Relations::filled_text))]
fn append_filled(text: &mut Text, i: u64, wall: u64, hole: u64) -> Result<(), AllocError>
    requires { i ≤ most_rooms }
    ensures { OnOk result (text.new ≡ text.old ++ filled_text i wall hole) }
{
    append_all(
        text,
        &[
            Piece::Reference(FIRST_WINDOW + i),
            Piece::Bytes(b"=IFCWINDOW('"),
            Piece::Padded(FIRST_WINDOW + i, GLOBAL_ID_WIDTH),
            Piece::Bytes(b"',$,$,$,$,$,$,$,$,$,$,$,$);\n"),
            Piece::Reference(FIRST_VOID + i),
            Piece::Bytes(b"=IFCRELVOIDSELEMENT('"),
            Piece::Padded(FIRST_VOID + i, GLOBAL_ID_WIDTH),
            Piece::Bytes(b"',$,$,$,"),
            Piece::Reference(wall),
            Piece::Bytes(b","),
            Piece::Reference(hole),
            Piece::Bytes(b");\n"),
            Piece::Reference(FIRST_FILLING + i),
            Piece::Bytes(b"=IFCRELFILLSELEMENT('"),
            Piece::Padded(FIRST_FILLING + i, GLOBAL_ID_WIDTH),
            Piece::Bytes(b"',$,$,$,"),
            Piece::Reference(hole),
            Piece::Bytes(b","),
            Piece::Reference(FIRST_WINDOW + i),
            Piece::Bytes(b");\n"),
        ],
    )
}

/// Appends that these products are of this material.
#[tactic(auto, unfolding(crate::specs::Relations::association_text))]
pub fn append_association(
    text: &mut Text,
    number: u64,
    products: &[u64],
    material: u64,
) -> Result<(), AllocError>
    ensures { OnOk result (text.new ≡ text.old ++ association_text number products.now material) }
{
    append_all(
        text,
        &[
            Piece::Reference(number),
            Piece::Bytes(b"=IFCRELASSOCIATESMATERIAL('"),
            Piece::Padded(number, GLOBAL_ID_WIDTH),
            Piece::Bytes(b"',$,$,$,("),
            Piece::References(products),
            Piece::Bytes(b"),"),
            Piece::Reference(material),
            Piece::Bytes(b");\n"),
        ],
    )
}

/// The products of so many blocks, from this place on.
pub fn products(alloc: Global, place: u32, count: u32) -> Result<Listed<u64>, AllocError>
    requires { place + count < 2 ^ 32 }
    ensures { IfOk result (λ list. list ≡ products place count) }
{
    let mut products = Listed::new(alloc);
    for i in 0..count {
        products.push(product_number(place + i))?;
    }
    Ok(products)
}
