// The text of one box.
ghost use Rattle.std.specs.Prelude.{◌≡◌, ◌<◌, ◌^◌, ◌++◌, OnOk};
ghost use Rattle.sb_demo.specs.BlockTexts.{block_text, plan_text, solid_text, product_text};
ghost use Rattle.sb_demo.specs.BlockTexts.{keyword, further_parameters};

use crate::blocks::{Block, Class};
use crate::numbering::{GLOBAL_ID_WIDTH, block_number};
use sb_list::Text;
use sb_texts::{Piece, append_all};
use std::alloc::AllocError;

/// Appends the text of a block.
pub fn append_block(text: &mut Text, block: &Block) -> Result<(), AllocError>
    ensures { OnOk result (text.new ≡ text.old ++ block_text block.now) }
{
    let m = block_number(block.place);
    append_plan(text, m, block)?;
    append_solid(text, m, block)?;
    append_product(
        text,
        m,
        keyword(block.class),
        further_parameters(block.class),
    )
}

fn append_plan(text: &mut Text, m: u64, block: &Block) -> Result<(), AllocError>
    requires { m < 2 ^ 63 }
    ensures { OnOk result (text.new ≡ text.old ++ plan_text m block.now) }
{
    append_all(
        text,
        &[
            Piece::Reference(m),
            Piece::Bytes(b"=IFCCARTESIANPOINT(("),
            Piece::Whole(block.x),
            Piece::Bytes(b","),
            Piece::Whole(block.y),
            Piece::Bytes(b"));\n"),
            Piece::Reference(m + 1),
            Piece::Bytes(b"=IFCAXIS2PLACEMENT2D("),
            Piece::Reference(m),
            Piece::Bytes(b",$);\n"),
            Piece::Reference(m + 2),
            Piece::Bytes(b"=IFCRECTANGLEPROFILEDEF(.AREA.,$,"),
            Piece::Reference(m + 1),
            Piece::Bytes(b","),
            Piece::Whole(block.size_x),
            Piece::Bytes(b","),
            Piece::Whole(block.size_y),
            Piece::Bytes(b");\n"),
        ],
    )
}

fn append_solid(text: &mut Text, m: u64, block: &Block) -> Result<(), AllocError>
    requires { m < 2 ^ 63 }
    ensures { OnOk result (text.new ≡ text.old ++ solid_text m block.now) }
{
    append_all(
        text,
        &[
            Piece::Reference(m + 3),
            Piece::Bytes(b"=IFCCARTESIANPOINT((0.,0.,"),
            Piece::Whole(block.base),
            Piece::Bytes(b"));\n"),
            Piece::Reference(m + 4),
            Piece::Bytes(b"=IFCAXIS2PLACEMENT3D("),
            Piece::Reference(m + 3),
            Piece::Bytes(b",$,$);\n"),
            Piece::Reference(m + 5),
            Piece::Bytes(b"=IFCEXTRUDEDAREASOLID("),
            Piece::Reference(m + 2),
            Piece::Bytes(b","),
            Piece::Reference(m + 4),
            Piece::Bytes(b",#7,"),
            Piece::Whole(block.height),
            Piece::Bytes(b");\n"),
        ],
    )
}

#[tactic(auto, unfolding(crate::specs::BlockTexts::product_text))]
fn append_product<'a>(
    text: &mut Text,
    m: u64,
    keyword: &'a [u8],
    further: &'a [u8],
) -> Result<(), AllocError>
    requires { m < 2 ^ 63 }
    ensures { OnOk result (text.new ≡ text.old ++ product_text m keyword.now further.now) }
{
    append_all(
        text,
        &[
            Piece::Reference(m + 6),
            Piece::Bytes(b"=IFCSHAPEREPRESENTATION(#14,'Body','SweptSolid',("),
            Piece::Reference(m + 5),
            Piece::Bytes(b"));\n"),
            Piece::Reference(m + 7),
            Piece::Bytes(b"=IFCPRODUCTDEFINITIONSHAPE($,$,("),
            Piece::Reference(m + 6),
            Piece::Bytes(b"));\n"),
            Piece::Reference(m + 8),
            Piece::Bytes(b"="),
            Piece::Bytes(keyword),
            Piece::Bytes(b"('"),
            Piece::Padded(m + 8, GLOBAL_ID_WIDTH),
            Piece::Bytes(b"',$,$,$,$,#5,"),
            Piece::Reference(m + 7),
            Piece::Bytes(b",$,$"),
            Piece::Bytes(further),
            Piece::Bytes(b");\n"),
        ],
    )
}

/// The keyword of a class.
fn keyword(class: Class) -> &'static [u8]
    ensures { result.now ≡ keyword class }
{
    match class {
        Class::Slab => b"IFCSLAB",
        Class::Wall => b"IFCWALL",
        Class::Space => b"IFCSPACE",
        Class::Opening => b"IFCOPENINGELEMENT",
    }
}

/// The parameters of a product behind its ninth.
fn further_parameters(class: Class) -> &'static [u8]
    ensures { result.now ≡ further_parameters class }
{
    match class {
        Class::Space => b",$,$",
        Class::Slab | Class::Wall | Class::Opening => b"",
    }
}
