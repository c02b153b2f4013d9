// The whole text.
ghost use Rattle.std.specs.Prelude.{◌≡◌, ◌≤◌, ◌<◌, ◌++◌, ◌↔◌, ◌⊎◌, IfOk, OnOk, IsErrOf};
ghost use Rattle.std.specs.List.{flat_map, range_with_len};
ghost use Rattle.sb_demo.specs.Numbering.{most_rooms};
ghost use Rattle.sb_demo.specs.Blocks.{blocks};
ghost use Rattle.sb_demo.specs.BlockTexts.{block_text};
ghost use Rattle.sb_demo.specs.Relations.{window_text, concrete_text, layered_text};
ghost use Rattle.sb_demo.specs.Demo.{head, ending, demo_of};

use crate::block_texts::append_block;
use crate::blocks::{Block, blocks};
use crate::error::DemoError;
use crate::numbering::{FIRST_ASSOCIATION, MOST_ROOMS};
use crate::relations::{append_association, append_window, products};
use sb_list::Text;
use sb_texts::append;
use std::alloc::{AllocError, Global};

/// The material concrete.
const CONCRETE: u64 = 8;

/// The layers of concrete with plaster on both sides.
const LAYERED: u64 = 13;

/// The generated model of a row of `n` rooms, as an exchange text.
///
/// - `Err(BadNumber)`: exactly where `n` is not from 1 to 40. Tried first.
/// - `Err(NoMemory)`: there was no memory.
///
/// The model is this project's own. It is no whole IFC project.
pub fn demo_text(alloc: Global, n: u32) -> Result<Text, DemoError>
    ensures text { IfOk result (λ text. text ≡ demo_of n) }
    ensures bad_number { IsErrOf result DemoError.BadNumber ↔ ((n < 1) ⊎ (most_rooms < n)) }
{
    if n < 1 || MOST_ROOMS < n {
        return Err(DemoError::BadNumber);
    }
    match text_of(alloc, n) {
        Ok(text) => Ok(text),
        Err(AllocError) => Err(DemoError::NoMemory),
    }
}

/// The text of a row of `n` rooms.
#[tactic(auto, unfolding(crate::specs::Demo::demo_of))]
fn text_of(alloc: Global, n: u32) -> Result<Text, AllocError>
    requires { n ≤ most_rooms }
    ensures { IfOk result (λ text. text ≡ demo_of n) }
{
    let blocks = blocks(alloc, n)?;
    let mut text = Text::of(alloc, head())?;
    append_blocks(&mut text, blocks.as_slice())?;
    append_windows(&mut text, n)?;
    append_concrete(alloc, &mut text)?;
    append_layered(alloc, &mut text, n)?;
    append(&mut text, ending())?;
    Ok(text)
}

fn append_blocks(text: &mut Text, blocks: &[Block]) -> Result<(), AllocError>
    ensures { OnOk result (text.new ≡ text.old ++ flat_map block_text blocks.now) }
{
    for block in blocks {
        append_block(text, block)?;
    }
    Ok(())
}

fn append_windows(text: &mut Text, n: u32) -> Result<(), AllocError>
    requires { n ≤ most_rooms }
    ensures { OnOk result (text.new ≡ text.old ++ flat_map (window_text n) (range_with_len 0 n)) }
{
    for i in 0..n {
        append_window(text, n, i)?;
    }
    Ok(())
}

/// Appends that the slabs and the long walls are of concrete.
fn append_concrete(alloc: Global, text: &mut Text) -> Result<(), AllocError>
    ensures { OnOk result (text.new ≡ text.old ++ concrete_text) }
{
    let products = products(alloc, 0, 4)?;
    append_association(text, FIRST_ASSOCIATION, products.as_slice(), CONCRETE)
}

/// Appends that the walls across have layers.
fn append_layered(alloc: Global, text: &mut Text, n: u32) -> Result<(), AllocError>
    requires { n ≤ most_rooms }
    ensures { OnOk result (text.new ≡ text.old ++ layered_text n) }
{
    let products = products(alloc, 4, n + 1)?;
    append_association(text, FIRST_ASSOCIATION + 1, products.as_slice(), LAYERED)
}

#[tactic(auto, unfolding(crate::specs::Demo::head))]
fn head() -> &'static [u8]
    ensures { result.now ≡ head }
{
    b"ISO-10303-21;\nHEADER;\nFILE_SCHEMA(('IFC4'));\nENDSEC;\nDATA;\n\
#1=IFCSIUNIT(*,.LENGTHUNIT.,.MILLI.,.METRE.);\n\
#2=IFCUNITASSIGNMENT((#1));\n\
#3=IFCCARTESIANPOINT((0.,0.,0.));\n\
#4=IFCAXIS2PLACEMENT3D(#3,$,$);\n\
#5=IFCLOCALPLACEMENT($,#4);\n\
#6=IFCBUILDING('0000000000000000000006',$,$,$,$,#5,$,$,$,$,$,$);\n\
#7=IFCDIRECTION((0.,0.,1.));\n\
#8=IFCMATERIAL('Concrete',$,$);\n\
#9=IFCMATERIAL('Plaster',$,$);\n\
#10=IFCMATERIALLAYER(#9,12.5,$,$,$,$,$);\n\
#11=IFCMATERIALLAYER(#8,175.,$,$,$,$,$);\n\
#12=IFCMATERIALLAYERSET((#10,#11,#10),$,$);\n\
#13=IFCMATERIALLAYERSETUSAGE(#12,.AXIS1.,.POSITIVE.,0.,$);\n\
#14=IFCGEOMETRICREPRESENTATIONCONTEXT($,'Model',3,1.E-05,#4,$);\n"
}

fn ending() -> &'static [u8]
    ensures { result.now ≡ ending }
{
    b"ENDSEC;\nEND-ISO-10303-21;\n"
}
