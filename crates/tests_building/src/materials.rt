// Material instances of each kind, and what elements are made of by them.
use crate::asked::{bytes, layering_told, text_of};
use sb_building::{layering_of, made_of, no_materials};
use sb_fraction::Unit;
use sb_model::{Axis, Prism, Turn};
use sb_step::{StepFile, index};
use std::alloc::{AllocError, Global};
use std::test::Fail;
use tests_layers::plain_wall;

/// Three layers with the axes and senses of usages, a slab of the same, and what just is read of layers, or
/// just is not. Lengths are in millimetres.
const WALLS: &[u8] = b"#31=IFCMATERIAL('Plaster',$,$);#32=IFCMATERIAL('Brick',$,$);\
#33=IFCMATERIAL('Gypsum',$,$);#34=IFCMATERIALLAYER(#31,12.5,$,$,$,$,$);\
#35=IFCMATERIALLAYER(#32,75.,$,$,$,$,$);#36=IFCMATERIALLAYER(#33,12.5,$,$,$,$,$);\
#37=IFCMATERIALLAYERSET((#34,#35,#36),$,$);\
#38=IFCMATERIALLAYERSETUSAGE(#37,.AXIS1.,.POSITIVE.,0.,$);\
#39=IFCMATERIALLAYERSETUSAGE(#37,.AXIS1.,.NEGATIVE.,0.,$);\
#40=IFCMATERIALLAYERSETUSAGE(#37,.AXIS2.,.POSITIVE.,0.,$);\
#41=IFCMATERIALLAYERSETUSAGE(#37,.AXIS3.,.NEGATIVE.,0.,$);\
#42=IFCMATERIALLAYERSETUSAGE(#37,.AXIS4.,.POSITIVE.,0.,$);\
#43=IFCMATERIALLAYERSETUSAGE(#37,.AXIS3.,.POSITIV.,0.,$);\
#44=IFCMATERIALLAYERSETUSAGE(#32,.AXIS3.,.POSITIVE.,0.,$);\
#45=IFCMATERIALLAYER(#32,-1.,$,$,$,$,$);#46=IFCMATERIALLAYERSET((#34,#45),$,$);\
#47=IFCMATERIALLAYER($,-0.0004,$,$,$,$,$);#48=IFCMATERIALLAYER(#37,10000.0004,$,$,$,$,$);\
#49=IFCMATERIALLAYERSET((#47,#48,#34),$,$);#50=IFCMATERIALLAYERSET((#47),$,$);\
#51=IFCMATERIALLAYER(#32,10000.0005,$,$,$,$,$);#52=IFCMATERIALLAYERSET((#51),$,$);\
#53=IFCMATERIALLAYERSET((#34,#32),$,$);#54=IFCMATERIALLIST((#32));\
#55=IFCMATERIALLAYER(#32,1.E+99,$,$,$,$,$);#56=IFCMATERIALLAYERSET((#55),$,$);\
#57=IFCMATERIALLAYERSETUSAGE(#50,.AXIS3.,.POSITIVE.,0.,$);\
#58=IFCMATERIALLAYERSETUSAGE(#53,.AXIS3.,.POSITIVE.,0.,$);";

/// A material instance, the keyword of an element, and its layering.
struct Row {
    instance: Option<u32>,
    keyword: &'static [u8],
    layering: &'static [u8],
}

const ROWS: [Row; 24] = [
    Row {
        instance: Some(38),
        keyword: b"IFCWALL",
        layering: b"1 Plaster 12500, 2 Brick 75000, 3 Gypsum 12500, along 1 0 0",
    },
    Row {
        instance: Some(39),
        keyword: b"IFCWALL",
        layering: b"1 Plaster 12500, 2 Brick 75000, 3 Gypsum 12500, along -1 0 0",
    },
    Row {
        instance: Some(40),
        keyword: b"IFCSLAB",
        layering: b"1 Plaster 12500, 2 Brick 75000, 3 Gypsum 12500, along 0 1 0",
    },
    Row {
        instance: Some(41),
        keyword: b"IFCWALL",
        layering: b"1 Plaster 12500, 2 Brick 75000, 3 Gypsum 12500, along 0 0 -1",
    },
    // a set by itself: upwards in what lies, across in what stands
    Row {
        instance: Some(37),
        keyword: b"IFCSLAB",
        layering: b"1 Plaster 12500, 2 Brick 75000, 3 Gypsum 12500, along 0 0 1",
    },
    Row {
        instance: Some(37),
        keyword: b"IFCROOF",
        layering: b"1 Plaster 12500, 2 Brick 75000, 3 Gypsum 12500, along 0 0 1",
    },
    Row {
        instance: Some(37),
        keyword: b"IFCCOVERING",
        layering: b"1 Plaster 12500, 2 Brick 75000, 3 Gypsum 12500, along 0 0 1",
    },
    Row {
        instance: Some(37),
        keyword: b"IFCWALL",
        layering: b"1 Plaster 12500, 2 Brick 75000, 3 Gypsum 12500, along 0 1 0",
    },
    Row {
        instance: Some(37),
        keyword: b"IFCBEAM",
        layering: b"1 Plaster 12500, 2 Brick 75000, 3 Gypsum 12500, along 0 1 0",
    },
    // one material, and nothing that is read: no instance, another keyword, an absent one
    Row {
        instance: Some(32),
        keyword: b"IFCWALL",
        layering: b"all Brick",
    },
    Row {
        instance: None,
        keyword: b"IFCWALL",
        layering: b"plain",
    },
    Row {
        instance: Some(54),
        keyword: b"IFCWALL",
        layering: b"plain",
    },
    Row {
        instance: Some(99),
        keyword: b"IFCWALL",
        layering: b"plain",
    },
    // an axis and a sense that are none, a set that is none, and a member that is no layer
    Row {
        instance: Some(42),
        keyword: b"IFCWALL",
        layering: b"not read",
    },
    Row {
        instance: Some(43),
        keyword: b"IFCWALL",
        layering: b"not read",
    },
    Row {
        instance: Some(44),
        keyword: b"IFCWALL",
        layering: b"not read",
    },
    Row {
        instance: Some(53),
        keyword: b"IFCSLAB",
        layering: b"not read",
    },
    Row {
        instance: Some(58),
        keyword: b"IFCWALL",
        layering: b"not read",
    },
    // thicknesses below 0, above 10 m and out of range
    Row {
        instance: Some(46),
        keyword: b"IFCWALL",
        layering: b"not read",
    },
    Row {
        instance: Some(52),
        keyword: b"IFCWALL",
        layering: b"not read",
    },
    Row {
        instance: Some(56),
        keyword: b"IFCWALL",
        layering: b"not read",
    },
    // one that rounds to 0 is dropped and counts; a layer of no material has no name
    Row {
        instance: Some(49),
        keyword: b"IFCSLAB",
        layering: b"2  10000000, 3 Plaster 12500, along 0 0 1",
    },
    Row {
        instance: Some(50),
        keyword: b"IFCSLAB",
        layering: b"plain",
    },
    Row {
        instance: Some(57),
        keyword: b"IFCWALL",
        layering: b"plain",
    },
];

const UP: Axis = Axis { x: 0, y: 0, z: 1 };

fn no_turn() -> Option<Turn> {
    Turn::new(Axis { x: 1, y: 0, z: 0 }, UP)
}

/// A quarter to the left.
fn to_the_left() -> Option<Turn> {
    Turn::new(Axis { x: 0, y: 1, z: 0 }, UP)
}

/// The layering of an element where that of another was read before.
fn layering_after(
    alloc: Global,
    file: &StepFile<'_>,
    first: Option<u32>,
    row: &Row,
    prism: &Prism,
    turn: Turn,
) -> Result<Vec<u8>, AllocError> {
    let mut known = no_materials(alloc);
    let unit = Unit::Millimetre;
    layering_of(alloc, file, &mut known, first, unit, None, prism, turn)?;
    let layering = layering_of(
        alloc,
        file,
        &mut known,
        row.instance,
        unit,
        Some(row.keyword),
        prism,
        turn,
    )?;
    layering_told(alloc, layering)
}

#[test]
fn each_layering_is_read(rt: HostRuntime) -> Result<(), Fail> {
    let alloc = rt.alloc();
    let input = text_of(alloc, WALLS)?;
    let Ok(file) = index(alloc, &input) else {
        assert!(rt; false, "no text");
        return Ok(());
    };
    let wall = plain_wall(alloc)?;
    let Some(turn) = no_turn() else {
        assert!(rt; false, "no turn");
        return Ok(());
    };
    for (at, row) in ROWS.iter().enumerate() {
        for first in [None, row.instance, Some(38), Some(46)] {
            let told = layering_after(alloc, &file, first, row, &wall.prism, turn)?;
            assert!(rt; told.as_slice() == row.layering, "row {at}");
        }
    }
    Ok(())
}

/// The material of the wall of a file in metres, which is turned by a quarter to the left.
const BRICK: &[u8] = b"#33=IFCMATERIAL('Brick',$,$);#34=IFCMATERIALLAYER(#33,0.1,.F.,$,$,$,$);\
#35=IFCMATERIALLAYERSET((#34),'L',$);#36=IFCMATERIALLAYERSETUSAGE(#35,.AXIS2.,.POSITIVE.,0.,$);";

#[test]
fn a_metre_and_a_turn(rt: HostRuntime) -> Result<(), Fail> {
    let alloc = rt.alloc();
    let input = text_of(alloc, BRICK)?;
    let Ok(file) = index(alloc, &input) else {
        assert!(rt; false, "no text");
        return Ok(());
    };
    let wall = plain_wall(alloc)?;
    let Some(turn) = to_the_left() else {
        assert!(rt; false, "no turn");
        return Ok(());
    };
    let Some(made) = made_of(alloc, &file, Some(36), Unit::Metre)? else {
        assert!(rt; false, "not read");
        return Ok(());
    };
    let layering = made.layering(alloc, Some(b"IFCWALL"), &wall.prism, turn)?;
    let told = layering_told(alloc, Some(layering))?;
    let wanted: &[u8] = b"1 Brick 100000, along -1 0 0";
    assert!(rt; told.as_slice() == wanted, "as the wall is turned");
    Ok(())
}

/// A set of so many layers of thickness 0, and what is read of it.
fn told_of_many(alloc: Global, members: usize) -> Result<bool, AllocError> {
    let mut text = bytes(
        alloc,
        b"#2=IFCMATERIALLAYER($,0.,$,$,$,$,$);#1=IFCMATERIALLAYERSET((#2",
    )?;
    for _ in 1..members {
        text.extend_from_slice(b",#2")?;
    }
    text.extend_from_slice(b"),$,$);")?;
    let input = text_of(alloc, text.as_slice())?;
    match index(alloc, &input) {
        Ok(file) => Ok(made_of(alloc, &file, Some(1), Unit::Metre)?.is_some()),
        Err(_) => Err(AllocError),
    }
}

#[test]
fn sixty_four_layers(rt: HostRuntime) -> Result<(), Fail> {
    let alloc = rt.alloc();
    assert!(rt; told_of_many(alloc, 64)?, "64 are read");
    assert!(rt; !told_of_many(alloc, 65)?, "65 are not");
    Ok(())
}
