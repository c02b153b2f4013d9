// Placements composed from above: what stands on one reads none of them again.
use crate::asked::{answer, is, text_of, told};
use sb_fraction::Unit;
use sb_place::{Placed, placed_on};
use sb_step::index;
use std::test::Fail;

/// A storey #1 turned to the left, and what stands on it with the position #12.
const STOREY: &[u8] = b"#1=IFCLOCALPLACEMENT($,#11);#2=IFCLOCALPLACEMENT(#1,#12);\
#11=IFCAXIS2PLACEMENT3D(#21,$,#30);#12=IFCAXIS2PLACEMENT3D(#22,$,$);\
#13=IFCAXIS2PLACEMENT3D(#23,$,$);#21=IFCCARTESIANPOINT((0.,0.,3.));\
#22=IFCCARTESIANPOINT((5.,1.,0.));#30=IFCDIRECTION((0.,1.,0.));";

#[test]
fn a_storey_is_composed_once(rt: HostRuntime) -> Result<(), Fail> {
    let alloc = rt.alloc();
    let input = text_of(alloc, STOREY)?;
    let Ok(file) = index(alloc, &input) else {
        assert!(rt; false, "no text");
        return Ok(());
    };
    let storey = placed_on(alloc, &file, &Placed::end(true), 11, Unit::Metre)?;
    let wall = placed_on(alloc, &file, &storey, 12, Unit::Metre)?;
    let kept = told(alloc, wall.frame())?;
    assert!(rt;
        is(&kept, b"-2 1 3 by -1000000000 5000000000 3000000000"),
        "a wall"
    );
    let alone = answer(alloc, STOREY, Some(2), None, Unit::Metre)?;
    assert!(rt;
        kept.as_slice() == alone.as_slice(),
        "as it is answered alone"
    );
    // its point #23 is absent
    let lost = placed_on(alloc, &file, &storey, 13, Unit::Metre)?;
    let kept = told(alloc, lost.frame())?;
    assert!(rt; is(&kept, b"Missing 23"), "a position without its point");
    let strayed = placed_on(alloc, &file, &Placed::end(false), 11, Unit::Metre)?;
    let kept = told(alloc, strayed.frame())?;
    assert!(rt; is(&kept, b"Chain"), "on a chain that is broken off");
    Ok(())
}

#[test]
fn what_is_too_far_above_is_not_read(rt: HostRuntime) -> Result<(), Fail> {
    let alloc = rt.alloc();
    let input = text_of(alloc, STOREY)?;
    let Ok(file) = index(alloc, &input) else {
        assert!(rt; false, "no text");
        return Ok(());
    };
    // an absent placement with 63 and with 64 others below it
    let mut placed = Placed::absent(99);
    for _ in 0..63 {
        placed = placed_on(alloc, &file, &placed, 12, Unit::Metre)?;
    }
    let kept = told(alloc, placed.frame())?;
    assert!(rt; is(&kept, b"Missing 99"), "the 64th is read");
    placed = placed_on(alloc, &file, &placed, 12, Unit::Metre)?;
    let kept = told(alloc, placed.frame())?;
    assert!(rt; is(&kept, b"Chain"), "the 65th is not");
    Ok(())
}
