use crate::views::shown::Show;
use sb_schema::{
    ViewError, lent_cartesian_point_list_2d, lent_polyline, lent_rel_associates_material,
    lent_rel_defines_by_type,
};
use sb_step::{StepFile, index};
use std::alloc::{AllocError, Global};
use std::test::Fail;

const TEXT: &[u8] = b"ISO-10303-21;HEADER;A();ENDSEC;DATA;\
    #1=IFCPOLYLINE((#2,#3,#4));\
    #2=IFCPOLYLINE((#2,3));\
    #3=IFCCARTESIANPOINTLIST2D(((0.,1),(2.,-3.)));\
    #4=IFCCARTESIANPOINTLIST2D(((0.,1),(2.)));\
    #5=IFCRELASSOCIATESMATERIAL('g',$,$,$,(#1,#2),#3);\
    #6=IFCRELDEFINESBYTYPE('g',$,$,$,(#4),#5);\
    ENDSEC;END-ISO-10303-21;";

fn polyline_text(alloc: Global, file: &StepFile<'_>, number: u32) -> Result<Vec<u8>, AllocError> {
    let mut text = Vec::new(alloc);
    match lent_polyline(file, number) {
        Ok(mut curve) => {
            for _ in 0..4 {
                curve.a1.next().show(&mut text)?;
            }
        }
        Err(ViewError::Fields(_)) => text.extend_from_slice(b"fields")?,
        Err(_) => text.extend_from_slice(b"another")?,
    }
    Ok(text)
}

fn points_text(alloc: Global, file: &StepFile<'_>, number: u32) -> Result<Vec<u8>, AllocError> {
    let mut text = Vec::new(alloc);
    match lent_cartesian_point_list_2d(file, number) {
        Ok(mut points) => {
            for _ in 0..3 {
                match points.a1.next() {
                    Some((x, y)) => {
                        text.extend_from_slice(x)?;
                        text.push(b' ')?;
                        text.extend_from_slice(y)?;
                        text.push(b';')?;
                    }
                    None => text.push(b'$')?,
                }
            }
        }
        Err(ViewError::Fields(_)) => text.extend_from_slice(b"fields")?,
        Err(_) => text.extend_from_slice(b"another")?,
    }
    Ok(text)
}

#[test]
fn points_are_gone_over(rt: HostRuntime) -> Result<(), Fail> {
    if let Ok(file) = index(rt.alloc(), TEXT) {
        let rows: [(u32, &[u8]); 3] = [(1, b"#2#3#4$"), (2, b"fields"), (3, b"another")];
        for (number, want) in rows {
            let found = polyline_text(rt.alloc(), &file, number)?;
            assert_eq!(rt; found.as_slice(), want, "polyline {number}");
        }
        let lists: [(u32, &[u8]); 3] = [(3, b"0. 1;2. -3.;$"), (4, b"fields"), (5, b"another")];
        for (number, want) in lists {
            let found = points_text(rt.alloc(), &file, number)?;
            assert_eq!(rt; found.as_slice(), want, "list {number}");
        }
    }
    Ok(())
}

#[test]
fn products_are_gone_over(rt: HostRuntime) -> Result<(), Fail> {
    let mut text = Vec::new(rt.alloc());
    if let Ok(file) = index(rt.alloc(), TEXT) {
        if let Ok(mut relation) = lent_rel_associates_material(&file, 5) {
            relation.a5.next().show(&mut text)?;
            relation.a5.next().show(&mut text)?;
            relation.a5.next().show(&mut text)?;
            relation.a6.show(&mut text)?;
        }
        if let Ok(mut relation) = lent_rel_defines_by_type(&file, 6) {
            relation.a5.next().show(&mut text)?;
            relation.a5.next().show(&mut text)?;
            relation.a6.show(&mut text)?;
        }
    }
    assert_eq!(rt;
        text.as_slice(),
        b"#1#2$#3#4$#5".as_slice(),
        "products, and what they are of"
    );
    Ok(())
}
