use crate::views::asked::answer;
use std::test::Fail;

// An instance of each row, in order, with exactly the row's attributes.
const INSTANCES: &[u8] = b"#1=IFCBUILDING('g',$,$,$,$,#7,$,$,.ELEMENT.,$,$,$);\
    #2=IFCSPACE('it''s',$,$,$,$,#7,$,$,.ELEMENT.,.INTERNAL.,$);\
    #3=IFCWALL('g',$,$,$,$,$,#8,$,.STANDARD.);\
    #4=IFCWINDOW('g',$,$,$,$,$,$,$,1.,1.,.WINDOW.,$,$);\
    #5=IFCLOCALPLACEMENT($,#6);\
    #6=IFCAXIS2PLACEMENT3D(#9,$,#8);\
    #7=IFCAXIS2PLACEMENT2D(#9,$);\
    #8=IFCCARTESIANPOINT((0.,-1.5,3));\
    #9=IFCDIRECTION((0.,1.));\
    #10=IFCPRODUCTDEFINITIONSHAPE($,$,(#1,#2));\
    #11=IFCSHAPEREPRESENTATION(#1,'Body',$,(#3));\
    #12=IFCEXTRUDEDAREASOLID(#1,$,#3,2.5);\
    #13=IFCRECTANGLEPROFILEDEF(.AREA.,$,#5,4.,5);\
    #14=IFCARBITRARYCLOSEDPROFILEDEF(.AREA.,$,#6);\
    #15=IFCARBITRARYPROFILEDEFWITHVOIDS(.AREA.,$,#6,(#7));\
    #16=IFCPOLYLINE((#1,#2,#3));\
    #17=IFCINDEXEDPOLYCURVE(#1,(IFCLINEINDEX((1,2)),IFCARCINDEX((2,3,1))),.F.);\
    #18=IFCCARTESIANPOINTLIST2D(((0.,1.),(2.,3)));\
    #19=IFCRELVOIDSELEMENT('g',$,$,$,#1,#2);\
    #20=IFCRELFILLSELEMENT('g',$,$,$,#3,#4);\
    #21=IFCRELASSOCIATESMATERIAL('g',$,$,$,(#1,#2),#3);\
    #22=IFCRELDEFINESBYTYPE('g',$,$,$,(#4),#5);\
    #23=IFCMATERIAL('Brick',$,$);\
    #24=IFCMATERIALLAYER(#1,100.,$,$,$,$,$);\
    #25=IFCMATERIALLAYERSET((#1,#2),$,$);\
    #26=IFCMATERIALLAYERSETUSAGE(#1,.AXIS2.,.POSITIVE.,0.,$);";

// The attributes that are read of each, in order.
const VIEWS: [&[u8]; 26] = [
    b"#7",
    b"(it's) #7 $",
    b"$ #8",
    b"",
    b"$ #6",
    b"#9 $ #8",
    b"#9 $",
    b"((0.)(-1.5)(3))",
    b"((0.)(1.))",
    b"(#1#2)",
    b"(Body) (#3)",
    b"#1 $ #3 (2.5)",
    b"#5 (4.) (5)",
    b"#6",
    b"#6 (#7)",
    b"(#1#2#3)",
    b"#1 ((IFCLINEINDEX)((1)(2))(IFCARCINDEX)((2)(3)(1)))",
    b"(((0.)(1.))((2.)(3)))",
    b"#1 #2",
    b"#3 #4",
    b"(#1#2) #3",
    b"(#4) #5",
    b"(Brick)",
    b"#1 (100.)",
    b"(#1#2)",
    b"#1 (AXIS2) (POSITIVE)",
];

#[test]
fn each_view_on_its_row(rt: HostRuntime) -> Result<(), Fail> {
    let mut row = 0u8;
    for want in VIEWS {
        row = row.saturating_add(1);
        let found = answer(rt.alloc(), INSTANCES, row, row as u32)?;
        assert_eq!(rt; found.as_slice(), want, "row {row}");
    }
    Ok(())
}

// A row, an instance #1, and what the row's view answers of it.
type Case = (u8, &'static [u8], &'static [u8]);

// How many attributes there are, and which keyword.
const COUNTS_AND_KEYWORDS: [Case; 16] = [
    (5, b"#1=IFCLOCALPLACEMENT($);", b"fields #1"),
    (5, b"#1=IFCLOCALPLACEMENT();", b"fields #1"),
    (5, b"#1=IFCLOCALPLACEMENT($,#2,$);", b"$ #2"),
    (
        1,
        b"#1=IFCBUILDING('g',$,$,$,$,#7,$,$,$,$,$);",
        b"fields #1",
    ),
    (1, b"#1=IFCBUILDING(*,0,$,A(1),(),#7,$,$,$,$,$,$,$);", b"#7"),
    (4, b"#1=IFCDOOR(1,2,3,4,5,6,7,8,9,10,11,12);", b"fields #1"),
    (4, b"#1=IFCDOOR(1,2,3,4,5,6,7,8,9,10,11,12,13);", b""),
    (5, b"#1=(IFCLOCALPLACEMENT($,#2));", b"other #1"),
    (5, b"#1=IFCLOCALPLACEMENTS($,#2);", b"other #1"),
    (
        2,
        b"#1=IFCSPACETYPE('g',$,$,$,$,#7,$,$,$,$,$);",
        b"other #1",
    ),
    (2, b"#1=IFCSPACETYPE();", b"other #1"),
    (2, b"#1=IFCSPAC();", b"other #1"),
    (3, b"#1=IFCWALLSTANDARDCASE($,$,$,$,$,$,$,$,$);", b"$ $"),
    (3, b"#1=IFCOPENINGELEMENT($,$,$,$,$,$,$,$,$);", b"$ $"),
    (3, b"#1=IFCSPACE($,$,$,$,$,$,$,$,$);", b"other #1"),
    (3, b"#2=IFCWALL($,$,$,$,$,$,$,$,$);", b"missing #1"),
];

#[test]
fn counts_and_keywords(rt: HostRuntime) -> Result<(), Fail> {
    for (row, instance, want) in COUNTS_AND_KEYWORDS {
        let found = answer(rt.alloc(), instance, row, 1)?;
        assert_eq!(rt; found.as_slice(), want, "row {row} of {instance:?}");
    }
    Ok(())
}

// A parameter that is just of a form, and some that are just not.
const SINGLE_FORMS: [Case; 21] = [
    (7, b"#1=IFCAXIS2PLACEMENT2D(#4294967295,$);", b"#5 $"),
    (7, b"#1=IFCAXIS2PLACEMENT2D($,$);", b"fields #1"),
    (7, b"#1=IFCAXIS2PLACEMENT2D('#2',$);", b"fields #1"),
    (7, b"#1=IFCAXIS2PLACEMENT2D(#2,*);", b"fields #1"),
    (7, b"#1=IFCAXIS2PLACEMENT2D(#2,0);", b"fields #1"),
    (24, b"#1=IFCMATERIALLAYER($,-7,$,$,$,$,$);", b"$ (-7)"),
    (
        24,
        b"#1=IFCMATERIALLAYER($,+7.E+1,$,$,$,$,$);",
        b"$ (+7.E+1)",
    ),
    (24, b"#1=IFCMATERIALLAYER($,'7',$,$,$,$,$);", b"fields #1"),
    (24, b"#1=IFCMATERIALLAYER($,$,$,$,$,$,$);", b"fields #1"),
    (24, b"#1=IFCMATERIALLAYER($,A(7),$,$,$,$,$);", b"fields #1"),
    (23, b"#1=IFCMATERIAL('',$,$);", b"()"),
    (23, b"#1=IFCMATERIAL('''',$,$);", b"(')"),
    (23, b"#1=IFCMATERIAL($,$,$);", b"fields #1"),
    (23, b"#1=IFCMATERIAL(.A.,$,$);", b"fields #1"),
    (11, b"#1=IFCSHAPEREPRESENTATION(#1,$,$,());", b"$ ()"),
    (11, b"#1=IFCSHAPEREPRESENTATION(#1,*,$,());", b"fields #1"),
    (
        11,
        b"#1=IFCSHAPEREPRESENTATION(#1,\"0\",$,());",
        b"fields #1",
    ),
    (
        26,
        b"#1=IFCMATERIALLAYERSETUSAGE(#1,._A.,.P.,0.,$);",
        b"#1 (_A) (P)",
    ),
    (
        26,
        b"#1=IFCMATERIALLAYERSETUSAGE(#1,'A',.P.,0.,$);",
        b"fields #1",
    ),
    (
        26,
        b"#1=IFCMATERIALLAYERSETUSAGE(#1,$,.P.,0.,$);",
        b"fields #1",
    ),
    (
        26,
        b"#1=IFCMATERIALLAYERSETUSAGE(#1,.A.,P,0.,$);",
        b"not indexed",
    ),
];

#[test]
fn single_forms(rt: HostRuntime) -> Result<(), Fail> {
    for (row, instance, want) in SINGLE_FORMS {
        let found = answer(rt.alloc(), instance, row, 1)?;
        assert_eq!(rt; found.as_slice(), want, "row {row} of {instance:?}");
    }
    Ok(())
}

// The same of forms that are lists.
const LIST_FORMS: [Case; 21] = [
    (16, b"#1=IFCPOLYLINE(());", b"()"),
    (16, b"#1=IFCPOLYLINE(#2);", b"fields #1"),
    (16, b"#1=IFCPOLYLINE((#2,$));", b"fields #1"),
    (16, b"#1=IFCPOLYLINE((#2,(#3)));", b"fields #1"),
    (8, b"#1=IFCCARTESIANPOINT((0.,1));", b"((0.)(1))"),
    (8, b"#1=IFCCARTESIANPOINT((0.));", b"fields #1"),
    (8, b"#1=IFCCARTESIANPOINT((0.,1.,2.,3.));", b"fields #1"),
    (8, b"#1=IFCCARTESIANPOINT((0.,#2));", b"fields #1"),
    (8, b"#1=IFCCARTESIANPOINT(0.,1.);", b"fields #1"),
    (18, b"#1=IFCCARTESIANPOINTLIST2D(());", b"()"),
    (
        18,
        b"#1=IFCCARTESIANPOINTLIST2D(((0.,1.)));",
        b"(((0.)(1.)))",
    ),
    (18, b"#1=IFCCARTESIANPOINTLIST2D((0.,1.));", b"fields #1"),
    (
        18,
        b"#1=IFCCARTESIANPOINTLIST2D(((0.,1.),(2.)));",
        b"fields #1",
    ),
    (
        18,
        b"#1=IFCCARTESIANPOINTLIST2D(((0.,1.,2.)));",
        b"fields #1",
    ),
    (17, b"#1=IFCINDEXEDPOLYCURVE(#2,$,$);", b"#2 $"),
    (17, b"#1=IFCINDEXEDPOLYCURVE(#2,(),$);", b"#2 ()"),
    (17, b"#1=IFCINDEXEDPOLYCURVE(#2,(A(())),$);", b"#2 ((A)())"),
    (17, b"#1=IFCINDEXEDPOLYCURVE(#2,(A(1)),$);", b"fields #1"),
    (17, b"#1=IFCINDEXEDPOLYCURVE(#2,(A((1.))),$);", b"fields #1"),
    (17, b"#1=IFCINDEXEDPOLYCURVE(#2,A((1)),$);", b"fields #1"),
    (17, b"#1=IFCINDEXEDPOLYCURVE(#2,((1)),$);", b"fields #1"),
];

#[test]
fn list_forms(rt: HostRuntime) -> Result<(), Fail> {
    for (row, instance, want) in LIST_FORMS {
        let found = answer(rt.alloc(), instance, row, 1)?;
        assert_eq!(rt; found.as_slice(), want, "row {row} of {instance:?}");
    }
    Ok(())
}
