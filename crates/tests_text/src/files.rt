use sb_step::{StepError, StepFile, index};
use std::alloc::{AllocError, Global};
use std::str;
use std::test::Fail;

// What stands before the instances and behind them.
const HEAD: &[u8] = b"ISO-10303-21;HEADER;A();ENDSEC;DATA;";

const TAIL: &[u8] = b"ENDSEC;END-ISO-10303-21;";

// Whole inputs with their answers. A file is shown by its instances and the end of its data.
const INPUTS: [(&[u8], &str); 24] = [
    (b"", "syntax 0"),
    (b"ISO-10303-21;/*", "syntax 13"),
    (
        b"ISO-10303-21;HEADER;FILE_SCHEMA(('IFC4'));ENDSEC;DATA;#0=IFCWALL();",
        "syntax 54",
    ),
    (
        b"ISO-10303-21;HEADER;FILE_SCHEMA(('IFC4'));ENDSEC;DATA;#12=IFCWALL(",
        "syntax 66",
    ),
    (
        b"ISO-10303-21;HEADER;FILE_SCHEMA(('IFC4'));ENDSEC;DATA;\
          #1=IFCSIUNIT(*,.LENGTHUNIT.,.MILLI.,.METRE.);#2=IFCUNITASSIGNMENT((#1));\
          #2=IFCBUILDING('0000000000000000000003',$,$,$,$,$,$,$,$,$,$,$);\
          ENDSEC;END-ISO-10303-21;",
        "twice 2",
    ),
    (
        b"ISO-10303-21;HEADER;FILE_SCHEMA(('IFC4'));ENDSEC;DATA;ENDSEC;END-ISO-10303-21;",
        "end 54",
    ),
    (b"ISO-10303-21;HEADER;ENDSEC;", "syntax 26"),
    (
        b"ISO-10303-21;HEADER;ENDSEC();ENDSEC;DATA;ENDSEC;END-ISO-10303-21;",
        "end 41",
    ),
    (
        b"ISO-10303-21;HEADER;A();ENDSEC();ENDSEC;DATA;ENDSEC;END-ISO-10303-21;",
        "end 45",
    ),
    (b"ISO-10303-21;HEADER;A();ENDSEC,", "syntax 30"),
    (b"ISO-10303-21;HEADER;A();ENDSEC;", "syntax 31"),
    (b"ISO-10303-21;HEADER;A;", "syntax 21"),
    (b"ISO-10303-21;HEADER;(A());", "syntax 20"),
    (b"ISO-10303-21;DATA;", "syntax 13"),
    (b"ISO-10303-21;!HEADER;", "syntax 13"),
    (b"ISO-10303-21;HEADERS;", "syntax 13"),
    (b"END-ISO-10303-21;", "syntax 0"),
    (b"  ISO-10303-21 /* */", "syntax 20"),
    (b"ISO-10303-21;HEADER;A();ENDSEC;DATA;ENDSEC;", "syntax 43"),
    (
        b"ISO-10303-21;HEADER;A();ENDSEC;DATA;ENDSEC;END-ISO-10303-21",
        "syntax 59",
    ),
    (
        b"ISO-10303-21;HEADER;A();ENDSEC;DATA;ENDSEC;END-ISO-10303-21; /* */\n",
        "end 36",
    ),
    (
        b"ISO-10303-21;HEADER;A();ENDSEC;DATA;ENDSEC;END-ISO-10303-21; /*",
        "syntax 61",
    ),
    (
        b"ISO-10303-21;HEADER;A();ENDSEC;DATA;ENDSEC;END-ISO-10303-21;;",
        "syntax 60",
    ),
    (
        b"ISO-10303-21;HEADER;A();ENDSEC;DATA;ENDSEC;END-ISO-10303-21;DATA;",
        "syntax 60",
    ),
];

// What stands in the data section, whose first byte is byte 36, with the answer.
const INSTANCES: [(&[u8], &str); 27] = [
    (b"#1=A();", "#1 A, end 43"),
    (b"#1 = A ( ) ;", "#1 A, end 48"),
    (b"#1=(A());", "#1 complex, end 45"),
    (b"#1=(A()B(1)_C($));", "#1 complex, end 54"),
    (b"#1=();", "syntax 40"),
    (b"#1=(A);", "syntax 41"),
    (b"#1=(A(),B());", "syntax 43"),
    (b"#1=((A()));", "syntax 40"),
    (b"#1=A;", "syntax 40"),
    (b"#1=A()", "syntax 42"),
    (b"#1=A()ENDSEC;", "syntax 42"),
    (b"#1=$;", "syntax 39"),
    (b"#1A();", "syntax 38"),
    (b"A();", "syntax 36"),
    (b"#1=A(,);", "syntax 41"),
    (b"#1=A(1,);", "syntax 43"),
    (b"#1=A(1 2);", "syntax 43"),
    (b"#1=A(());#2=B((),(()));", "#1 A, #2 B, end 59"),
    (b"#1=A($,*,1,-1.,'a''b',.T.,\"0F\",#9);", "#1 A, end 71"),
    (b"#1=A(B(1),C(($,*)),D(E(F(()))));", "#1 A, end 68"),
    (b"#1=A(B());", "syntax 43"),
    (b"#1=A(B(1,2));", "syntax 44"),
    (b"#1=A(B);", "syntax 42"),
    (b"#1=A(=);", "syntax 41"),
    (b"#1=A();#01=B();", "twice 1"),
    (b"#5=A();#5=A();#3=A();#4=A();#3=A();", "twice 3"),
    (b"#5=A();#5=A();#3=A(", "syntax 61"),
];

fn joined(alloc: Global, parts: &[&[u8]]) -> Result<Vec<u8>, AllocError> {
    let mut text = Vec::new(alloc);
    for part in parts {
        text.extend_from_slice(part)?;
    }
    Ok(text)
}

fn file_shown(alloc: Global, file: &StepFile<'_>) -> Result<String, AllocError> {
    let mut text = String::new(alloc);
    for number in file.numbers() {
        match file.keyword(*number) {
            Some(keyword) => {
                let keyword = str::from_utf8(keyword).unwrap_or("?");
                text.push_str(&format!(in alloc; "#{number} {keyword}, ")?)?;
            }
            None => text.push_str(&format!(in alloc; "#{number} complex, ")?)?,
        }
    }
    let end = file.data_end();
    text.push_str(&format!(in alloc; "end {end}")?)?;
    Ok(text)
}

fn shown(alloc: Global, bytes: &[u8]) -> Result<String, AllocError> {
    match index(alloc, bytes) {
        Ok(file) => file_shown(alloc, &file),
        Err(StepError::Syntax(place)) => format!(in alloc; "syntax {place}"),
        Err(StepError::Duplicate(number)) => format!(in alloc; "twice {number}"),
        Err(StepError::NoMemory) => format!(in alloc; "no memory"),
    }
}

#[test]
fn whole_inputs(rt: HostRuntime) -> Result<(), Fail> {
    for (text, answer) in INPUTS {
        let found = shown(rt.alloc(), text)?;
        assert_eq!(rt; found.as_str(), answer, "in {text:?}");
    }
    Ok(())
}

#[test]
fn instances(rt: HostRuntime) -> Result<(), Fail> {
    for (data, answer) in INSTANCES {
        let text = joined(rt.alloc(), &[HEAD, data, TAIL])?;
        let found = shown(rt.alloc(), &text)?;
        assert_eq!(rt; found.as_str(), answer, "in {data:?}");
    }
    Ok(())
}

// An instance that begins so, many parentheses, and what stands behind them.
fn nested(alloc: Global, begin: &[u8], depth: usize, end: &[u8]) -> Result<Vec<u8>, AllocError> {
    let mut text = joined(alloc, &[HEAD, begin])?;
    for _ in 0..depth {
        text.push(b'(')?;
    }
    text.extend_from_slice(end)?;
    Ok(text)
}

#[test]
fn sixty_four_parentheses(rt: HostRuntime) -> Result<(), Fail> {
    let alloc = rt.alloc();
    // 64 may be open, and a value may stand there: the fault is behind it.
    let value = nested(alloc, b"#1=A", 64, b"$;")?;
    assert_eq!(rt; shown(alloc, &value)?.as_str(), "syntax 105");
    // The 65th is the fault, and so is a keyword, which would open it.
    let one_more = nested(alloc, b"#1=A", 65, b"$;")?;
    assert_eq!(rt; shown(alloc, &one_more)?.as_str(), "syntax 104");
    let keyword = nested(alloc, b"#1=A", 64, b"B(1)")?;
    assert_eq!(rt; shown(alloc, &keyword)?.as_str(), "syntax 104");
    // That of a complex record counts.
    let complex = nested(alloc, b"#1=(A", 63, b"$;")?;
    assert_eq!(rt; shown(alloc, &complex)?.as_str(), "syntax 105");
    let deeper = nested(alloc, b"#1=(A", 64, b"$;")?;
    assert_eq!(rt; shown(alloc, &deeper)?.as_str(), "syntax 104");
    Ok(())
}

// As many lists one behind the other as given, none within another.
#[test]
fn closed_parentheses_do_not_count(rt: HostRuntime) -> Result<(), Fail> {
    let alloc = rt.alloc();
    let mut text = joined(alloc, &[HEAD, b"#1=A(()"])?;
    for _ in 0..1000 {
        text.extend_from_slice(b",()")?;
    }
    text.extend_from_slice(b");")?;
    text.extend_from_slice(TAIL)?;
    assert_eq!(rt; shown(alloc, &text)?.as_str(), "#1 A, end 3045");
    Ok(())
}

#[test]
fn no_front_of_a_text_is_one(rt: HostRuntime) -> Result<(), Fail> {
    let alloc = rt.alloc();
    let text = joined(alloc, &[HEAD, b"#1=A(B(1),'x');", TAIL])?;
    for len in 0..text.len() {
        let fault = match index(alloc, &text[..len]) {
            Err(StepError::Syntax(place)) => place <= len,
            _ => false,
        };
        assert!(rt; fault, "the first {len} bytes");
    }
    Ok(())
}

// Data, the numbers of its instances in file order, and the greatest.
const NUMBERS: [(&[u8], &[u32], u32); 6] = [
    (b"", &[], 0),
    (b"#7=A();", &[7], 7),
    (b"#5=A();#9=(A()B());#2=C(#9);", &[5, 9, 2], 9),
    (b"#3=A();#1=A();#2=A();", &[3, 1, 2], 3),
    (b"#1=A();#2=A();#0000000030=A();", &[1, 2, 30], 30),
    (b"#4294967295=A();#1=A();", &[4294967295, 1], 4294967295),
];

#[test]
fn numbers_in_file_order(rt: HostRuntime) -> Result<(), Fail> {
    for (data, numbers, greatest) in NUMBERS {
        let text = joined(rt.alloc(), &[HEAD, data, TAIL])?;
        let found = match index(rt.alloc(), &text) {
            Ok(file) => file.numbers() == numbers && file.greatest() == greatest,
            Err(_) => false,
        };
        assert!(rt; found, "{numbers:?} and {greatest}");
    }
    Ok(())
}

// Entities of a header, and the schema that they name.
const SCHEMAS: [(&[u8], Option<&[u8]>); 25] = [
    (b"FILE_SCHEMA(('IFC4'));", Some(b"IFC4")),
    (b"A();FILE_SCHEMA(('IFC2X3'));B($);", Some(b"IFC2X3")),
    (b" FILE_SCHEMA /* */ ( (\n'IFC4' ) ) ;", Some(b"IFC4")),
    (b"ENDSEC();FILE_SCHEMA(('IFC4'));", Some(b"IFC4")),
    (b"FILE_SCHEMA(('it''s'));", Some(b"it''s")),
    (b"FILE_SCHEMA((''''));", Some(b"''")),
    (b"FILE_SCHEMA((''));", Some(b"")),
    (b"A('FILE_SCHEMA');FILE_SCHEMA(('IFC4'));", Some(b"IFC4")),
    (
        b"A(FILE_SCHEMA(('IFC2X3')));FILE_SCHEMA(('IFC4'));",
        Some(b"IFC4"),
    ),
    (b"FILE_SCHEMA(('IFC4'));FILE_SCHEMA(('IFC4'));", None),
    (b"FILE_SCHEMA(('IFC4'));A();FILE_SCHEMA();", None),
    (b"FILE_SCHEMA();FILE_SCHEMA(('IFC4'));", None),
    (
        b"FILE_SCHEMA(('A'));FILE_SCHEMA(('B'));FILE_SCHEMA(('C'));",
        None,
    ),
    (b"FILE_SCHEMA(('IFC4','IFC2X3'));", None),
    (b"FILE_SCHEMA(('IFC4'),('IFC2X3'));", None),
    (b"FILE_SCHEMA(('IFC4'),$);", None),
    (b"FILE_SCHEMA($,('IFC4'));", None),
    (b"FILE_SCHEMA('IFC4');", None),
    (b"FILE_SCHEMA(());", None),
    (b"FILE_SCHEMA();", None),
    (b"FILE_SCHEMA((('IFC4')));", None),
    (b"FILE_SCHEMA((4));", None),
    (b"FILE_SCHEMA(A('IFC4'));", None),
    (b"!FILE_SCHEMA(('IFC4'));FILE_SCHEMAS(('IFC4'));", None),
    (b"A(FILE_SCHEMA(('IFC4')));", None),
];

fn names(file: &StepFile<'_>, schema: Option<&[u8]>) -> bool {
    match (file.schema(), schema) {
        (Some(found), Some(text)) => found == text,
        (None, None) => true,
        _ => false,
    }
}

#[test]
fn the_schema_of_a_header(rt: HostRuntime) -> Result<(), Fail> {
    for (header, schema) in SCHEMAS {
        let before = b"ISO-10303-21;HEADER;";
        let data = b"ENDSEC;DATA;#1=FILE_SCHEMA(('IFC1'));";
        let text = joined(rt.alloc(), &[before, header, data, TAIL])?;
        let found = match index(rt.alloc(), &text) {
            Ok(file) => names(&file, schema),
            Err(_) => false,
        };
        assert!(rt; found, "the schema of {header:?}");
    }
    Ok(())
}

#[test]
fn keywords_by_number(rt: HostRuntime) -> Result<(), Fail> {
    let text = joined(rt.alloc(), &[HEAD, b"#7=WALL(); #2=(A()B());", TAIL])?;
    let found = match index(rt.alloc(), &text) {
        Ok(file) => {
            let wall = match file.keyword(7) {
                Some(keyword) => keyword == b"WALL".as_slice(),
                None => false,
            };
            wall && file.keyword(2).is_none() && file.keyword(1).is_none()
        }
        Err(_) => false,
    };
    assert!(rt; found, "#7 is a WALL, #2 is complex and #1 is absent");
    Ok(())
}
