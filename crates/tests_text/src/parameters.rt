use sb_step::{Param, Params, ParamsError, index, params};
use std::alloc::{AllocError, Global};
use std::test::Fail;

// One text whose instances are read one by one. #5 is complex, and #3 is absent.
const TEXT: &[u8] = b"ISO-10303-21;HEADER;A();ENDSEC;DATA;\
    #1=A();\
    #2=A((),(1,(),((-7)))) ;\
    #4=A($,*,+12,-0.5E+3,'wall',.MILLI_1.,\"0FA\",#4294967295,'');\
    #5=(A(1)B(2));\
    #6=A(B('x'),C((1.,D(E(.T.)))),!OWN(()));\
    #7=A('it''s','''','''''',' /* (1,2) */ ','\\X2\\00E9\\X0\\');\
    #8 = A /* one */ ( 1 /* ' */ ,\n\t( 2 , 3 ) /**/ ) ;\
    #9=A(#7,#009);\
    ENDSEC;END-ISO-10303-21;";

// Each number with its parameters as they are shown here: a letter says the kind, and lists have
// brackets.
const ANSWERS: [(u32, &str); 10] = [
    (1, "[]"),
    (2, "[[] [i1 [] [[i-7]]]]"),
    (3, "missing 3"),
    (4, "[$ * i+12 r-0.5E+3 swall eMILLI_1 b0FA #4294967295 s]"),
    (5, "[]"),
    (6, "[B:sx C:[r1. D:E:eT] !OWN:[]]"),
    (7, "[sit's s' s'' s /* (1,2) */  s\\X2\\00E9\\X0\\]"),
    (8, "[i1 [i2 i3]]"),
    (9, "[#7 #9]"),
    (0, "missing 0"),
];

#[cycle(show)]
fn show_list(text: &mut Vec<u8>, list: &Params, depth: usize) -> Result<(), AllocError> {
    text.push(b'[')?;
    let mut between = false;
    for item in list.as_slice() {
        if between {
            text.push(b' ')?;
        }
        between = true;
        show(text, item, depth)?;
    }
    text.extend_from_slice(b"]")
}

fn letter_with(text: &mut Vec<u8>, letter: u8, bytes: &[u8]) -> Result<(), AllocError> {
    text.push(letter)?;
    text.extend_from_slice(bytes)
}

// A parameter to this depth.
#[cycle(show)]
fn show(text: &mut Vec<u8>, param: &Param, depth: usize) -> Result<(), AllocError> {
    if depth == 0 {
        return text.extend_from_slice(b"?");
    }
    match param {
        Param::Int(written) => letter_with(text, b'i', written.bytes()),
        Param::Real(written) => letter_with(text, b'r', written.bytes()),
        Param::Str(inside) => letter_with(text, b's', inside.bytes()),
        Param::Enumeration(inside) => letter_with(text, b'e', inside.bytes()),
        Param::Binary(inside) => letter_with(text, b'b', inside.bytes()),
        Param::Reference(number) => {
            let alloc = *text.allocator();
            let shown = format!(in alloc; "#{number}")?;
            text.extend_from_slice(shown.as_bytes())
        }
        Param::Null => text.extend_from_slice(b"$"),
        Param::Derived => text.extend_from_slice(b"*"),
        Param::List(items) => show_list(text, items, depth - 1),
        Param::Typed(keyword, inner) => {
            text.extend_from_slice(keyword.bytes())?;
            text.push(b':')?;
            show(text, inner.get(), depth - 1)
        }
    }
}

fn shown(alloc: Global, answer: &Result<Params, ParamsError>) -> Result<Vec<u8>, AllocError> {
    let mut text = Vec::new(alloc);
    match answer {
        Ok(list) => show_list(&mut text, list, 8)?,
        Err(ParamsError::Missing(number)) => {
            let missing = format!(in alloc; "missing {number}")?;
            text.extend_from_slice(missing.as_bytes())?;
        }
        Err(ParamsError::NoMemory) => text.extend_from_slice(b"no memory")?,
    }
    Ok(text)
}

#[test]
fn parameters_by_number(rt: HostRuntime) -> Result<(), Fail> {
    let alloc = rt.alloc();
    let Ok(file) = index(alloc, TEXT) else {
        panic!(rt; "the text is indexed");
    };
    for (number, answer) in ANSWERS {
        let found = shown(alloc, &params(alloc, &file, number))?;
        assert_eq!(rt; found.as_slice(), answer.as_bytes(), "of #{number}");
    }
    Ok(())
}
