use sb_step::{Cursor, index};
use std::alloc::{AllocError, Global};
use std::test::Fail;

// One instance with a parameter of each form, a complex one and one without parameters.
const TEXT: &[u8] = b"ISO-10303-21;HEADER;A();ENDSEC;DATA;\
    #1=A(#2,$,1.5,(#4,'x',-7),.T.,'it''s',C((1,(2))),*,/* ( */ '(',#3);\
    #5=(D(1)E(2));\
    #6=F();\
    ENDSEC;END-ISO-10303-21;";

// What the next parameter is, by its form: as it is shown here.
fn show_next(
    alloc: Global,
    text: &mut Vec<u8>,
    cursor: &mut Cursor<'_>,
    form: u8,
) -> Result<(), AllocError> {
    match form {
        b'#' => match cursor.reference() {
            Some(number) => text.push(b'0' + (number % 10) as u8)?,
            None => text.push(b'-')?,
        },
        b'$' => match cursor.reference_or_none() {
            Some(Some(number)) => text.push(b'0' + (number % 10) as u8)?,
            Some(None) => text.push(b'$')?,
            None => text.push(b'-')?,
        },
        b'n' => text.extend_from_slice(cursor.number().unwrap_or(b"-"))?,
        b'e' => text.extend_from_slice(cursor.enumeration().unwrap_or(b"-"))?,
        b's' => match cursor.string(alloc)? {
            Some(string) => text.extend_from_slice(string.bytes())?,
            None => text.push(b'-')?,
        },
        b'(' => match cursor.list() {
            Some(_items) => text.push(b'(')?,
            None => text.push(b'-')?,
        },
        b't' => match cursor.typed() {
            Some(typed) => text.extend_from_slice(typed.keyword)?,
            None => text.push(b'-')?,
        },
        b'z' => text.push(if cursor.is_null() { b'y' } else { b'n' })?,
        _ => cursor.skip(),
    }
    text.push(b' ')?;
    Ok(())
}

// The parameters of an instance, each by a form.
fn shown(alloc: Global, number: u32, forms: &[u8]) -> Result<Vec<u8>, AllocError> {
    let mut text = Vec::new(alloc);
    let Ok(file) = index(alloc, TEXT) else {
        return Ok(text);
    };
    let Some(mut cursor) = file.cursor(number) else {
        text.extend_from_slice(b"missing")?;
        return Ok(text);
    };
    for form in forms {
        show_next(alloc, &mut text, &mut cursor, *form)?;
    }
    text.extend_from_slice(if cursor.is_done() { b"end" } else { b"..." })?;
    Ok(text)
}

// An instance, the forms that its parameters are asked for, and what is given.
const ROWS: [(u32, &[u8], &[u8]); 10] = [
    (1, b"tzt....t", b"- y -     C ..."),
    (1, b"#$n(es", b"2 $ 1.5 ( T it's ..."),
    (1, b"#$n(es....", b"2 $ 1.5 ( T it's     end"),
    (1, b"........s#", b"        ( 3 end"),
    (1, b"$#snn(##e#", b"2 - - - - - - - - 3 end"),
    (1, b"...........#", b"           - end"),
    (1, b"", b"..."),
    (5, b"", b"end"),
    (6, b"#", b"- end"),
    (7, b"", b"missing"),
];

#[test]
fn a_cursor_goes_over_parameters(rt: HostRuntime) -> Result<(), Fail> {
    for (number, forms, want) in ROWS {
        let found = shown(rt.alloc(), number, forms)?;
        assert_eq!(rt; found.as_slice(), want, "instance {number} by {forms:?}");
    }
    Ok(())
}

#[test]
fn a_cursor_goes_over_the_items_of_a_list(rt: HostRuntime) -> Result<(), Fail> {
    let mut text = Vec::new(rt.alloc());
    if let Ok(file) = index(rt.alloc(), TEXT) {
        if let Some(mut cursor) = file.cursor(1) {
            cursor.skip();
            cursor.skip();
            cursor.skip();
            if let Some(mut items) = cursor.list() {
                for form in b"#sn#" {
                    show_next(rt.alloc(), &mut text, &mut items, *form)?;
                }
            }
        }
    }
    assert_eq!(rt;
        text.as_slice(),
        b"4 x -7 - ".as_slice(),
        "the items one by one"
    );
    Ok(())
}
