use sb_lex::{BadToken, Lexer};
use std::alloc::{AllocError, Global};
use std::test::Fail;

// An input, and its tokens with their spans and what ends them.
const ROWS: [(&[u8], &str); 58] = [
    (b"", "end"),
    (
        b"ISO-10303-21;",
        "Word(First) 0 12, Mark(Semicolon) 12 13, end",
    ),
    (b"ISO-10303-21DATA", "Word(First) 0 12, Keyword 12 16, end"),
    (b"ISO-10303-210", "Word(First) 0 12, Integer 12 13, end"),
    (
        b"ISO-10303-2",
        "Keyword 0 3, Integer 3 9, Integer 9 11, end",
    ),
    (b"END-ISO-10303-21", "Word(Last) 0 16, end"),
    (b"END-ISO", "Keyword 0 3, bad 3"),
    (b"!A_1", "Keyword 0 4, end"),
    (b"!1", "bad 0"),
    (b"_A Ab", "Keyword 0 2, Keyword 3 4, bad 4"),
    (b"#0009", "Name(9) 0 5, end"),
    (b"#0", "bad 0"),
    (b"#4294967295", "Name(4294967295) 0 11, end"),
    (b"#4294967296", "bad 0"),
    (b"#1#2", "Name(1) 0 2, Name(2) 2 4, end"),
    (b"# 9", "bad 0"),
    (b"+1", "Integer 0 2, end"),
    (b"-1.", "Real 0 3, end"),
    (b"1.E", "Real 0 2, Keyword 2 3, end"),
    (b"1.E+05", "Real 0 6, end"),
    (b"1.E+", "Real 0 2, Keyword 2 3, bad 3"),
    (b".5", "bad 0"),
    (b"+", "bad 0"),
    (b"+-1", "bad 0"),
    (b"1.5.5", "Real 0 3, bad 3"),
    (b"1..T.", "Real 0 2, Enumeration 2 5, end"),
    (b"'a''b'", "Str 0 6, end"),
    (b"'a''b", "bad 0"),
    (b"''", "Str 0 2, end"),
    (b"'''", "bad 0"),
    (b"''''", "Str 0 4, end"),
    (b"'a'B'", "Str 0 3, Keyword 3 4, bad 4"),
    (b"'\n\x80\xff'", "Str 0 5, end"),
    (b".T.", "Enumeration 0 3, end"),
    (b".t.", "bad 0"),
    (b".T", "bad 0"),
    (b".1T.", "bad 0"),
    (b"\"0AF\"", "Binary 0 5, end"),
    (b"\"4A\"", "bad 0"),
    (b"\"\"", "bad 0"),
    (b"\"0a\"", "bad 0"),
    (b"/**/", "end"),
    (b"/***/", "end"),
    (b"/*/", "bad 0"),
    (b"1/*", "Integer 0 1, bad 1"),
    (b"A/*x*/B", "Keyword 0 1, Keyword 6 7, end"),
    (b"1./**/5", "Real 0 2, Integer 6 7, end"),
    (b"/*/**/*/", "Mark(Asterisk) 6 7, bad 7"),
    (b"'/*'", "Str 0 4, end"),
    (b"/", "bad 0"),
    (b"\t\n\x0b\x0c\r 1", "Integer 6 7, end"),
    (b" \x00", "bad 1"),
    (b"\x08", "bad 0"),
    (b"\x0e", "bad 0"),
    (b"\x7f", "bad 0"),
    (b"\xff", "bad 0"),
    (
        b"$*(",
        "Mark(Dollar) 0 1, Mark(Asterisk) 1 2, Mark(Open) 2 3, end",
    ),
    (
        b"),;=",
        "Mark(Close) 0 1, Mark(Comma) 1 2, Mark(Semicolon) 2 3, Mark(Equals) 3 4, end",
    ),
];

fn shown(alloc: Global, bytes: &[u8]) -> Result<String, AllocError> {
    let mut lexer = Lexer::new(bytes);
    let mut text = String::new(alloc);
    for _ in 0..=bytes.len() {
        match lexer.next() {
            Ok(Some(token)) => {
                let kind = token.kind;
                let (start, end) = (token.start, token.end);
                text.push_str(&format!(in alloc; "{kind:?} {start} {end}, ")?)?;
            }
            Ok(None) => {
                text.push_str("end")?;
                return Ok(text);
            }
            Err(BadToken(place)) => {
                text.push_str(&format!(in alloc; "bad {place}")?)?;
                return Ok(text);
            }
        }
    }
    Ok(text)
}

#[test]
fn tokens_of_each_kind(rt: HostRuntime) -> Result<(), Fail> {
    for (text, tokens) in ROWS {
        let found = shown(rt.alloc(), text)?;
        assert_eq!(rt; found.as_str(), tokens, "in {text:?}");
    }
    Ok(())
}

// `#`, as many zeros and a 9.
fn padded_name(alloc: Global, zeros: usize) -> Result<Vec<u8>, AllocError> {
    let mut text = Vec::new(alloc);
    text.push(b'#')?;
    for _ in 0..zeros {
        text.push(b'0')?;
    }
    text.push(b'9')?;
    Ok(text)
}

#[test]
fn a_name_has_any_number_of_zeros(rt: HostRuntime) -> Result<(), Fail> {
    let text = padded_name(rt.alloc(), 5000)?;
    let found = shown(rt.alloc(), &text)?;
    assert_eq!(rt; found.as_str(), "Name(9) 0 5002, end");
    Ok(())
}

#[test]
fn a_refusal_is_final(rt: HostRuntime) {
    let mut lexer = Lexer::new(b"1 'a");
    let _number = lexer.next();
    for _ in 0..3 {
        assert_eq!(rt; lexer.next(), Err(BadToken(2)));
    }
}
