use sb_list::Text;
use sb_texts::{
    Piece, append, append_all, append_number, append_padded, append_reference, append_references,
    append_repeated, append_signed, append_whole,
};
use std::test::Fail;

#[test]
fn each_call_appends(rt: HostRuntime) -> Result<(), Fail> {
    let mut text = Text::new(rt.alloc());
    append(&mut text, b"wall ")?;
    append_number(&mut text, u64::MAX)?;
    append(&mut text, b" ")?;
    append_signed(&mut text, i64::MIN)?;
    append_repeated(&mut text, b'$', 3)?;
    append_padded(&mut text, 42, 5)?;
    append_padded(&mut text, 123_456, 5)?;
    append_reference(&mut text, 101)?;
    append_whole(&mut text, -100)?;
    append_references(&mut text, &[])?;
    append_references(&mut text, &[109, 119, 129])?;
    let want =
        b"wall 18446744073709551615 -9223372036854775808$$$00042123456#101-100.#109,#119,#129";
    assert_eq!(rt;
        text.bytes(),
        want.as_slice(),
        "each call appends at the end"
    );
    Ok(())
}

#[test]
fn pieces_stand_in_order(rt: HostRuntime) -> Result<(), Fail> {
    let mut text = Text::new(rt.alloc());
    append_all(
        &mut text,
        &[
            Piece::Reference(8),
            Piece::Bytes(b"=IFCWALL('"),
            Piece::Padded(8, 22),
            Piece::Bytes(b"',"),
            Piece::Whole(0),
            Piece::Bytes(b","),
            Piece::Signed(-5),
            Piece::Bytes(b","),
            Piece::Number(10),
            Piece::Bytes(b",("),
            Piece::References(&[1, 2]),
            Piece::Bytes(b"));\n"),
        ],
    )?;
    assert_eq!(rt;
        text.bytes(),
        b"#8=IFCWALL('0000000000000000000008',0.,-5,10,(#1,#2));\n".as_slice(),
        "a line of an exchange text"
    );
    Ok(())
}
