use sb_list::{Listed, Text};
use std::test::Fail;

/// A struct that is not `Copy`, as a walk is.
#[derive(Debug, Drop)]
struct Named {
    name: Text,
    parts: Listed<u32>,
}

#[test]
fn lists_of_structs_and_of_lists_grow(rt: HostRuntime) -> Result<(), Fail> {
    let mut parts = Listed::new(rt.alloc());
    parts.push(7u32)?;
    let copied = parts.copy()?;
    assert_eq!(rt;
        copied.as_slice(),
        [7].as_slice(),
        "a copy has the items of its source"
    );

    let mut all = Listed::new(rt.alloc());
    let mut name = Text::of(rt.alloc(), b"wa")?;
    name.extend_from_slice(b"ll")?;
    assert_eq!(rt; name.bytes(), b"wall".as_slice(), "many items at once");
    all.push(Named { name, parts })?;
    assert_eq!(rt; all.len(), 1, "a list of structs");

    let mut nested = Listed::new(rt.alloc());
    nested.push(copied)?;
    assert_eq!(rt; nested.len(), 1, "a list of lists");
    Ok(())
}
