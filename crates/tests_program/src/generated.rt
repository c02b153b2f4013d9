// The generated model of each size is an exchange text, with as many instances as its boxes,
// windows and materials make.
use sb_demo::{MOST_ROOMS, demo_text};
use sb_step::index;
use std::test::Fail;

#[test]
fn each_generated_text_is_indexed(rt: HostRuntime) -> Result<(), Fail> {
    for n in 1..MOST_ROOMS + 1 {
        let text = demo_text(rt.alloc(), n)?;
        let file = index(rt.alloc(), text.bytes())?;
        let boxes = 5 + 3 * n as usize;
        assert_eq!(rt;
            file.numbers().len(),
            14 + 9 * boxes + 3 * n as usize + 2,
            "the instances of {n} rooms"
        );
        assert_eq!(rt; file.greatest(), 40_002, "the last of {n} rooms");
    }
    Ok(())
}
