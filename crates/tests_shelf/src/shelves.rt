ghost use Rattle.std.specs.Prelude.{◌<◌, ◌≡◌, false, IfOk};
ghost use Rattle.sb_shelf.specs.Memory.{memory_state};

use sb_list::Text;
use sb_shelf::{
    Calls, HostShelf, MemoryShelf, Out, ReadError, Shelf, SteadyShelf, read_all, write_all,
};
use std::alloc::{AllocError, Global};
use std::fs;
use std::rt::Files;
use std::test::Fail;

/// A shelf that holds `bytes` under "model.ifc", where the call of this number fails (0: none).
fn shelf(alloc: Global, bytes: &[u8], failing: u64, piece: usize) -> Result<MemoryShelf, AllocError>
    requires { 0 < piece }
    ensures { IfOk result (λ shelf. (memory_state shelf).is_created Out.Report ≡ false) }
{
    let path = Text::of(alloc, b"model.ifc")?;
    let bytes = Text::of(alloc, bytes)?;
    let mut calls = Calls::new(alloc);
    if failing > 0 {
        calls.push(failing)?;
    }
    Ok(MemoryShelf::new(alloc, path, bytes, calls, piece))
}

/// What `read_all` answers of a path over a shelf that holds `bytes` under it, as a word.
fn read_word<S: Shelf>(alloc: Global, shelf: &mut S, path: &str, bytes: &[u8]) -> &'static str {
    match read_all(alloc, shelf, path) {
        Ok(read) => {
            if read.as_slice() == bytes {
                "all"
            } else {
                "other bytes"
            }
        }
        Err(ReadError::ReadFault) => "fault",
        Err(ReadError::TooLong) => "too long",
        Err(ReadError::NoMemory) => "no memory",
    }
}

// The calls of a text of 10 bytes in pieces of 7 are open, read 7, read 3, read 0.
#[test]
fn a_text_is_read_whole_or_not_at_all(rt: HostRuntime) -> Result<(), Fail> {
    let text = b"ISO-10303-";
    for (failing, want) in [(0, "all"), (3, "fault"), (4, "fault"), (5, "all")] {
        let mut shelf = shelf(rt.alloc(), text, failing, 7)?;
        let got = read_word(rt.alloc(), &mut shelf, "model.ifc", text);
        assert_eq!(rt; got, want, "where call {failing} fails");
    }
    Ok(())
}

/// Creates the report, writes the text to it in pieces of 7 bytes, and answers whether all went
/// well and what stands there.
fn write_report(
    alloc: Global,
    text: &[u8],
    failing: u64,
    room: usize,
) -> Result<(bool, Option<Text>), AllocError> {
    let mut shelf = shelf(alloc, b"", failing, 7)?;
    shelf.reserve(room)?;
    let is_whole = match shelf.create(Out::Report, "report.json") {
        Ok(()) => write_all(&mut shelf, Out::Report, text).is_ok(),
        Err(_) => false,
    };
    let bytes = match shelf.written(Out::Report) {
        Some(bytes) => Some(Text::of(alloc, bytes)?),
        None => None,
    };
    Ok((is_whole, bytes))
}

// The calls for a text of 10 bytes in pieces of 7 are create, write 7, write 3.
#[test]
fn what_stands_after_a_fault_is_a_first_part(rt: HostRuntime) -> Result<(), Fail> {
    let text = b"{\"n\":1234}";
    for (failing, room, want, why) in [
        (0, 10, 10, "no call fails"),
        (3, 10, 7, "the second write fails"),
        (0, 9, 7, "no room for the second piece"),
    ] {
        let (is_whole, bytes) = write_report(rt.alloc(), text, failing, room)?;
        assert_eq!(rt; is_whole, want == text.len(), "{why}");
        let bytes = bytes.ok_or("the report is created")?;
        assert!(rt;
            want <= text.len() && bytes.bytes() == &text[..want],
            "{why}"
        );
    }
    Ok(())
}

/// Whether the report was created under this path and the text written to it, as real files.
fn is_written<R: Files + Print + Drop>(rt: R, path: &str, text: &[u8]) -> bool {
    let mut shelf = HostShelf::new(rt);
    match shelf.create(Out::Report, path) {
        Ok(()) => write_all(&mut shelf, Out::Report, text).is_ok(),
        Err(_) => false,
    }
}

/// Whether an empty text is written, and then a long one that the shelf takes at once, where the
/// call of this number fails.
fn are_whole(alloc: Global, failing: u64) -> Result<(bool, bool), AllocError> {
    let mut shelf = shelf(alloc, b"", failing, usize::MAX)?;
    shelf.reserve(70_000)?;
    let long = vec![in alloc; b'#'; 70_000]?;
    let is_empty_whole = write_all(&mut shelf, Out::Said, b"").is_ok();
    Ok((
        is_empty_whole,
        write_all(&mut shelf, Out::Said, &long).is_ok(),
    ))
}

// No call is made for an empty text, and one for a text that is taken at once, however long.
#[test]
fn each_write_offers_the_whole_rest(rt: HostRuntime) -> Result<(), Fail> {
    assert_eq!(rt; are_whole(rt.alloc(), 1)?, (true, false), "the first call");
    assert_eq!(rt;
        are_whole(rt.alloc(), 2)?,
        (true, true),
        "there is no second"
    );
    Ok(())
}

// A text of two pieces over a shelf that never fails.
#[test]
fn a_long_text_is_read(rt: HostRuntime) -> Result<(), Fail> {
    let long = vec![in rt.alloc(); b'#'; 70_000]?;
    let name = Text::of(rt.alloc(), b"model.ifc")?;
    let bytes = Text::of(rt.alloc(), long.as_slice())?;
    let mut steady = SteadyShelf::new(rt.alloc(), name, bytes);
    let got = read_word(rt.alloc(), &mut steady, "model.ifc", long.as_slice());
    assert_eq!(rt; got, "all", "steady");
    Ok(())
}

// The same over real files.
#[test]
fn a_long_file_is_read(rt: HostRuntime) -> Result<(), Fail> {
    let long = vec![in rt.alloc(); b'#'; 70_000]?;
    let mut host = HostShelf::new(rt.clone()?);
    fs::write(&rt, "long.ifc", long.as_slice())?;
    let got = read_word(rt.alloc(), &mut host, "long.ifc", long.as_slice());
    assert_eq!(rt; got, "all", "a file");
    let got = read_word(rt.alloc(), &mut host, "absent.ifc", b"");
    assert_eq!(rt; got, "fault", "no such file");
    fs::remove_file(&rt, "long.ifc")?;
    Ok(())
}

#[test]
fn a_long_file_is_written(rt: HostRuntime) -> Result<(), Fail> {
    let long = vec![in rt.alloc(); b'#'; 70_000]?;
    let is_whole = is_written(rt.clone()?, "absent/report.json", &long);
    assert!(rt; !is_whole, "no such folder");
    assert!(rt; is_written(rt.clone()?, "long.json", &long), "a new file");
    let written = fs::read(&rt, "long.json")?;
    let is_whole = written.as_slice() == long.as_slice();
    assert!(rt; is_whole, "the whole text stands there");
    fs::remove_file(&rt, "long.json")?;
    Ok(())
}

/// Whether the report can be created under this path where the model is read.
fn is_created_beside<R: Files + Print + Drop>(rt: R, model: &str, report: &str) -> bool {
    let mut shelf = HostShelf::new(rt);
    shelf.open(model).is_ok() && shelf.create(Out::Report, report).is_ok()
}

/// Whether the two files can be created under these paths.
fn are_created<R: Files + Print + Drop>(rt: R, report: &str, ifc: &str) -> bool {
    let mut shelf = HostShelf::new(rt);
    shelf.create(Out::Report, report).is_ok() && shelf.create(Out::Ifc, ifc).is_ok()
}

// What is in use is not emptied, whatever name it is asked for by.
#[test]
fn a_file_in_use_stands(rt: HostRuntime) -> Result<(), Fail> {
    fs::write(&rt, "used.ifc", b"ISO")?;
    rt.hard_link("used.ifc", "link.json")?;
    for (report, want, why) in [
        ("./used.ifc", false, "the model by another path"),
        ("link.json", false, "the model by another name"),
        ("/dev/null", true, "a device"),
    ] {
        let is_created = is_created_beside(rt.clone()?, "used.ifc", report);
        assert_eq!(rt; is_created, want, "{why}");
    }
    let used = fs::read(&rt, "used.ifc")?;
    assert!(rt; used.as_slice() == b"ISO".as_slice(), "the model stands");
    fs::remove_file(&rt, "used.ifc")?;
    fs::remove_file(&rt, "link.json")?;
    Ok(())
}

#[test]
fn a_file_in_no_use_is_emptied(rt: HostRuntime) -> Result<(), Fail> {
    fs::write(&rt, "model.ifc", b"ISO")?;
    fs::write(&rt, "free.json", b"before")?;
    let is_created = is_created_beside(rt.clone()?, "model.ifc", "free.json");
    assert!(rt; is_created, "a file that is in no use");
    let free = fs::read(&rt, "free.json")?;
    assert!(rt; free.is_empty(), "it was emptied");
    fs::remove_file(&rt, "model.ifc")?;
    fs::remove_file(&rt, "free.json")?;
    Ok(())
}

#[test]
fn outputs_are_files_of_their_own(rt: HostRuntime) -> Result<(), Fail> {
    assert!(rt; are_created(rt.clone()?, "a.json", "a.ifc"), "two files");
    assert!(rt; !are_created(rt.clone()?, "a.json", "./a.json"), "one file");
    fs::remove_file(&rt, "a.json")?;
    fs::remove_file(&rt, "a.ifc")?;
    Ok(())
}

// An error of the system is a fault, in reading and in writing.
#[test]
fn an_error_of_the_system_is_a_fault(rt: HostRuntime) -> Result<(), Fail> {
    let mut host = HostShelf::new(rt.clone()?);
    assert_eq!(rt;
        read_word(rt.alloc(), &mut host, ".", b""),
        "fault",
        "a folder"
    );
    assert!(rt; !is_written(rt.clone()?, ".", b""), "a folder");
    assert!(rt;
        is_written(rt.clone()?, "/dev/full", b""),
        "nothing to write"
    );
    assert!(rt;
        !is_written(rt.clone()?, "/dev/full", b"{}"),
        "a full device"
    );
    Ok(())
}
