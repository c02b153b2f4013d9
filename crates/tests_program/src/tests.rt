// The worked rows of one box. Each is a file of the first form, by its six numbers, and what is said
// and written for it. The texts are worked by hand.
ghost use Rattle.std.specs.Prelude.{◌≡◌, ◌<◌, IfOk};
ghost use Rattle.sb_shelf.specs.Memory.{memory_state};
ghost use Rattle.sb_shelf.specs.World.{IsUntouched};

use sb_list::Text;
use sb_run::{run, status};
use sb_shelf::{Calls, MemoryShelf, Out};
use std::alloc::{AllocError, Global};
use std::test::Fail;

/// The six numbers of a file: x, y, z, X, Y and H.
type Numbers = [i32; 6];

/// A file of the first form.
fn form(alloc: Global, numbers: Numbers) -> Result<String, AllocError> {
    let [x, y, z, size_x, size_y, height] = numbers;
    format!(in alloc;
        "ISO-10303-21;\nHEADER;\nFILE_SCHEMA(('IFC4'));\nENDSEC;\nDATA;\n#1=IFCSIUNIT(*,.LENGTHUNIT.,.MILLI.,.METRE.);\n#2=IFCUNITASSIGNMENT((#1));\n#3=IFCBUILDING('0000000000000000000003',$,$,$,$,$,$,$,$,$,$,$);\n#10=IFCCARTESIANPOINT(({x}.,{y}.,{z}.));\n#11=IFCAXIS2PLACEMENT3D(#10,$,$);\n#12=IFCLOCALPLACEMENT($,#11);\n#13=IFCRECTANGLEPROFILEDEF(.AREA.,$,$,{size_x}.,{size_y}.);\n#14=IFCDIRECTION((0.,0.,1.));\n#15=IFCEXTRUDEDAREASOLID(#13,$,#14,{height}.);\n#16=IFCSHAPEREPRESENTATION($,'Body',$,(#15));\n#17=IFCPRODUCTDEFINITIONSHAPE($,$,(#16));\n#20=IFCSPACE('0000000000000000000020',$,$,$,$,#12,#17,$,$,$,$);\nENDSEC;\nEND-ISO-10303-21;\n"
    )
}

/// A shelf that holds the file under "box.ifc", where the call of this number fails (0: none).
fn shelf(alloc: Global, file: &[u8], failing: u64) -> Result<MemoryShelf, AllocError>
    ensures { IfOk result (λ shelf. IsUntouched (memory_state shelf)) }
{
    let path = Text::of(alloc, b"box.ifc")?;
    let bytes = Text::of(alloc, file)?;
    let mut calls = Calls::new(alloc);
    if failing > 0 {
        calls.push(failing)?;
    }
    let mut shelf = MemoryShelf::new(alloc, path, bytes, calls, usize::MAX);
    shelf.reserve(100_000)?;
    Ok(shelf)
}

/// What a run leaves: its status, what it said, and what stands on the report, if it was created.
#[derive(Drop)]
struct Left {
    status: u8,
    said: String,
    report: Option<String>,
}

/// Runs the command `box.ifc --report r.json`.
fn left_by(alloc: Global, file: &[u8], failing: u64) -> Result<Left, Fail> {
    let words = vec![in alloc;
        String::from_str(alloc, "box.ifc")?,
        String::from_str(alloc, "--report")?,
        String::from_str(alloc, "r.json")?,
    ]?;
    let mut shelf = shelf(alloc, file, failing)?;
    let answer = run(alloc, words.as_slice(), &mut shelf);
    Ok(Left {
        status: status(&answer),
        said: written(alloc, &shelf, Out::Said)?.unwrap_or(String::new(alloc)),
        report: written(alloc, &shelf, Out::Report)?,
    })
}

fn written(alloc: Global, shelf: &MemoryShelf, out: Out) -> Result<Option<String>, AllocError> {
    match shelf.written(out) {
        None => Ok(None),
        Some(bytes) => Ok(String::from_utf8(bytes.to_vec(alloc)?).ok()),
    }
}

#[test]
fn each_box_is_judged(rt: HostRuntime) -> Result<(), Fail> {
    let alloc = rt.alloc();
    let done = "spaces 1, boundaries 6, openings 0, pairs 0\n";
    let cut = "spaces 1, boundaries 10, openings 0, pairs 0\n";
    let off_grid = "refused #20: OffGrid\n";
    let shape = "refused #20: Shape\n";
    let range = "refused #20: Range\n";
    for (numbers, want, said, why) in [
        ([2000, 1500, 0, 4000, 3000, 2500], 0, done, "on the ground"),
        (
            [2000, 1500, -1000, 4000, 3000, 2500],
            0,
            cut,
            "the ground cuts it",
        ),
        (
            [2000, 1500, -2500, 4000, 3000, 2500],
            0,
            done,
            "it ends at the ground",
        ),
        ([2000, 1500, 0, 4001, 3000, 2500], 6, off_grid, "X is odd"),
        ([2000, 1500, 0, 4000, -2, 2500], 6, shape, "a depth below 0"),
        (
            [2000, 1500, 0, 4001, 3000, 0],
            6,
            shape,
            "shape comes before the grid",
        ),
        (
            [499998, 1500, 0, 4, 3000, 2500],
            0,
            done,
            "up to 500,000 mm",
        ),
        (
            [499998, 1500, 0, 5, 3000, 2500],
            6,
            range,
            "half a millimetre beyond",
        ),
        (
            [2000, 1500, 497501, 4000, 3000, 2500],
            6,
            range,
            "1 mm too high",
        ),
    ] {
        let left = left_by(alloc, form(alloc, numbers)?.as_bytes(), 0)?;
        assert_eq!(rt; left.status, want, "{why}");
        assert_eq!(rt; left.said.as_str(), said, "{why}");
        assert_eq!(rt; left.report.is_some(), want == 0, "{why}");
    }
    Ok(())
}

const ROOM: Numbers = [2000, 1500, 0, 4000, 3000, 2500];

/// The report of a room of 4,000 by 3,000 by 2,500 mm on the ground.
const ROOM_REPORT: &str = "{\"boundaries\":[\
{\"corners\":[[\"4000\",\"3000\",\"0\"],[\"4000\",\"0\",\"0\"],[\"0\",\"0\",\"0\"],[\"0\",\"3000\",\"0\"]],\"depth\":0,\"end\":\"earth\",\"face\":\"bottom\",\"id\":1,\"items\":[],\"key\":null,\"normal\":[0,0,-1],\"pair\":null,\"parent\":null,\"space\":20,\"target\":null,\"unit\":1},\
{\"corners\":[[\"0\",\"3000\",\"2500\"],[\"0\",\"0\",\"2500\"],[\"4000\",\"0\",\"2500\"],[\"4000\",\"3000\",\"2500\"]],\"depth\":0,\"end\":\"outside\",\"face\":\"top\",\"id\":2,\"items\":[],\"key\":null,\"normal\":[0,0,1],\"pair\":null,\"parent\":null,\"space\":20,\"target\":null,\"unit\":1},\
{\"corners\":[[\"0\",\"0\",\"2500\"],[\"0\",\"0\",\"0\"],[\"4000\",\"0\",\"0\"],[\"4000\",\"0\",\"2500\"]],\"depth\":0,\"end\":\"outside\",\"face\":\"side\",\"id\":3,\"items\":[],\"key\":null,\"normal\":[0,-1,0],\"pair\":null,\"parent\":null,\"space\":20,\"target\":null,\"unit\":1},\
{\"corners\":[[\"4000\",\"0\",\"2500\"],[\"4000\",\"0\",\"0\"],[\"4000\",\"3000\",\"0\"],[\"4000\",\"3000\",\"2500\"]],\"depth\":0,\"end\":\"outside\",\"face\":\"side\",\"id\":4,\"items\":[],\"key\":null,\"normal\":[1,0,0],\"pair\":null,\"parent\":null,\"space\":20,\"target\":null,\"unit\":1},\
{\"corners\":[[\"4000\",\"3000\",\"2500\"],[\"4000\",\"3000\",\"0\"],[\"0\",\"3000\",\"0\"],[\"0\",\"3000\",\"2500\"]],\"depth\":0,\"end\":\"outside\",\"face\":\"side\",\"id\":5,\"items\":[],\"key\":null,\"normal\":[0,1,0],\"pair\":null,\"parent\":null,\"space\":20,\"target\":null,\"unit\":1},\
{\"corners\":[[\"0\",\"3000\",\"2500\"],[\"0\",\"3000\",\"0\"],[\"0\",\"0\",\"0\"],[\"0\",\"0\",\"2500\"]],\"depth\":0,\"end\":\"outside\",\"face\":\"side\",\"id\":6,\"items\":[],\"key\":null,\"normal\":[-1,0,0],\"pair\":null,\"parent\":null,\"space\":20,\"target\":null,\"unit\":1}],\"format\":\"sbgen-1\",\"ground\":0,\"reach\":1000,\"spaces\":[20]}\n";

/// The first side of a room from -1,000 to 1,500 mm: below the ground, and then above it.
const CUT_SIDE: &str =
    "{\"corners\":[[\"0\",\"0\",\"0\"],[\"0\",\"0\",\"-1000\"],[\"4000\",\"0\",\"-1000\"],[\"4000\",\"0\",\"0\"]],\"depth\":0,\"end\":\"earth\",\"face\":\"side\",\"id\":3,\"items\":[],\"key\":null,\"normal\":[0,-1,0],\"pair\":null,\"parent\":null,\"space\":20,\"target\":null,\"unit\":1},{\"corners\":[[\"0\",\"0\",\"1500\"],[\"0\",\"0\",\"0\"],[\"4000\",\"0\",\"0\"],[\"4000\",\"0\",\"1500\"]],\"depth\":0,\"end\":\"outside\",\"face\":\"side\",\"id\":4,\"items\":[],\"key\":null,\"normal\":[0,-1,0],\"pair\":null,\"parent\":null,\"space\":20,\"target\":null,\"unit\":1}";

#[test]
fn the_reports_of_two_rooms(rt: HostRuntime) -> Result<(), Fail> {
    let alloc = rt.alloc();
    let left = left_by(alloc, form(alloc, ROOM)?.as_bytes(), 0)?;
    let report = left.report.ok_or("no report")?;
    assert_eq!(rt; report.as_str(), ROOM_REPORT);
    let cut = form(alloc, [2000, 1500, -1000, 4000, 3000, 2500])?;
    let left = left_by(alloc, cut.as_bytes(), 0)?;
    let report = left.report.ok_or("no report of the cut room")?;
    assert!(rt; report.contains(CUT_SIDE));
    Ok(())
}

// The calls of a room are open, read all, read 0, create, write the report, write the message.
#[test]
fn each_fault_has_its_answer(rt: HostRuntime) -> Result<(), Fail> {
    let alloc = rt.alloc();
    let room = form(alloc, ROOM)?;
    let done = "spaces 1, boundaries 6, openings 0, pairs 0\n";
    for (failing, want, said, created, why) in [
        (1, 3, "read fault\n", false, "open fails"),
        (3, 3, "read fault\n", false, "the read at the end fails"),
        (4, 10, "write fault\n", false, "create fails"),
        (
            5,
            10,
            "write fault\n",
            true,
            "the write of the report fails",
        ),
        (6, 0, "", true, "a fault of the message changes no answer"),
        (7, 0, done, true, "there is no seventh call"),
    ] {
        let left = left_by(alloc, room.as_bytes(), failing)?;
        assert_eq!(rt; left.status, want, "{why}");
        assert_eq!(rt; left.said.as_str(), said, "{why}");
        assert_eq!(rt; left.report.is_some(), created, "{why}");
    }
    Ok(())
}

/// A text without spaces, up to its third instance.
const BEFORE_BUILDING: &str =
    "ISO-10303-21;HEADER;FILE_SCHEMA(('IFC4'));ENDSEC;DATA;#1=IFCSIUNIT(*,.LENGTHUNIT.,.MILLI.,.METRE.);#2=IFCUNITASSIGNMENT((#1));";

/// The rest of it, behind the name of its third instance.
const BUILDING: &str =
    "=IFCBUILDING('0000000000000000000003',$,$,$,$,$,$,$,$,$,$,$);ENDSEC;END-ISO-10303-21;";

/// The text without spaces, where its building has this name.
fn building(alloc: Global, name: &str) -> Result<String, AllocError> {
    format!(in alloc; "{BEFORE_BUILDING}{name}{BUILDING}")
}

#[test]
fn each_text_has_its_fault(rt: HostRuntime) -> Result<(), Fail> {
    let alloc = rt.alloc();
    let room = form(alloc, ROOM)?;
    let no_line_feed = room.strip_suffix("\n").ok_or("no line feed")?;
    let no_semicolon = room.strip_suffix(";\n").ok_or("no semicolon")?;
    let one = building(alloc, "#3")?;
    let twice = building(alloc, "#2")?;
    let thrice = building(alloc, "#1=A();#002=A();#2")?;
    let zero = building(alloc, "#0")?;
    for (file, want, said) in [
        ("ISO-10303-21;/*", 5, "syntax at byte 13\n"),
        (zero.as_str(), 5, "syntax at byte 126\n"),
        (twice.as_str(), 6, "refused #2: Duplicate\n"),
        (thrice.as_str(), 6, "refused #1: Duplicate\n"),
        (one.as_str(), 6, "refused #0: Unbuilt\n"),
        // The form without its last line feed, and without its last semicolon.
        (no_line_feed, 6, "refused #0: Unbuilt\n"),
        (no_semicolon, 5, "syntax at byte 603\n"),
    ] {
        let left = left_by(alloc, file.as_bytes(), 0)?;
        assert_eq!(rt; left.status, want, "{file}");
        assert_eq!(rt; left.said.as_str(), said, "{file}");
        assert!(rt; left.report.is_none(), "{file}");
    }
    Ok(())
}

#[test]
fn words_that_are_no_command(rt: HostRuntime) -> Result<(), Fail> {
    let alloc = rt.alloc();
    for (model, option, report) in [
        ("box.ifc", "--report", "box.ifc"),
        ("box.ifc", "--ifc", "r.json"),
        ("demo:3", "--report", "r.json"),
    ] {
        let words = vec![in alloc;
            String::from_str(alloc, model)?,
            String::from_str(alloc, option)?,
            String::from_str(alloc, report)?,
        ]?;
        let mut shelf = shelf(alloc, b"", 0)?;
        let answer = run(alloc, words.as_slice(), &mut shelf);
        assert_eq!(rt; status(&answer), 2, "{model} {option} {report}");
    }
    Ok(())
}
