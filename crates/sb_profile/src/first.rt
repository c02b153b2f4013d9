// The first defect of a file.
ghost use Rattle.std.specs.Prelude.{◌≡◌, None, IfOk};
ghost use Rattle.sb_profile.specs.Contents.{Contents, Says};
ghost use Rattle.sb_profile.specs.Defects.{Occurs, file_codes};
ghost use Rattle.sb_profile.specs.First.{IsFirst, IsFirstDefect, defect_at};
ghost use Rattle.sb_profile.specs.Steps.Kinds.{AreSorted};
ghost use Rattle.sb_profile.specs.Steps.Read as spec;
ghost use Rattle.sb_profile.specs.Steps.Read.{AreLowest, AreTables, IsWhole, head_codes, read_codes};
ghost use Rattle.sb_profile.specs.Following.{building_placement};
ghost use Rattle.sb_profile.specs.Verdicts as verdicts;
ghost use Rattle.sb_profile.specs.Verdicts.{IsVerdict};

use crate::defects::{Code, Defect};
use crate::following::bodies::bodies;
use crate::following::found::{Found, join};
use crate::following::leading::first_leads;
use crate::following::survey::survey;
use crate::reading::buildings::{in_buildings, is_ifc4, placement};
use crate::reading::kinds::{Kinds, by_keyword};
use crate::reading::lowest::lowest;
use crate::reading::units::unit;
use crate::tables::{Tables, read_tables};
use sb_fraction::Unit;
use sb_step::StepFile;
use std::alloc::{AllocError, Global};

/// What is read of a file that has no defect of its own: its unit, the placement of its building, and the
/// tables of its products.
#[derive(Drop)]
pub struct Taken {
    pub unit: Unit,
    pub building: Option<u32>,
    pub tables: Tables,
}

/// What is found of a file.
#[derive(Drop)]
pub enum Verdict {
    /// It has this first defect.
    Defect(Defect),
    /// It has none of the codes of a file.
    Sound(Taken),
}

/// The first defect of a file by the codes of [`Code`] up to `Missing`: of the first that occurs, at the
/// lowest number at which it does. `None`: exactly where none of them occurs.
///
/// `Err`: there was no memory.
pub fn first_defect(alloc: Global, file: &StepFile<'_>) -> Result<Option<Defect>, AllocError>
    ensures { IfOk result (IsFirstDefect file.now file_codes) }
{
    let verdict = judge(alloc, file)?;
    Ok(defect_in(verdict))
}

fn defect_in(verdict: Verdict) -> Option<Defect>
    ensures { result ≡ verdicts.defect_in verdict }
{
    match verdict {
        Verdict::Defect(defect) => Some(defect),
        Verdict::Sound(_) => None,
    }
}

/// The first defect of a file by the same codes, or, exactly where it has none of them, its unit, the
/// placement of its building and the tables of its products, which were made on the way.
///
/// `Err`: there was no memory.
pub fn judge(alloc: Global, file: &StepFile<'_>) -> Result<Verdict, AllocError>
    ensures { IfOk result (λ verdict. (c : Contents) → Says file.now c → IsVerdict c verdict) }
{
    let kinds = by_keyword(alloc, file)?;
    match head_defect(file, &kinds) {
        Some(defect) => Ok(Verdict::Defect(defect)),
        None => {
            let read = read(alloc, file, &kinds)?;
            Ok(judged(file, &kinds, read))
        }
    }
}

/// What was read, where the codes that are judged before do not occur.
fn judged(file: &StepFile<'_>, kinds: &Kinds, read: Whole) -> Verdict
    ensures { (c : Contents) → Says file.now c → AreSorted c c.numbers kinds.now
        → IsFirst (Occurs c) head_codes None → IsWhole c read → IsVerdict c result }
{
    match read_defect(read.found.unfit, read.found.absent) {
        Some(found) => Verdict::Defect(found),
        None => match unit(file, kinds.assignments.as_slice()) {
            Some(unit) => Verdict::Sound(Taken {
                unit,
                building: read.building,
                tables: read.tables,
            }),
            // No file comes here: `Units` was judged before.
            None => Verdict::Defect(defect(0, Code::Units)),
        },
    }
}

/// The first defect of the codes that are judged before any instance is read.
fn head_defect(file: &StepFile<'_>, kinds: &Kinds) -> Option<Defect>
    ensures { (c : Contents) → Says file.now c → AreSorted c c.numbers kinds.now
        → IsFirst (Occurs c) head_codes result }
{
    let schema = is_ifc4(file);
    let unit = unit(file, kinds.assignments.as_slice()).is_some();
    let buildings = in_buildings(kinds.buildings.as_slice());
    let refused = lowest(kinds.refused.as_slice());
    head_of(schema, unit, buildings, refused)
}

fn head_of(schema: bool, unit: bool, buildings: Option<u32>, refused: Option<u32>) -> Option<Defect>
    ensures { result ≡ spec.head_of schema unit buildings refused }
{
    if !schema {
        return Some(defect(0, Code::Schema));
    }
    if !unit {
        return Some(defect(0, Code::Units));
    }
    match buildings {
        Some(number) => Some(defect(number, Code::Building)),
        None => Some(defect(refused?, Code::Class)),
    }
}

fn read_defect(unfit: Option<u32>, absent: Option<u32>) -> Option<Defect>
    ensures { result ≡ spec.read_of unfit absent }
{
    match unfit {
        Some(number) => Some(defect(number, Code::Fields)),
        None => Some(defect(absent?, Code::Missing)),
    }
}

fn defect(number: u32, code: Code) -> Defect
    ensures { result ≡ defect_at number code }
{
    Defect { number, code }
}

/// All that is read of a file.
#[derive(Drop)]
pub(crate) struct Whole {
    pub found: Found,
    pub building: Option<u32>,
    pub tables: Tables,
}

/// All instances that are read: the lowest that is not of its row, and the lowest that is absent, and the
/// tables of products.
fn read(alloc: Global, file: &StepFile<'_>, kinds: &Kinds) -> Result<Whole, AllocError>
    ensures lowest { IfOk result (λ read. (c : Contents) → Says file.now c
        → AreSorted c c.numbers kinds.now → AreLowest c read.found.unfit read.found.absent) }
    ensures tables { IfOk result (λ read. (c : Contents) → Says file.now c
        → AreSorted c c.numbers kinds.now → AreTables c read.tables) }
    ensures building { IfOk result (λ read. (c : Contents) → Says file.now c
        → AreSorted c c.numbers kinds.now → read.building ≡ building_placement c) }
{
    let building = placement(alloc, file, kinds.buildings.as_slice())?;
    let mut unfit = None;
    let tables = read_tables(alloc, file, kinds, &mut unfit)?;
    let mut found = Found {
        leads: Vec::new(alloc),
        unfit,
        absent: None,
    };
    let placed = first_leads(alloc, file, &tables, building, &mut found)?;
    let bodies = bodies(alloc, file, found.leads.as_slice())?;
    join(&mut found, &placed)?;
    survey(alloc, file, &bodies, &mut found)?;
    Ok(Whole {
        found,
        building,
        tables,
    })
}
