// The instances that are looked at wherever they stand, by their keywords.
ghost use Rattle.std.specs.Prelude.{◌≡◌, ℕ, [], ◌∷◌, ◌++◌, List, if◌then◌else◌, map, IfOk, OnOk, codes};
ghost use Rattle.std.specs.List.{list_any};
ghost use Rattle.std.specs.Option.{option_copied};
ghost use Rattle.std.specs.Str.{bytes_eq};
ghost use Rattle.sb_schema.specs.Table as spec;
ghost use Rattle.sb_profile.specs.Contents.{Contents, Says};
ghost use Rattle.sb_profile.specs.Steps.Kinds as sorting;
ghost use Rattle.sb_profile.specs.Steps.Kinds.{AreSorted, KeepsProducts, KeepsOthers, kept, element_classes};
ghost use Rattle.sb_profile.specs.Defects.{refused_classes};

use sb_step::StepFile;
use std::alloc::{AllocError, Global};

/// The numbers of instances, in file order, by the keywords that they have.
#[derive(Drop)]
pub(crate) struct Kinds {
    pub buildings: Vec<u32>,
    pub spaces: Vec<u32>,
    pub elements: Vec<u32>,
    pub openings: Vec<u32>,
    pub fillings: Vec<u32>,
    pub voids: Vec<u32>,
    pub fills: Vec<u32>,
    pub materials: Vec<u32>,
    pub types: Vec<u32>,
    pub assignments: Vec<u32>,
    pub refused: Vec<u32>,
}

/// The numbers of a file by their keywords, in one pass.
pub(crate) fn by_keyword(alloc: Global, file: &StepFile<'_>) -> Result<Kinds, AllocError>
    ensures { IfOk result (λ kinds. (c : Contents) → Says file.now c
        → AreSorted c c.numbers kinds) }
{
    let mut kinds = no_kinds(alloc);
    'numbers: for number in file.numbers() {
        let keyword = file.keyword(*number);
        keep_one(&mut kinds, *number, keyword)?;
    }
    Ok(kinds)
}

/// Keeps the number under its keyword, if this is one of those.
fn keep_one(kinds: &mut Kinds, number: u32, keyword: Option<&[u8]>) -> Result<(), AllocError>
    ensures { OnOk result ((c : Contents) (ns : List ℕ)
        → c.keyword number ≡ option_copied keyword.entry → AreSorted c ns kinds.old
        → AreSorted c (ns ++ number ∷ []) kinds.new) }
{
    if !may_count(keyword) {
        return Ok(());
    }
    keep_product(kinds, number, keyword)?;
    keep_other(kinds, number, keyword)?;
    Ok(())
}

/// Whether a keyword begins as one of those that are kept: most do not, and are looked at no further.
fn may_count(keyword: Option<&[u8]>) -> bool
    ensures { result ≡ sorting.may_count (option_copied keyword.entry) }
{
    match keyword {
        Some(keyword) => begins_so(keyword),
        None => false,
    }
}

fn begins_so(keyword: &[u8]) -> bool
    ensures { result ≡ sorting.begins_so keyword.now }
{
    match (keyword.get(3), keyword.get(4)) {
        (Some(first), Some(second)) => is_beginning(*first, *second),
        _ => false,
    }
}

/// Whether the two letters behind IFC are those of a keyword that is kept.
fn is_beginning(first: u8, second: u8) -> bool
    ensures { result ≡ sorting.is_beginning first second }
{
    (first == b'B') & ((second == b'E') | (second == b'U'))
        | (first == b'C') & ((second == b'O') | (second == b'U'))
        | (first == b'D') & (second == b'O')
        | (first == b'O') & (second == b'P')
        | (first == b'R') & ((second == b'E') | (second == b'O'))
        | (first == b'S') & ((second == b'L') | (second == b'P'))
        | (first == b'U') & (second == b'N')
        | (first == b'W') & ((second == b'A') | (second == b'I'))
}

fn no_kinds(alloc: Global) -> Kinds
    ensures { (c : Contents) → AreSorted c [] result }
{
    Kinds {
        buildings: Vec::new(alloc),
        spaces: Vec::new(alloc),
        elements: Vec::new(alloc),
        openings: Vec::new(alloc),
        fillings: Vec::new(alloc),
        voids: Vec::new(alloc),
        fills: Vec::new(alloc),
        materials: Vec::new(alloc),
        types: Vec::new(alloc),
        assignments: Vec::new(alloc),
        refused: Vec::new(alloc),
    }
}

/// Keeps the number of a building or product.
fn keep_product(kinds: &mut Kinds, number: u32, keyword: Option<&[u8]>) -> Result<(), AllocError>
    ensures { OnOk result (KeepsProducts kinds.old kinds.new number (option_copied keyword.entry)) }
{
    let building = is_one_of(keyword, &[b"IFCBUILDING"]);
    keep(&mut kinds.buildings, number, building)?;
    let space = is_one_of(keyword, &[b"IFCSPACE"]);
    keep(&mut kinds.spaces, number, space)?;
    let element = is_element(keyword);
    keep(&mut kinds.elements, number, element)?;
    let opening = is_one_of(keyword, &[b"IFCOPENINGELEMENT"]);
    keep(&mut kinds.openings, number, opening)?;
    let filling = is_one_of(keyword, &[b"IFCDOOR", b"IFCWINDOW"]);
    keep(&mut kinds.fillings, number, filling)
}

/// Keeps the number of a relation, of an assignment of units or of a class that is refused.
fn keep_other(kinds: &mut Kinds, number: u32, keyword: Option<&[u8]>) -> Result<(), AllocError>
    ensures { OnOk result (KeepsOthers kinds.old kinds.new number (option_copied keyword.entry)) }
{
    let voids = is_one_of(keyword, &[b"IFCRELVOIDSELEMENT"]);
    keep(&mut kinds.voids, number, voids)?;
    let fills = is_one_of(keyword, &[b"IFCRELFILLSELEMENT"]);
    keep(&mut kinds.fills, number, fills)?;
    let material = is_one_of(keyword, &[b"IFCRELASSOCIATESMATERIAL"]);
    keep(&mut kinds.materials, number, material)?;
    let by_type = is_one_of(keyword, &[b"IFCRELDEFINESBYTYPE"]);
    keep(&mut kinds.types, number, by_type)?;
    let assignment = is_one_of(keyword, &[b"IFCUNITASSIGNMENT"]);
    keep(&mut kinds.assignments, number, assignment)?;
    let refused = is_refused(keyword);
    keep(&mut kinds.refused, number, refused)
}

fn is_element(keyword: Option<&[u8]>) -> bool
    ensures { result ≡ spec.is_one_of element_classes (option_copied keyword.entry) }
{
    is_one_of(
        keyword,
        &[
            b"IFCWALL",
            b"IFCWALLSTANDARDCASE",
            b"IFCSLAB",
            b"IFCROOF",
            b"IFCCOLUMN",
            b"IFCBEAM",
            b"IFCCOVERING",
        ],
    )
}

fn is_refused(keyword: Option<&[u8]>) -> bool
    ensures { result ≡ spec.is_one_of refused_classes (option_copied keyword.entry) }
{
    is_one_of(
        keyword,
        &[
            b"IFCCURTAINWALL",
            b"IFCSLABSTANDARDCASE",
            b"IFCCOLUMNSTANDARDCASE",
            b"IFCBEAMSTANDARDCASE",
            b"IFCOPENINGSTANDARDCASE",
        ],
    )
}

/// Appends the number, if it passed.
fn keep(list: &mut Vec<u32>, number: u32, passed: bool) -> Result<(), AllocError>
    ensures { OnOk result (list.new.items ≡ list.old.items ++ kept number passed) }
{
    if passed {
        list.push(number)?;
    }
    Ok(())
}

/// Whether there is a keyword, and it is one of these.
pub(crate) fn is_one_of(keyword: Option<&[u8]>, keywords: &[&[u8]]) -> bool
    ensures { result ≡ spec.is_one_of (map (λ k. k.now) keywords.now) (option_copied keyword.entry) }
{
    match keyword {
        Some(keyword) => stands_in(keyword, keywords),
        None => false,
    }
}

fn stands_in(keyword: &[u8], keywords: &[&[u8]]) -> bool
    ensures { result ≡ list_any (λ k. bytes_eq k keyword.now) (map (λ k. k.now) keywords.now) }
{
    let mut found = false;
    for one in keywords {
        found |= *one == keyword;
    }
    found
}
