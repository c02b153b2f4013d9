//! What is written.

use tests_lists::Shape;

/// Which boundaries and which materials.
#[derive(Clone, Copy)]
pub enum Kind {
    /// One item each, all of one construction.
    One,
    /// One item each, whose thickness is its own.
    Own,
    /// Ten items each, all of one construction.
    Ten,
    /// Ten items each, of which the first has a thickness of its own.
    TenOwn,
    /// One item each, and corners whose denominators are near 4·10^24.
    Steep,
    /// Ten items each, of one element.
    Short,
    /// The same; its material has a name of 16 MB.
    Long,
    /// One item each, of an element of its own; the names of materials differ where they begin.
    Apart,
    /// The same; the names differ where they end.
    Alike,
}

/// The kind of this name.
pub fn kind_of(word: &str) -> Option<Kind> {
    match word {
        "one" => Some(Kind::One),
        "own" => Some(Kind::Own),
        "ten" => Some(Kind::Ten),
        "ten_own" => Some(Kind::TenOwn),
        "steep" => Some(Kind::Steep),
        "short" => Some(Kind::Short),
        "long" => Some(Kind::Long),
        "apart" => Some(Kind::Apart),
        "alike" => Some(Kind::Alike),
        _ => None,
    }
}

/// What shape the spaces have.
pub fn shape_of(kind: Kind) -> Shape {
    match kind {
        Kind::Steep => Shape::Wedge,
        _ => Shape::Box,
    }
}

/// How many items a boundary has.
pub fn items_of(kind: Kind) -> u32 {
    match kind {
        Kind::Ten | Kind::TenOwn | Kind::Short | Kind::Long => 10,
        _ => 1,
    }
}

/// Whether the first item has a thickness of its own.
pub fn has_own(kind: Kind) -> bool {
    match kind {
        Kind::Own | Kind::TenOwn => true,
        _ => false,
    }
}

/// How many elements there are under so many boundaries.
pub fn elements_of(kind: Kind, count: u32) -> u32 {
    match kind {
        Kind::Short | Kind::Long => 1,
        Kind::Apart | Kind::Alike => count,
        _ => 10,
    }
}
