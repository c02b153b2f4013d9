//! What is written.

ghost use Rattle.std.specs.Prelude.{◌≤◌};

use tests_lists::Shape;

/// Which boundaries, and of which spaces.
#[derive(Clone, Copy)]
pub enum Kind {
    /// Corners in whole millimetres, over 512 spaces.
    Whole,
    /// Corners whose denominators are near 4·10^24.
    Steep,
    /// Corners in whole millimetres of one space.
    Short,
    /// The same, of a space whose GlobalId has 16 MB.
    Long,
}

/// The kind of this name.
pub fn kind_of(word: &str) -> Option<Kind> {
    match word {
        "whole" => Some(Kind::Whole),
        "steep" => Some(Kind::Steep),
        "short" => Some(Kind::Short),
        "long" => Some(Kind::Long),
        _ => None,
    }
}

/// What shape the spaces have.
pub fn shape_of(kind: Kind) -> Shape {
    match kind {
        Kind::Steep => Shape::Wedge,
        _ => Shape::Box,
    }
}

/// How many spaces there are.
pub fn spaces_in(kind: Kind) -> u16
    ensures { 1 ≤ result }
{
    match kind {
        Kind::Whole | Kind::Steep => 512,
        Kind::Short | Kind::Long => 1,
    }
}

/// How many bytes a GlobalId has.
pub fn length_of(kind: Kind) -> usize {
    match kind {
        Kind::Long => 16_000_000,
        _ => 22,
    }
}
