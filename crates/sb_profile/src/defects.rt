// The defects of a file.

/// What is wrong with a file, in the order in which it is judged.
#[derive(Clone, Copy, PartialEq)]
pub enum Code {
    /// The header has not exactly one FILE_SCHEMA with one list of one string, `IFC4`. Of no
    /// instance: 0.
    Schema,
    /// The file has not exactly one length unit that is read, metre or millimetre. Of no instance: 0.
    Units,
    /// The file has no IFCBUILDING: 0. Or several: of the second.
    Building,
    /// An instance of a class that is refused by name.
    Class,
    /// An instance that is read has other attributes than its entity.
    Fields,
    /// No instance has the number, to which a read one leads.
    Missing,
    /// A taken product, whose chain of placements does not end at the building's, is longer than 64, or
    /// has an instance of another entity.
    Chain,
    /// A taken product that is turned otherwise than by quarters, in its placement or its shape.
    Turned,
    /// A taken product whose shape is no extruded solid of one of the three profiles.
    Shape,
    /// A taken product with a length or a world coordinate out of range.
    Range,
    /// A taken product with a world coordinate near no whole millimetre.
    OffGrid,
    /// A taken product whose loops give no prism.
    Loops,
    /// A taken element whose layers are at fault: more than 64, a thickness beyond 0 to 10,000,000 µm, or a
    /// set, a layer, a direction or a sense that is none.
    Layers,
}

/// A defect of a file.
#[derive(Clone, Copy, PartialEq)]
pub struct Defect {
    /// The number of the instance, or 0 where the defect is of none.
    pub number: u32,
    /// What is wrong.
    pub code: Code,
}
