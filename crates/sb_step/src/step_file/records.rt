/// The form of a record.
#[derive(Clone, Copy)]
pub enum Form {
    /// A keyword with a parameter list. The keyword ends at this byte.
    Simple(usize),
    /// Records in parentheses.
    Complex,
}

/// Where a record stands in the text: from its first byte, which begins its keyword or its
/// parenthesis, up to the semicolon behind it.
#[derive(Clone, Copy)]
pub struct Record {
    pub start: usize,
    pub end: usize,
    pub form: Form,
}
