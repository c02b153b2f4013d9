// What the machine that reads a text keeps, and what it finds.
use crate::step_file::records::{Form, Record};

/// Where a keyword stands.
#[derive(Clone, Copy)]
pub(crate) struct Span {
    pub start: usize,
    pub end: usize,
}

/// An instance as far as it was read.
#[derive(Clone, Copy)]
pub(crate) struct Part {
    pub number: u32,
    pub start: usize,
    pub form: Form,
}

/// What is wanted next where no parameter list is open.
#[derive(Clone, Copy)]
pub(crate) enum Section {
    Begin,
    BeginSemicolon,
    Header,
    HeaderSemicolon,
    FirstEntity,
    Entities,
    /// The parameter list of an entity ENDSEC, or the semicolon behind the header's end.
    EntityOrEnd(Span),
    EntityOpen(Span),
    EntityEnd(Span),
    Data,
    DataSemicolon,
    Instances,
    Equals(u32),
    Body(u32),
    SimpleOpen(Part),
    FirstRecord(Part),
    RecordOpen(Part),
    NextRecord(Part),
    InstanceEnd(Part),
    EndSemicolon(usize),
    LastWord(usize),
    LastSemicolon(usize),
    End(usize),
}

/// Whose parenthesis is open: that of a list, or that of a typed parameter.
#[derive(Clone, Copy)]
pub(crate) enum Bracket {
    List,
    Typed,
}

/// What is wanted next where a parameter list is open.
#[derive(Clone, Copy)]
pub(crate) enum Want {
    /// A parameter, or the end of an empty list.
    First,
    Parameter,
    /// What stands behind a parameter.
    Next,
    /// The parenthesis behind the keyword of a typed parameter.
    Open,
}

/// What was found at a token.
#[derive(Clone, Copy)]
pub(crate) enum Event {
    Nothing,
    Entity(Record),
    Instance(u32, Record),
}

/// What follows a token outside of parameter lists.
#[derive(Clone, Copy)]
pub(crate) struct Move {
    pub section: Section,
    /// The token opens a parameter list, behind which `section` is wanted.
    pub opens: bool,
    pub event: Event,
}
