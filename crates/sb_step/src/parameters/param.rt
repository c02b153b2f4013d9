use sb_list::Text;
use sqlite_items::{Boxed, Items};

/// A parameter of a record.
#[derive(Drop)]
pub enum Param {
    /// An integer as it stands.
    Int(Text),
    /// A real number as it stands.
    Real(Text),
    /// A string without the apostrophes around it, in which a doubled apostrophe is one. Nothing
    /// else of it is decoded.
    Str(Text),
    /// An enumeration without its points.
    Enumeration(Text),
    /// A binary without its quotes.
    Binary(Text),
    /// The instance of this number.
    Reference(u32),
    /// `$`: no value.
    Null,
    /// `*`: a value that is derived.
    Derived,
    /// A list in parentheses.
    List(Params),
    /// A keyword as it stands, and the one parameter in its parentheses.
    Typed(Text, Boxed<Param>),
}

/// Parameters in order.
pub type Params = Items<Param>;
