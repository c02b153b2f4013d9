/// A kind of token: one variant for each row of the grammar's table of tokens.
#[derive(Clone, Copy, Debug, PartialEq, Eq)]
pub enum Kind {
    /// `ISO-10303-21` or `END-ISO-10303-21`.
    Word(Word),
    /// An optional `!`, a capital letter or `_`, then capital letters, digits and `_`.
    Keyword,
    /// `#` and digits: the number of an instance, from 1 to 4,294,967,295.
    Name(u32),
    /// An optional sign and digits.
    Integer,
    /// An optional sign, digits, a point, digits or none, and an optional exponent.
    Real,
    /// Bytes in apostrophes, of which each inside is doubled. The inside lies between the first
    /// byte of the span and the last.
    Str,
    /// `.`, a capital letter or `_`, capital letters, digits and `_`, and `.`. Its inside lies
    /// between the first byte of the span and the last.
    Enumeration,
    /// `"`, a digit from 0 to 3, hexadecimal digits, and `"`. Its inside lies between the first
    /// byte of the span and the last.
    Binary,
    /// One of the seven marks.
    Mark(Mark),
}

/// The two words around an exchange text.
#[derive(Clone, Copy, Debug, PartialEq, Eq)]
pub enum Word {
    /// `ISO-10303-21`
    First,
    /// `END-ISO-10303-21`
    Last,
}

/// A token of one byte.
#[derive(Clone, Copy, Debug, PartialEq, Eq)]
pub enum Mark {
    /// `$`: no value.
    Dollar,
    /// `*`: a value that is derived.
    Asterisk,
    /// `(`
    Open,
    /// `)`
    Close,
    /// `,`
    Comma,
    /// `;`
    Semicolon,
    /// `=`
    Equals,
}

/// A token: its kind, and the bytes from `start` up to `end` where it stands in the input.
#[derive(Clone, Copy, Debug, PartialEq, Eq)]
pub struct Token {
    pub kind: Kind,
    pub start: usize,
    pub end: usize,
}

/// The place of a byte with which neither white space, a comment nor a token begins.
#[derive(Clone, Copy, Debug, PartialEq, Eq)]
pub struct BadToken(pub usize);
