use thiserror::Error;

/// Why an input is not indexed.
#[derive(Debug, Drop, Error)]
pub enum StepError {
    /// The input is no exchange text. The tokens before this byte begin some text, and no text
    /// begins with them followed by what stands here: a token, a byte with which none begins, or
    /// the end of the input.
    #[error("syntax at byte {0}")]
    Syntax(usize),
    /// The input is an exchange text, and this is the least number that two instances have.
    #[error("number {0} is used twice")]
    Duplicate(u32),
    /// There was no memory.
    #[error("no memory")]
    NoMemory,
}

/// Why an instance has no parameters.
#[derive(Debug, Drop, Error)]
pub enum ParamsError {
    /// No instance has this number.
    #[error("no instance has number {0}")]
    Missing(u32),
    /// There was no memory.
    #[error("no memory")]
    NoMemory,
}
