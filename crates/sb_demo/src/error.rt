use thiserror::Error;

/// Why no model is generated.
#[derive(Debug, Drop, Error)]
pub enum DemoError {
    /// The number of rooms is not from 1 to 40.
    #[error("the number of rooms is not from 1 to 40")]
    BadNumber,
    /// There was no memory.
    #[error("no memory")]
    NoMemory,
}
