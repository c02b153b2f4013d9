use thiserror::Error;

/// Why loops are no plan.
#[derive(Debug, Drop, Error)]
pub enum LoopError {
    /// A loop keeps fewer than three points, or there is no loop.
    #[error("a loop keeps fewer than three points")]
    Flat,
    /// No loop is flat, and two edges meet otherwise than as consecutive ends.
    #[error("two edges meet")]
    Knot,
    /// There is no memory.
    #[error("no memory")]
    NoMemory,
}
