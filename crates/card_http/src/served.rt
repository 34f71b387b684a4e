// How a connection ends.
use crate::status::Status;

/// How a connection ends.
#[derive(Clone, Copy)]
pub enum Served {
    /// An answer of this status was written whole.
    Answered(Status),
    /// The input ended inside the request, or the connection failed.
    Cut,
    /// Memory was wanted for the answer and isn't there; a front of it, or nothing, was written.
    Memory,
}
