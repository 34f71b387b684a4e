/// Why no further byte came.
#[derive(Clone, Copy)]
pub enum Stop {
    /// The input ended.
    Ended,
    /// The connection failed, and has counted it.
    Failed,
}
