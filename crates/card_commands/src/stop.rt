/// Why a run stops before its input ends.
#[derive(Clone, Copy)]
pub enum Stop {
    /// The source failed.
    Source,
    /// The sink failed.
    Sink,
    /// The keeper failed.
    Keeper,
    /// Memory was wanted and isn't there.
    Memory,
    /// So many bytes were read, and no end came.
    Endless,
}
