use card_events::{Name, Request};

/// What a line says.
#[derive(Drop)]
pub enum Line {
    Request(Request),
    /// The account of this name is to be shown. It isn't a request, and isn't kept.
    Show(Name),
    /// The first field that is missing, surplus or not of its form, the word being field 1; 0 for a line of more than 512 bytes.
    Bad(u8),
}

/// The number of the first field that is bad, for which a line or a record isn't read.
#[derive(Clone, Copy)]
pub struct BadField(pub u8);
