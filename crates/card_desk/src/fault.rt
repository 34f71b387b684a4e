ghost use Rattle.std.specs.Prelude.{◌≡◌};
ghost use Rattle.card_desk.specs.declared.fault.Fault.TheVariants as fault;
ghost use Rattle.card_desk.specs.declared.fault.LoadFault.TheVariants as load_fault;

use card_events::NoMemory;
use std::alloc::AllocError;

/// Why a request was not carried out.
#[derive(Clone, Copy, Debug)]
pub enum Fault {
    /// The keeper failed.
    Keeper,
    /// Memory was wanted and isn't there.
    Memory,
}

impl From<NoMemory> for Fault {
    ghost from_gives = { λ _ why. why ≡ fault.Memory };

    fn from(_: NoMemory) -> Self {
        Fault::Memory
    }
}

impl From<AllocError> for Fault {
    ghost from_gives = { λ _ why. why ≡ fault.Memory };

    fn from(_: AllocError) -> Self {
        Fault::Memory
    }
}

/// Why kept rows give no desk.
#[derive(Clone, Copy, Debug)]
pub enum LoadFault {
    /// The keeper failed.
    Keeper,
    /// Memory was wanted and isn't there.
    Memory,
    /// The row of this number, counted from 1, is the first whose number is another, whose body is no spelling, or whose
    /// request is refused or a repeat in its place.
    Damaged(u64),
}

impl From<NoMemory> for LoadFault {
    ghost from_gives = { λ _ fault. fault ≡ load_fault.Memory };

    fn from(_: NoMemory) -> Self {
        LoadFault::Memory
    }
}
