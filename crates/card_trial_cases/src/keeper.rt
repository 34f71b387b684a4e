use card_ports::{Keeper, KeeperFault, Row, Rows};
use std::alloc::Global;

// Keeps nothing, and tells nothing.
#[derive(Drop)]
pub struct Untold {}

impl Keeper for Untold {
    ghost use Rattle.std.specs.Prelude.{None};

    ghost rows = { λ k. None };

    ghost faults = { λ k. 0 };

    fn load_packed(&mut self, alloc: Global) -> Result<Rows, KeeperFault> {
        Ok(Rows::new(alloc))
    }

    fn append(&mut self, _alloc: Global, _more: &[Row]) -> Result<(), KeeperFault> {
        Ok(())
    }
}
