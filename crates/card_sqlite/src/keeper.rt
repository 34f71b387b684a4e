use crate::{StoreKeeper, Told};
use card_ports::{Keeper, KeeperFault, Row, Rows};
use std::alloc::Global;

impl<S: Told> Keeper for StoreKeeper<S> {
    ghost use Rattle.sqlite.specs.Held.{state};
    ghost use Rattle.card_sqlite.specs.Told.{told};

    ghost rows = { λ k. told S.Told.tells (state S.Store k.conn) };

    ghost faults = { λ k. k.faults };

    fn load(&mut self, alloc: Global) -> Result<Vec<Row>, KeeperFault> {
        let _before = self.schema();
        let loaded = self.load_rows(alloc);
        let _after = self.schema();
        loaded
    }

    fn load_packed(&mut self, alloc: Global) -> Result<Rows, KeeperFault> {
        let _before = self.schema();
        let loaded = self.load_rows_packed(alloc);
        let _after = self.schema();
        loaded
    }

    fn append(&mut self, _: Global, more: &[Row]) -> Result<(), KeeperFault> {
        let _before = self.schema();
        let appended = self.append_rows(more);
        let _after = self.schema();
        appended
    }
}
