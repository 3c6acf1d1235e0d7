// How many tables there are, and the rows of each.
ghost use Rattle.std.specs.Prelude.{◌≡◌, ◌<◌, ◌≤◌};
ghost use Rattle.catalogue.specs.Asked.{asked};

use crate::Catalogue;

impl Catalogue {
    // How many tables there are.
    pub fn count(&self) -> u8
        ensures value { result ≡ (asked self.now).count }
        ensures few { result ≤ 10 }
    {
        self.count
    }

    // The rows of a table, 0 for a number that no table can have.
    pub fn rows_of(&self, table: u8) -> u32
        ensures value { table < 10 → result ≡ (asked self.now).rows table }
        ensures beyond { 10 ≤ table → result ≡ 0 }
    {
        self.tables
            .get(table as usize)
            .map_or(0, |table| table.rows)
    }
}
