// Sizes from sizes that are known.
ghost use Rattle.std.specs.Prelude.{◌≡◌, ℕ, ◌-◌, ◌^◌, ◌<◌, true, false, bit_and};
ghost use Rattle.catalogue.specs.Asked.{asked};
ghost use Rattle.catalogue.specs.Members.{Lowest};
ghost use Rattle.plans.specs.Questions.{charged as charged_for, size as size_of_set};

use crate::Catalogue;
use sets::SmallSet;

impl Catalogue {
    // The size of the tables under the tests; `rest` is that of all but the lowest table.
    pub fn size_from(&self, lowest: u8, tables: SmallSet, tests: SmallSet, rest: u32) -> u32
        ensures { Lowest tables.bits lowest → rest ≡ size_of_set (asked self.now) (tables.bits - 2 ^ lowest) (bit_and tests.bits (tables.bits - 2 ^ lowest)) → result ≡ size_of_set (asked self.now) tables.bits tests.bits }
    {
        if lowest >= self.count {
            return 1;
        }
        self.size_above(lowest, tables, tests, rest)
    }

    // The rows that a test is charged for where it is put to tables that have the size.
    pub fn charged_rows(&self, test: u8, size: u32) -> u32
        ensures { (R S : ℕ) → size ≡ size_of_set (asked self.now) R S → result ≡ charged_for (asked self.now) test R S }
    {
        let _ = test;
        size
    }
}
