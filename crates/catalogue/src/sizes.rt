// Sizes of sets of tables under sets of tests, and what ties two sets.
ghost use Rattle.std.specs.Prelude.{◌≡◌, ℕ, ◌+◌, ◌*◌, ◌^◌, ◌<◌, ◌≤◌, min};
ghost use Rattle.catalogue.specs.Asked.{asked};
ghost use Rattle.catalogue.specs.Members.{from, tied_rows as tied_rows_of};
ghost use Rattle.plans.specs.Questions.{across as across_of, base as base_of, charged as charged_for, linked as linked_by, narrowed as narrowed_by, size as size_of_set, tie_of, up};

use crate::{Catalogue, MOST_ROWS};
use sets::SmallSet;

// n × p / q, rounded up; `div_ceil` would divide twice.
#[tactic(auto, using(crate::proofs::Scaling::up_le))]
fn scaled(n: u64, p: u16, q: u16) -> u64
    requires whole { 1 ≤ q }
    requires part { p ≤ q }
    ensures value { result ≡ up (n * p) q }
    ensures bound { result ≤ n }
{
    ((n as u128 * p as u128 + (q - 1) as u128) / q as u128) as u64
}

impl Catalogue {
    // The rows of a table, or what its test leaves of them if the test is one of `tests`.
    #[tactic(auto, unfolding(plans::specs::Questions::base))]
    fn base(&self, tests: SmallSet, table: u8) -> u32
        requires { table < 10 }
        ensures value { result ≡ base_of (asked self.now) tests.bits table }
        ensures bound { result ≤ 16777215 }
    {
        let rows = self.tables[table as usize].rows;
        match self.test_of(table) {
            Some(test) if tests.contains(table) => scaled(rows as u64, test.p, test.q) as u32,
            _ => rows,
        }
    }

    // n × p / q rounded up, if the two tables are tied.
    fn tied_rows(&self, table: u8, other: u8, n: u64) -> u64
        ensures value { result ≡ tied_rows_of (tie_of (asked self.now) table other) n }
        ensures bound { result ≤ n }
    {
        self.tie_of(table, other)
            .map_or(n, |tie| scaled(n, tie.p, tie.q))
    }

    // n, narrowed by the ties of the table to those of the set above it.
    fn narrowed(&self, table: u8, tables: SmallSet, n: u64) -> u64
        requires { table < 10 }
        ensures value { result ≡ narrowed_by (asked self.now) table (from (table + 1) self.now.count tables.bits) n }
        ensures bound { result ≤ n }
    {
        (table + 1..self.count)
            .filter(|other| tables.contains(*other))
            .fold(n, |left, other| self.tied_rows(table, other, left))
    }

    // The size of a table and of those of the set above it, from the size of those.
    pub(crate) fn size_above(&self, table: u8, tables: SmallSet, tests: SmallSet, rest: u32) -> u32
        requires { table < 10 }
        ensures value { result ≡ min 16777215 (narrowed_by (asked self.now) table (from (table + 1) self.now.count tables.bits) (base_of (asked self.now) tests.bits table * rest)) }
    {
        let pairs = self.base(tests, table) as u64 * rest as u64;
        self.narrowed(table, tables, pairs).min(MOST_ROWS as u64) as u32
    }

    // The size of the tables under the tests.
    pub fn size(&self, tables: SmallSet, tests: SmallSet) -> u32
        ensures value { result ≡ size_of_set (asked self.now) tables.bits tests.bits }
        ensures bound { result ≤ 16777215 }
    {
        let mut size = 1;
        for table in (0..self.count).rev() {
            if tables.contains(table) {
                size = self.size_above(table, tables, tests, size);
            }
        }
        size
    }

    // The rows that a test is charged for where it is put to the tables under the tests.
    pub fn charged(&self, test: u8, tables: SmallSet, tests: SmallSet) -> u32
        ensures { result ≡ charged_for (asked self.now) test tables.bits tests.bits }
    {
        self.size(tables, tests)
    }
}
