// The rows: one for each set of tables and each set of tests on them, and their order.
ghost use Rattle.std.specs.Prelude.{◌≡◌, ◌+◌, ◌-◌, ◌*◌, ◌^◌, ◌<◌, ◌≤◌, true, false, MatchOption, bit_and};
ghost use Rattle.sets.specs.Sets.{has};
ghost use Rattle.sets.specs.Order.{RowsInOrder};
ghost use Rattle.sets.specs.Rows.{contracted, before, place_of, row_count, tests_on, NextRow};
ghost use Rattle.std.specs.Option.{SomeIff};

use crate::products::power;
use crate::{SmallSet, product};

// Tables, and tests on them.
#[derive(Clone, Copy, PartialEq, Eq, Debug)]
pub struct Row {
    pub tables: SmallSet,
    pub tests: SmallSet,
}

impl Row {
    // The row that stands first: no tables, and no tests.
    pub fn first() -> Row
        ensures tables { result.tables.bits ≡ 0 }
        ensures tests { result.tests.bits ≡ 0 }
    {
        Row {
            tables: SmallSet::empty(),
            tests: SmallSet::empty(),
        }
    }

    // The tables, with those of the row's tests that are on them.
    pub fn on(self, tables: SmallSet) -> Row
        ensures tables { result.tables.bits ≡ tables.bits }
        ensures tests { result.tests.bits ≡ bit_and self.tests.bits tables.bits }
    {
        Row {
            tables,
            tests: self.tests.intersection(tables),
        }
    }

    // The same tables, without one of the tests.
    pub fn without_test(self, test: u8) -> Row
        ensures tables { result.tables.bits ≡ self.tables.bits }
        ensures inside { has self.tests.bits test ≡ true → result.tests.bits ≡ self.tests.bits - 2 ^ test }
        ensures outside { has self.tests.bits test ≡ false → result.tests.bits ≡ self.tests.bits }
    {
        Row {
            tables: self.tables,
            tests: self.tests.without_member(test),
        }
    }
}

// The number of `tests` among the subsets of `of`: the lowest member of `of` counts 1, the next 2, then 4.
pub fn contracted(tests: SmallSet, of: SmallSet) -> u16
    ensures { result ≡ contracted tests.bits of.bits }
{
    let mut number = 0;
    for test in (0..10u8).rev() {
        if of.contains(test) {
            number *= 2;
            if tests.contains(test) {
                number += 1;
            }
        }
    }
    number
}

// How many rows stand before those of `tables`: for each table of them 2^(a + k) 3^b, where a tables below it have no test and b have one,
// and k of those above it in the set have one.
fn rows_before(tables: SmallSet, tested: SmallSet) -> u32
    ensures { result ≡ before tested.bits tables.bits }
{
    let mut left = tables.bits();
    let mut tests = tested.bits();
    let mut twos: usize = 0;
    let mut threes: usize = 0;
    let mut sum: u32 = 0;
    while left != 0 {
        if left % 2 == 1 {
            let above = ((left / 2) & (tests / 2)).count_ones() as usize;
            sum += power(twos + above, threes);
        }
        if tests % 2 == 1 {
            threes += 1;
        } else {
            twos += 1;
        }
        left /= 2;
        tests /= 2;
    }
    sum
}

// The place of a row.
pub fn position(row: Row, tested: SmallSet) -> usize
    ensures { result ≡ place_of tested.bits row.tables.bits row.tests.bits }
{
    let tests = row.tables.intersection(tested);
    rows_before(row.tables, tested) as usize + contracted(row.tests, tests) as usize
}

// How many rows there are for `count` tables, where `tested` are among them.
pub fn row_count(count: u8, tested: SmallSet) -> Option<u32>
    ensures { SomeIff result ((count ≤ 10) × (tested.bits < 2 ^ count)) (row_count count tested.bits) }
{
    let tables = SmallSet::first(count)?;
    if !tested.is_subset(tables) {
        return None;
    }
    let tests = tested.len();
    product(count as usize - tests, tests)
}

// The row after `row`, unless that is the last row of ten tables.
pub fn next_row(row: Row, tested: SmallSet) -> Option<Row>
    ensures { MatchOption result ((row.tables.bits ≡ 1023) × (row.tests.bits ≡ tests_on tested.bits row.tables.bits)) (λ next. NextRow tested.bits row.tables.bits row.tests.bits next.tables.bits next.tests.bits) }
{
    let tests = row.tables.intersection(tested);
    if row.tests == tests {
        let tables = SmallSet::from_bits(row.tables.bits() + 1)?;
        return Some(Row {
            tables,
            tests: SmallSet::empty(),
        });
    }
    Some(Row {
        tables: row.tables,
        tests: row.tests.next_subset(tests),
    })
}

// The places keep the order of the rows.
pub fn rows_are_in_order()
    ensures { RowsInOrder }
{}
