// The choice of a row, and the rows of its parts.
ghost use Rattle.std.specs.Prelude.{◌<◌, ◌≤◌, bit_and};
ghost use Rattle.readoff.specs.Choices.{Is, Says};
ghost use Rattle.readoff.specs.Leads.{choice_in};

use sets::{Row, SmallSet, position};

// The code of a bare table, and the first of those of tests and of joins.
pub const BARE_TABLE: u16 = 1;

pub const FIRST_TEST: u16 = 256;

pub const FIRST_JOIN: u16 = 4096;

// What stands on top of a plan, and the rows of what is below it.
#[derive(Clone, Copy, PartialEq, Eq, Debug)]
pub enum Choice {
    Table(u8),
    Test { test: u8, input: Row },
    Join { left: Row, right: Row },
}

// The choice of the row, unless it has none.
pub fn choice_at(choices: &[u16], tested: SmallSet, row: Row) -> Option<Choice>
    ensures { Says (choice_in choices.now tested.bits row.tables.bits row.tests.bits) row.tables.bits row.tests.bits result }
{
    choice_of(*choices.get(position(row, tested))?, row)
}

// What the code means for the row, if it is the code of a choice that the row could have.
fn choice_of(code: u16, row: Row) -> Option<Choice>
    ensures { Says code row.tables.bits row.tests.bits result }
{
    if code >= FIRST_JOIN {
        join_of(code, row)
    } else if code >= FIRST_TEST {
        test_of(code, row)
    } else if code == BARE_TABLE {
        table_of(row)
    } else {
        None
    }
}

// A bare table: the row has one table, and no tests.
fn table_of(row: Row) -> Option<Choice>
    ensures { Says 1 row.tables.bits row.tests.bits result }
{
    let table = row.tables.lowest()?;
    if !row.tests.is_empty() {
        return None;
    }
    if !row.tables.without_member(table).is_empty() {
        return None;
    }
    Some(Choice::Table(table))
}

// A test on top: it is one of the row's.
fn test_of(code: u16, row: Row) -> Option<Choice>
    requires { (256 ≤ code) × (code < 4096) }
    ensures { Says code row.tables.bits row.tests.bits result }
{
    let number = code - FIRST_TEST;
    if number >= 10 {
        return None;
    }
    let test = number as u8;
    if !row.tests.contains(test) {
        return None;
    }
    Some(Choice::Test {
        test,
        input: row.without_test(test),
    })
}

// A join: the tables of the left side are some of the row's, but not all.
fn join_of(code: u16, row: Row) -> Option<Choice>
    requires { 4096 ≤ code }
    ensures { Says code row.tables.bits row.tests.bits result }
{
    let tables = SmallSet::from_bits(code - FIRST_JOIN)?;
    if !tables.is_subset(row.tables) {
        return None;
    }
    let others = row.tables.without(tables);
    if tables.is_empty() || others.is_empty() {
        return None;
    }
    Some(Choice::Join {
        left: row.on(tables),
        right: row.on(others),
    })
}
