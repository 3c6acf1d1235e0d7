// The four calls that change a catalogue, and what it starts from.
ghost use Rattle.std.specs.Prelude.{◌≡◌, ℕ, ◌≤◌, ℤ, pos, ◌+ℤ◌, IfOk};
ghost use Rattle.catalogue.specs.Asked.{asked};
ghost use Rattle.catalogue.specs.Fair.{test_p, test_q, tie_p, tie_q};
ghost use Rattle.catalogue.specs.Changes.{Follows, as_cost, corrected, empty, tabled, tested, tied};
ghost use Rattle.plans.specs.Questions.{Question, tie_of};

use crate::catalogues::Table;
use crate::{Catalogue, ChangeRefusal};
use plans::{Test, Tie};
use pricing::Kind;

// A table has at most so many rows.
pub const MOST_ROWS: u32 = 16_777_215;

impl Catalogue {
    // No tables, no ties, no tests. Out of line, since a caller would else write and copy each tie by itself.
    #[inline(never)]
    pub fn new() -> Catalogue
        ensures { asked result ≡ empty }
    {
        Catalogue {
            count: 0,
            tables: [Table {
                rows: 0,
                test: None,
                ties: [None; 10],
            }; 10],
        }
    }

    // Adds a table and answers its number.
    pub fn table(&mut self, rows: u32) -> Result<u8, ChangeRefusal>
        ensures outcome { Follows (tabled (asked self.old) rows) (asked self.old) result (asked self.new) }
        ensures number { IfOk result (λ n. n ≡ self.old.count) }
    {
        let number = self.count;
        if number >= 10 {
            return Err(ChangeRefusal::TenTables);
        }
        if rows > MOST_ROWS {
            return Err(ChangeRefusal::TooManyRows);
        }
        self.tables[number as usize].rows = rows;
        self.count = number + 1;
        Ok(number)
    }

    // The tie that was given from one table to another.
    fn given_tie(&self, table: u8, other: u8) -> Option<Tie>
        ensures value { result ≡ (asked self.now).tie table other }
        ensures fair { (1 ≤ tie_q result) × (tie_p result ≤ tie_q result) }
    {
        let from = self.tables.get(table as usize)?;
        from.ties.get(other as usize).copied().flatten()
    }

    // The tie of two tables, whichever way round it was given.
    #[tactic(auto, unfolding(plans::specs::Questions::tie_of))]
    pub fn tie_of(&self, table: u8, other: u8) -> Option<Tie>
        ensures value { result ≡ tie_of (asked self.now) table other }
        ensures fair { (1 ≤ tie_q result) × (tie_p result ≤ tie_q result) }
    {
        self.given_tie(table, other)
            .or_else(|| self.given_tie(other, table))
    }

    // The test on a table.
    pub fn test_of(&self, table: u8) -> Option<Test>
        ensures value { result ≡ (asked self.now).test table }
        ensures fair { (1 ≤ test_q result) × (test_p result ≤ test_q result) }
    {
        self.tables.get(table as usize).and_then(|table| table.test)
    }

    // Sets the tie between two tables.
    pub fn tie(
        &mut self,
        table: u8,
        other: u8,
        p: u16,
        q: u16,
        cost: u16,
    ) -> Result<(), ChangeRefusal>
        ensures { Follows (tied (asked self.old) table other p q cost) (asked self.old) result (asked self.new) }
    {
        if table >= self.count || other >= self.count {
            return Err(ChangeRefusal::NoSuchTable);
        }
        if table == other {
            return Err(ChangeRefusal::SameTable);
        }
        if q == 0 || p > q {
            return Err(ChangeRefusal::BadSelectivity);
        }
        if self.tie_of(table, other).is_some() {
            return Err(ChangeRefusal::AlreadyTied);
        }
        self.tables[table as usize].ties[other as usize] = Some(Tie { p, q, cost });
        Ok(())
    }

    // Sets the test on a table. A number that no kind has is refused here, in its place among the causes.
    pub fn test(
        &mut self,
        table: u8,
        p: u16,
        q: u16,
        cost: u16,
        kind: u8,
    ) -> Result<(), ChangeRefusal>
        ensures { Follows (tested (asked self.old) table p q cost kind) (asked self.old) result (asked self.new) }
    {
        if table >= self.count {
            return Err(ChangeRefusal::NoSuchTable);
        }
        if q == 0 || p > q {
            return Err(ChangeRefusal::BadSelectivity);
        }
        let kind = Kind::try_from(kind)?;
        if self.test_of(table).is_some() {
            return Err(ChangeRefusal::AlreadyTested);
        }
        self.tables[table as usize].test = Some(Test { p, q, cost, kind });
        Ok(())
    }

    // Adds to the cost of a table's test, exactly.
    pub fn correct(&mut self, table: u8, by: i32) -> Result<(), ChangeRefusal>
        ensures { Follows (corrected (asked self.old) table by) (asked self.old) result (asked self.new) }
    {
        if table >= self.count {
            return Err(ChangeRefusal::NoSuchTable);
        }
        let test = self.test_of(table).ok_or(ChangeRefusal::NoTest)?;
        let cost = corrected_cost(test.cost, by).ok_or(ChangeRefusal::CostOutOfRange)?;
        self.tables[table as usize].test = Some(Test { cost, ..test });
        Ok(())
    }
}

// The cost and the correction, added exactly; none where that leaves 0 to 65,535.
fn corrected_cost(cost: u16, by: i32) -> Option<u16>
    ensures { result ≡ as_cost (pos cost +ℤ by) }
{
    u16::try_from(cost as i64 + by as i64).ok()
}
