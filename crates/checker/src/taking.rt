// Taking the operations of a plan one by one, as long as a valid plan may come of them.
ghost use Rattle.std.specs.Prelude.{◌≡◌, ◌+◌, ◌≤◌, ◌⊎◌, [], MatchOption};
ghost use Rattle.catalogue.specs.Asked.{asked};
ghost use Rattle.checker.specs.Steps.{more_join, more_table, more_test, step, testable};
ghost use Rattle.checker.specs.Taken.{Holds, Leads};
ghost use Rattle.plans.specs.Questions.{Question};

use crate::operations::Operation;
use crate::parts::Parts;
use catalogue::Catalogue;
use plans::{NoStep, Step};
use sets::{Row, SmallSet};

// The tables and the tests of two parts that share none.
fn together(left: Row, right: Row) -> Option<Row>
    ensures { MatchOption result ((1024 ≤ left.tables.bits + right.tables.bits) ⊎ (1024 ≤ left.tests.bits + right.tests.bits)) (λ both. (both.tables.bits ≡ left.tables.bits + right.tables.bits) × (both.tests.bits ≡ left.tests.bits + right.tests.bits)) }
{
    let tables = SmallSet::from_bits(left.tables.bits() + right.tables.bits())?;
    let tests = SmallSet::from_bits(left.tests.bits() + right.tests.bits())?;
    Some(Row { tables, tests })
}

// Whether the test is given and may be made on the part.
fn may_test(catalogue: &Catalogue, part: Row, test: u8) -> bool
    ensures { result ≡ testable (asked catalogue.now) test part.tables.bits part.tests.bits }
{
    catalogue.test_of(test).is_some() && part.tables.contains(test) && !part.tests.contains(test)
}

impl Parts {
    // Before the first operation there are none.
    pub(crate) fn none() -> Parts
        ensures { (Q : Question) → Holds Q result [] }
    {
        Parts {
            rows: [Row::first(); 10],
            depth: 0,
            seen: SmallSet::empty(),
        }
    }

    // A table, if it is given and stands in no part.
    fn add_table(&mut self, catalogue: &Catalogue, table: u8) -> Option<Operation>
        ensures { Leads (asked catalogue.now) self.old (more_table (asked catalogue.now) table) result self.new }
    {
        if table >= catalogue.count() || self.seen.contains(table) {
            return None;
        }
        let tables = SmallSet::single(table)?;
        let seen = self.seen.with_member(table)?;
        let row = Row {
            tables,
            tests: SmallSet::empty(),
        };
        self.rows[self.depth] = row;
        self.depth += 1;
        self.seen = seen;
        Some(Operation::Table(row))
    }

    // A test on the newest part, if it may be made there.
    fn add_test(&mut self, catalogue: &Catalogue, test: u8) -> Option<Operation>
        ensures { Leads (asked catalogue.now) self.old (more_test (asked catalogue.now) test) result self.new }
    {
        if self.depth == 0 {
            return None;
        }
        let input = self.rows[self.depth - 1];
        if !may_test(catalogue, input, test) {
            return None;
        }
        let tests = input.tests.with_member(test)?;
        self.rows[self.depth - 1] = Row {
            tables: input.tables,
            tests,
        };
        Some(Operation::Test(test, input))
    }

    // A join of the two newest parts, if a tie links them.
    fn add_join(&mut self, catalogue: &Catalogue) -> Option<Operation>
        ensures { Leads (asked catalogue.now) self.old (more_join (asked catalogue.now)) result self.new }
    {
        if self.depth < 2 {
            return None;
        }
        let right = self.rows[self.depth - 1];
        let left = self.rows[self.depth - 2];
        if !catalogue.linked(left.tables, right.tables) {
            return None;
        }
        let both = together(left, right)?;
        self.rows[self.depth - 2] = both;
        self.depth -= 1;
        Some(Operation::Join(left, right, both))
    }

    // One more operation, as a pair of bytes, if a valid plan may come of it.
    pub(crate) fn take(&mut self, catalogue: &Catalogue, first: u8, second: u8) -> Option<Operation>
        ensures { Leads (asked catalogue.now) self.old (step (asked catalogue.now) first second) result self.new }
    {
        match Step::try_from([first, second]) {
            Ok(Step::Table(table)) => self.add_table(catalogue, table),
            Ok(Step::Test(table)) => self.add_test(catalogue, table),
            Ok(Step::Join) => self.add_join(catalogue),
            Err(NoStep) => None,
        }
    }
}
