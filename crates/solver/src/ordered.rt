// The rows in their order.
ghost use Rattle.std.specs.Prelude.{◌≡◌, IsSomeAnd};
ghost use Rattle.solver.specs.Ordered.{row_steps};

use sets::{Row, SmallSet, next_row};

// The rows from `next` on, where `tested` are the tables that have a test; the check has no proof yet of `successors` with a
// closure in a generic function's loop.
#[derive(Drop)]
pub(crate) struct Rows {
    next: Option<Row>,
    tested: SmallSet,
}

impl Rows {
    // All rows of ten tables.
    pub(crate) fn all(tested: SmallSet) -> Rows
        ensures first { IsSomeAnd result.next (λ row. (row.tables.bits ≡ 0) × (row.tests.bits ≡ 0)) }
        ensures tested { result.tested ≡ tested }
    {
        Rows {
            next: Some(Row::first()),
            tested,
        }
    }
}

impl Iterator for Rows {
    type Item = Row;

    ghost next_gives = { row_steps };

    fn next(&mut self) -> Option<Row> {
        let row = self.next?;
        self.next = next_row(row, self.tested);
        Some(row)
    }
}
