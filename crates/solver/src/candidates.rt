// The candidates of a row, and the best of them.
ghost use Rattle.std.specs.Prelude.{◌≡◌, ◌<◌, ◌≤◌};
ghost use Rattle.catalogue.specs.Asked.{asked};
ghost use Rattle.plans.specs.Entries.{alone_entry, joining_entry, row_entry, testing_entry};
ghost use Rattle.plans.specs.Questions.{size as size_of_set};
ghost use Rattle.sets.specs.Sets.{◌⊆◌};
ghost use Rattle.solver.specs.Held.{held, tries_by};

use crate::bests::{Tried, best_of};
use crate::left_sides::LeftSides;
use crate::lists::RowTurn;
use plans::Entry;
use pricing::PriceModel;
use readoff::{BARE_TABLE, FIRST_JOIN, FIRST_TEST};
use sets::{Row, SmallSet};

impl<'a, 'w, M: PriceModel> RowTurn<'a, 'w, M> {
    // The join of the left tables with the others, if both sides have plans and a tie links them; `size` is that of the row.
    fn join_candidate(&self, size: u32, left: SmallSet) -> Option<Entry<M::Price>>
        requires sized { size ≡ size_of_set (asked self.now.work.now.catalogue.now) self.now.row.tables.bits self.now.row.tests.bits }
        requires part { left.bits ⊆ self.now.row.tables.bits }
        requires proper { (0 < left.bits) × (left.bits < self.now.row.tables.bits) }
        ensures { let w = self.now.work.now in result ≡ joining_entry (M.meaning w.model.now) (asked w.catalogue.now) (held self.now.prices.now self.now.choices.now w.places.now.tested.bits) self.now.row.tables.bits self.now.row.tests.bits left.bits }
    {
        let work = self.work;
        let right = self.row.tables.without(left);
        if !work.cuts.linked(left, right) {
            return None;
        }
        let a = self.side_at(self.row.on(left))?;
        let b = self.side_at(self.row.on(right))?;
        let costs = work.cuts.across(left, right);
        Some(Entry {
            price: work
                .model
                .joined(a.price, b.price, a.size, b.size, size, costs),
            choice: FIRST_JOIN + left.bits(),
        })
    }

    // The test of a table on top, if it is one of the row's and what is below has a plan.
    fn test_candidate(&self, table: u8) -> Option<Entry<M::Price>>
        ensures { let w = self.now.work.now in result ≡ testing_entry (M.meaning w.model.now) (asked w.catalogue.now) (held self.now.prices.now self.now.choices.now w.places.now.tested.bits) self.now.row.tables.bits self.now.row.tests.bits table }
    {
        let work = self.work;
        if !self.row.tests.contains(table) {
            return None;
        }
        let test = work.catalogue.test_of(table)?;
        let below = self.side_at(self.row.without_test(table))?;
        let rows = work.catalogue.charged_rows(table, below.size);
        Some(Entry {
            price: work.model.tested(below.price, rows, test.cost, test.kind),
            choice: FIRST_TEST + table as u16,
        })
    }

    // A bare table, if it is the row's only one and the row has no tests.
    fn table_candidate(&self, table: u8) -> Option<Entry<M::Price>>
        ensures { let w = self.now.work.now in result ≡ alone_entry (M.meaning w.model.now) (asked w.catalogue.now) self.now.row.tables.bits self.now.row.tests.bits table }
    {
        let work = self.work;
        let Row { tables, tests } = self.row;
        let alone = SmallSet::single(table)?;
        if tables != alone || !tests.is_empty() {
            return None;
        }
        Some(Entry {
            price: work.model.bare(work.catalogue.rows_of(table)),
            choice: BARE_TABLE,
        })
    }

    // The entry of the row, which has the size, from those of the rows before it.
    pub(crate) fn entry(&self, size: u32) -> Tried<M::Price>
        requires { size ≡ size_of_set (asked self.now.work.now.catalogue.now) self.now.row.tables.bits self.now.row.tests.bits }
        ensures best { let w = self.now.work.now in result.best ≡ row_entry (M.meaning w.model.now) (asked w.catalogue.now) (held self.now.prices.now self.now.choices.now w.places.now.tested.bits) self.now.row.tables.bits self.now.row.tests.bits }
        ensures tries { let w = self.now.work.now in result.tries ≡ tries_by (M.meaning w.model.now) (asked w.catalogue.now) (held self.now.prices.now self.now.choices.now w.places.now.tested.bits) self.now.row.tables.bits self.now.row.tests.bits }
        ensures few { result.tries ≤ 2010 }
    {
        let model = self.work.model;
        let count = self.work.catalogue.count();
        let none = Tried {
            best: None,
            tries: 0,
        };
        let bare = best_of(model, none, 0..count, |table| self.table_candidate(table));
        // A bare table is no try.
        let bare = Tried { tries: 0, ..bare };
        let joined = best_of(model, bare, LeftSides::of(self.row.tables), |left| {
            self.join_candidate(size, left)
        });
        best_of(model, joined, 0..count, |table| self.test_candidate(table))
    }
}
