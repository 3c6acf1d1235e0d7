// A new question, and the four calls that change it.
ghost use Rattle.std.specs.Prelude.{◌≡◌, None};
ghost use Rattle.catalogue.specs.Asked.{asked};
ghost use Rattle.catalogue.specs.Changes.{Follows, corrected, tabled, tested, tied};
ghost use Rattle.planner.specs.Calls.{add_table, correct_test, done_of, placed_of, set_test, set_tie};
ghost use Rattle.planner.specs.Changed.{ChangeLeaves};
ghost use Rattle.planner.specs.Made.{Made};
ghost use Rattle.planner.specs.States.{fresh, state_of};
ghost use Rattle.catalogue.specs.declared.catalogues.Catalogue.{Catalogue};
ghost use Rattle.std.specs.Fn.{FnOnceReturnsAtMut};

use super::Question;
use crate::Held;
use catalogue::{Catalogue, ChangeRefusal};
use pricing::PriceModel;

impl<M: PriceModel> Question<M> {
    // No tables, no ties, no tests, and no plan that stands.
    pub fn new(model: M) -> Question<M>
        ensures model { result.model ≡ model }
        ensures state { state_of result.held ≡ fresh }
    {
        let catalogue = Catalogue::new();
        Question {
            model,
            held: Held {
                catalogue,
                standing: None,
            },
        }
    }

    // The price model.
    pub fn model(&self) -> &M
        ensures { result.now ≡ self.now.model }
    {
        &self.model
    }

    // The tables, ties and tests as they stand.
    pub fn catalogue(&self) -> &Catalogue
        ensures { result.now ≡ self.now.held.catalogue }
    {
        &self.held.catalogue
    }

    // Makes a call on a copy of the catalogue. Accepted, it puts the copy in place and takes away the plan that stood; refused, it changes nothing.
    fn change<T, F: FnOnce(&mut Catalogue) -> Result<T, ChangeRefusal>>(
        &mut self,
        call: F,
    ) -> Result<T, ChangeRefusal>
        requires { F.IsAlwaysCallable call }
        ensures model { self.new.model ≡ self.old.model }
        ensures called { (after : Catalogue) × FnOnceReturnsAtMut F.FnOnce call self.old.held.catalogue result after × ChangeLeaves result after self.old.held self.new.held }
    {
        let mut catalogue = self.held.catalogue;
        let answer = call(&mut catalogue)?;
        self.held = Held {
            catalogue,
            standing: None,
        };
        Ok(answer)
    }

    // Adds a table and answers its number.
    pub fn table(&mut self, rows: u32) -> Result<u8, ChangeRefusal>
        ensures made { Made M.meaning self.old (add_table rows) (placed_of result) self.new }
        ensures outcome { Follows (tabled (asked self.old.held.catalogue) rows) (asked self.old.held.catalogue) result (asked self.new.held.catalogue) }
    {
        self.change(|catalogue| catalogue.table(rows))
    }

    // Sets the tie between two tables.
    pub fn tie(
        &mut self,
        table: u8,
        other: u8,
        p: u16,
        q: u16,
        cost: u16,
    ) -> Result<(), ChangeRefusal>
        ensures made { Made M.meaning self.old (set_tie table other p q cost) (done_of result) self.new }
        ensures outcome { Follows (tied (asked self.old.held.catalogue) table other p q cost) (asked self.old.held.catalogue) result (asked self.new.held.catalogue) }
    {
        self.change(
            |catalogue: &mut Catalogue| -> Result<(), ChangeRefusal>
                ensures { Follows (tied (asked catalogue.old) table other p q cost) (asked catalogue.old) result (asked catalogue.new) }
            { catalogue.tie(table, other, p, q, cost) },
        )
    }

    // Sets the test on a table.
    pub fn test(
        &mut self,
        table: u8,
        p: u16,
        q: u16,
        cost: u16,
        kind: u8,
    ) -> Result<(), ChangeRefusal>
        ensures made { Made M.meaning self.old (set_test table p q cost kind) (done_of result) self.new }
        ensures outcome { Follows (tested (asked self.old.held.catalogue) table p q cost kind) (asked self.old.held.catalogue) result (asked self.new.held.catalogue) }
    {
        self.change(
            |catalogue: &mut Catalogue| -> Result<(), ChangeRefusal>
                ensures { Follows (tested (asked catalogue.old) table p q cost kind) (asked catalogue.old) result (asked catalogue.new) }
            { catalogue.test(table, p, q, cost, kind) },
        )
    }

    // Adds to the cost of a table's test, exactly.
    pub fn correct(&mut self, table: u8, by: i32) -> Result<(), ChangeRefusal>
        ensures made { Made M.meaning self.old (correct_test table by) (done_of result) self.new }
        ensures outcome { Follows (corrected (asked self.old.held.catalogue) table by) (asked self.old.held.catalogue) result (asked self.new.held.catalogue) }
    {
        self.change(|catalogue| catalogue.correct(table, by))
    }
}
