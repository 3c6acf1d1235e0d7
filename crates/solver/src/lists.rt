// The turn of a row, and what the lists hold of the rows before it.
ghost use Rattle.std.specs.Prelude.{◌≡◌};
ghost use Rattle.catalogue.specs.Asked.{asked};
ghost use Rattle.plans.specs.Questions.{all_tests, size};
ghost use Rattle.sets.specs.Rows.{place_of};
ghost use Rattle.solver.specs.Held.{held, price_at as price_in, side_of};
ghost use Rattle.solver.specs.Solved.{Turn};
ghost use Rattle.std.specs.List.{slice_get};

use catalogue::{Catalogue, Cuts};
use pricing::PriceModel;
use sets::{Places, Row};

// A model and a question, with the cuts of the question's tables and the places of its rows.
#[derive(Drop)]
pub(crate) struct Work<'a, M: PriceModel> {
    pub model: &'a M,
    pub catalogue: &'a Catalogue,
    pub cuts: &'a Cuts<'a>,
    pub places: &'a Places,
    ghost same: { cuts.now.catalogue.now ≡ catalogue.now },
    ghost tested: { places.now.tested.bits ≡ all_tests (asked catalogue.now) },
}

// The turn of a row: the lists hold the rows before it, each at its place.
#[derive(Drop)]
pub(crate) struct RowTurn<'a, 'w, M: PriceModel> {
    pub work: &'a Work<'w, M>,
    pub prices: &'a [M::Price],
    pub sizes: &'a [u32],
    pub choices: &'a [u16],
    pub row: Row,
    ghost turn: { Turn (asked work.now.catalogue.now) work.now.places.now.tested.bits row.tables.bits row.tests.bits sizes.now },
}

// The price of a row's plan, and the row's size.
#[derive(Clone, Copy)]
pub(crate) struct Side<P> {
    pub price: P,
    pub size: u32,
}

// The price at a place, if there is a choice beside it.
pub(crate) fn price_at<P: Copy>(prices: &[P], choices: &[u16], place: usize) -> Option<P>
    ensures { result ≡ price_in (slice_get prices.now place) (slice_get choices.now place) }
{
    let price = prices.get(place)?;
    let choice = choices.get(place)?;
    if *choice == 0 { None } else { Some(*price) }
}

impl<'a, 'w, M: PriceModel> RowTurn<'a, 'w, M> {
    // What the lists hold of a row that has a plan.
    pub(crate) fn side_at(&self, row: Row) -> Option<Side<M::Price>>
        ensures { let w = self.now.work.now in result ≡ side_of (held self.now.prices.now self.now.choices.now w.places.now.tested.bits row.tables.bits row.tests.bits) (slice_get self.now.sizes.now (place_of w.places.now.tested.bits row.tables.bits row.tests.bits)) }
    {
        let place = self.work.places.position(row);
        let price = price_at(self.prices, self.choices, place)?;
        let size = *self.sizes.get(place)?;
        Some(Side { price, size })
    }

    // The size of the row, from that of all its tables but the lowest.
    pub(crate) fn size(&self) -> u32
        ensures { result ≡ size (asked self.now.work.now.catalogue.now) self.now.row.tables.bits self.now.row.tests.bits }
    {
        let work = self.work;
        let Row { tables, tests } = self.row;
        let Some(table) = tables.lowest() else {
            return work.catalogue.size(tables, tests);
        };
        let others = tables.without_member(table);
        let rest = self.row.on(others);
        match self.sizes.get(work.places.position(rest)) {
            Some(size) => work.catalogue.size_from(table, tables, tests, *size),
            None => work.catalogue.size(tables, tests),
        }
    }
}
