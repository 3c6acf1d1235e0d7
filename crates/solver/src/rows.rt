// Fills the lists, row by row.
ghost use Rattle.std.specs.Prelude.{◌≡◌, ◌≤◌, length, set as updated};
ghost use Rattle.catalogue.specs.Asked.{asked};
ghost use Rattle.plans.specs.Entries.{row_entry};
ghost use Rattle.plans.specs.Questions.{all_tests, size};
ghost use Rattle.plans.specs.Recurrence.{all_tries};
ghost use Rattle.sets.specs.Rows.{row_count};
ghost use Rattle.solver.specs.Held.{choice_of, held, priced, tries_by};
ghost use Rattle.solver.specs.Solved.{Solved, Turn};
ghost use Rattle.solver.specs.Tabled.{SameTable};

use crate::lists::{RowTurn, Work};
use crate::ordered::Rows;
use catalogue::{Catalogue, Cuts};
use plans::Entry;
use pricing::PriceModel;
use sets::{Places, Ragged, Row};

// Writes the price of an entry at a place, if there is one.
fn put_price<P: Copy>(prices: &mut Ragged<P>, place: usize, entry: Option<Entry<P>>)
    ensures cells { prices.new.cells.now ≡ priced prices.old.cells.now place entry }
    ensures same { SameTable prices.old prices.new }
{
    if let Some(found) = entry {
        prices.put_at(place, found.price);
    }
}

// Writes a row's size and choice at its place, and its price if it has a plan; answers its tries.
fn solve_row<M: PriceModel>(
    work: &Work<M>,
    row: Row,
    place: usize,
    prices: &mut Ragged<M::Price>,
    sizes: &mut Ragged<u32>,
    choices: &mut Ragged<u16>,
) -> u64
    requires turn { Turn (asked work.now.catalogue.now) work.now.places.now.tested.bits row.tables.bits row.tests.bits sizes.old.cells.now }
    ensures prices { let w = work.now in prices.new.cells.now ≡ priced prices.old.cells.now place (row_entry (M.meaning w.model.now) (asked w.catalogue.now) (held prices.old.cells.now choices.old.cells.now w.places.now.tested.bits) row.tables.bits row.tests.bits) }
    ensures sizes { sizes.new.cells.now ≡ updated sizes.old.cells.now place (size (asked work.now.catalogue.now) row.tables.bits row.tests.bits) }
    ensures choices { let w = work.now in choices.new.cells.now ≡ updated choices.old.cells.now place (choice_of (row_entry (M.meaning w.model.now) (asked w.catalogue.now) (held prices.old.cells.now choices.old.cells.now w.places.now.tested.bits) row.tables.bits row.tests.bits)) }
    ensures same { (SameTable prices.old prices.new) × (SameTable sizes.old sizes.new) × (SameTable choices.old choices.new) }
    ensures tries { let w = work.now in result ≡ tries_by (M.meaning w.model.now) (asked w.catalogue.now) (held prices.old.cells.now choices.old.cells.now w.places.now.tested.bits) row.tables.bits row.tests.bits }
    ensures few { result ≤ 2010 }
{
    let turn = RowTurn {
        work,
        prices: prices.cells(),
        sizes: sizes.cells(),
        choices: choices.cells(),
        row,
    };
    let size = turn.size();
    let found = turn.entry(size);
    put_price(prices, place, found.best);
    sizes.put_at(place, size);
    choices.put_at(place, found.best.map_or(0, |entry| entry.choice));
    found.tries
}

// Fills all rows, and answers the tries.
fn fill_rows<M: PriceModel>(
    work: &Work<M>,
    rows: u32,
    prices: &mut [M::Price],
    sizes: &mut [u32],
    choices: &mut [u16],
) -> u64
    requires all { rows ≡ row_count (asked work.now.catalogue.now).count (all_tests (asked work.now.catalogue.now)) }
    requires enough { (rows ≤ length prices.old) × (rows ≤ length sizes.old) × (rows ≤ length choices.old) }
    ensures solved { Solved (M.meaning work.now.model.now) (asked work.now.catalogue.now) rows prices.old prices.new sizes.old sizes.new choices.old choices.new }
    ensures tries { result ≡ all_tries (M.meaning work.now.model.now) (asked work.now.catalogue.now) }
{
    let tested = work.catalogue.tests();
    let mut price_table = Ragged::over(prices, tested);
    let mut size_table = Ragged::over(sizes, tested);
    let mut choice_table = Ragged::over(choices, tested);
    let mut tries = 0;
    for (place, row) in (0..rows as usize).zip(Rows::all(tested)) {
        tries += solve_row(
            work,
            row,
            place,
            &mut price_table,
            &mut size_table,
            &mut choice_table,
        );
    }
    tries
}

// The same, with the places of the rows and the cuts of the tables made first.
pub(crate) fn solve_rows<M: PriceModel>(
    model: &M,
    catalogue: &Catalogue,
    rows: u32,
    prices: &mut [M::Price],
    sizes: &mut [u32],
    choices: &mut [u16],
) -> u64
    requires all { rows ≡ row_count (asked catalogue.now).count (all_tests (asked catalogue.now)) }
    requires enough { (rows ≤ length prices.old) × (rows ≤ length sizes.old) × (rows ≤ length choices.old) }
    ensures solved { Solved (M.meaning model.now) (asked catalogue.now) rows prices.old prices.new sizes.old sizes.new choices.old choices.new }
    ensures tries { result ≡ all_tries (M.meaning model.now) (asked catalogue.now) }
{
    let work = Work {
        model,
        catalogue,
        cuts: &Cuts::of(catalogue),
        places: &Places::of(catalogue.tests()),
    };
    fill_rows(&work, rows, prices, sizes, choices)
}
