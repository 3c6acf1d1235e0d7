// A table with a cell for each row, over cells that are lent.
ghost use Rattle.std.specs.Prelude.{◌≡◌, ◌≤◌, false, length, replicate, set as updated, if◌then◌else◌, Decides, nat_lt};
ghost use Rattle.sets.specs.Rows.{place_of, row_count, filled, Room};
ghost use Rattle.std.specs.List.{slice_get};

use crate::{Row, SmallSet, position, row_count};

// The cells of the rows, each at its row's place; `tested` are the tables that have a test.
#[derive(Drop)]
pub struct Ragged<'a, T> {
    cells: &'a mut [T],
    tested: SmallSet,
}

impl<'a, T: Copy> Ragged<'a, T> {
    // A table over the cells that are lent.
    pub fn over(cells: &'a mut [T], tested: SmallSet) -> Ragged<'a, T>
        ensures cells { result.cells.now ≡ cells.old }
        ensures tested { result.tested ≡ tested }
        ensures lender { result.cells.ghost_name ≡ cells.entry.ghost_name }
    {
        Ragged { cells, tested }
    }

    // All the cells, each at its row's place.
    pub fn cells(&self) -> &[T]
        ensures { result.now ≡ self.now.cells.now }
    {
        let all: &[T] = self.cells;
        all
    }

    // What the cell of the row holds, if there is such a cell.
    pub fn get(&self, row: Row) -> Option<T>
        ensures { result ≡ slice_get self.now.cells.now (place_of self.now.tested.bits row.tables.bits row.tests.bits) }
    {
        self.cells.get(position(row, self.tested)).copied()
    }

    // Writes the cell of the row, if there is such a cell, and says whether there is.
    pub fn put(&mut self, row: Row, value: T) -> bool
        ensures held { result ≡ nat_lt (place_of self.old.tested.bits row.tables.bits row.tests.bits) (length self.old.cells.now) }
        ensures cells { self.new.cells.now ≡ updated self.old.cells.now (place_of self.old.tested.bits row.tables.bits row.tests.bits) value }
        ensures kept { result ≡ false → self.new.cells.now ≡ self.old.cells.now }
        ensures tested { self.new.tested ≡ self.old.tested }
        ensures lender { self.new.cells.ghost_name ≡ self.old.cells.ghost_name }
    {
        self.put_at(position(row, self.tested), value)
    }

    // Writes the cell at a place, where the place of the row is known. By index: what lent cells hold after `get_mut` is not told.
    pub fn put_at(&mut self, place: usize, value: T) -> bool
        ensures held { result ≡ nat_lt place (length self.old.cells.now) }
        ensures cells { self.new.cells.now ≡ updated self.old.cells.now place value }
        ensures kept { result ≡ false → self.new.cells.now ≡ self.old.cells.now }
        ensures tested { self.new.tested ≡ self.old.tested }
        ensures lender { self.new.cells.ghost_name ≡ self.old.cells.ghost_name }
    {
        if place >= self.cells.len() {
            return false;
        }
        self.cells[place] = value;
        true
    }
}

// Writes `value` into the cell of each row of `count` tables, if there is room for all, and says whether there is.
pub fn fill<T: Copy>(cells: &mut [T], count: u8, tested: SmallSet, value: T) -> bool
    ensures room { Decides result (Room count tested.bits (length cells.old)) }
    ensures cells { cells.new ≡ (if result then filled (row_count count tested.bits) value cells.old else cells.old) }
{
    let Some(rows) = row_count(count, tested) else {
        return false;
    };
    if cells.len() < rows as usize {
        return false;
    }
    fill_all(&mut cells[..rows as usize], value);
    true
}

// Writes `value` into every cell.
fn fill_all<T: Copy>(cells: &mut [T], value: T)
    ensures { cells.new ≡ replicate (length cells.old) value }
{
    for cell in cells.iter_mut() {
        *cell = value;
    }
}
