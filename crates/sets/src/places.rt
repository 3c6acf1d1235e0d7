// The places of the rows, by look-ups.
ghost use Rattle.std.specs.Prelude.{◌≡◌, ℕ, ◌/◌, ◌%◌, ◌^◌, ◌<◌, ◌≤◌, length, bit_and, count_ones, slice_index};
ghost use Rattle.sets.specs.Rows.{contracted, before, place_of};

use crate::{Row, SmallSet};

// How many rows stand before those of each set of tables; and, at 32 mask + set, the number of a set of five places among the subsets of a mask
// of five.
#[derive(Drop)]
pub struct Places {
    tested: SmallSet,
    first: [u32; 1024],
    numbers: [u8; 1024],
    ghost all_first: { length first ≡ 1024 },
    ghost all_numbers: { length numbers ≡ 1024 },
    ghost firsts: { ((r : ℕ) → r < 1024 → slice_index first r ≡ before tested.bits r) },
    ghost numbered: { ((k : ℕ) → k < 1024 → slice_index numbers k ≡ contracted (k % 32) (k / 32)) },
}

impl Places {
    // The places of the rows where `tested` are the tables that have a test.
    pub fn of(tested: SmallSet) -> Places
        ensures { result.tested ≡ tested }
    {
        Places {
            tested,
            first: first_rows(tested),
            numbers: five_places(),
        }
    }

    // The number of `tests` among the subsets of `of`, five places at a time.
    fn number(&self, tests: SmallSet, of: SmallSet) -> usize
        ensures { result ≡ contracted tests.bits of.bits }
    {
        let tests = tests.bits() as usize;
        let of = of.bits() as usize;
        let low = self.numbers[of % 32 * 32 + tests % 32] as usize;
        let high = self.numbers[of / 32 * 32 + tests / 32] as usize;
        let subsets = self.numbers[of % 32 * 32 + of % 32] as usize + 1;
        low + subsets * high
    }

    // The place of a row.
    pub fn position(&self, row: Row) -> usize
        ensures { result ≡ place_of self.now.tested.bits row.tables.bits row.tests.bits }
    {
        let tests = row.tables.intersection(self.tested);
        self.first[row.tables.bits() as usize] as usize + self.number(row.tests, tests)
    }
}

// How many rows the tables with a number have.
fn rows_with(tables: u16, tested: SmallSet) -> u32
    requires { tables < 1024 }
    ensures value { result ≡ 2 ^ count_ones (bit_and tables tested.bits) }
    ensures bound { result ≤ 1024 }
{
    1 << (tables & tested.bits()).count_ones()
}

// How many rows stand before those of each set of tables.
fn first_rows(tested: SmallSet) -> [u32; 1024]
    ensures all { length result ≡ 1024 }
    ensures value { (k : ℕ) → k < 1024 → slice_index result k ≡ before tested.bits k }
{
    let mut first = [0; 1024];
    let mut sum: u32 = 0;
    for tables in 0..1024u16 {
        first[tables as usize] = sum;
        sum += rows_with(tables, tested);
    }
    first
}

// The number of each set of five places among the subsets of each mask, from those of their halves.
fn five_places() -> [u8; 1024]
    ensures all { length result ≡ 1024 }
    ensures value { (k : ℕ) → k < 1024 → slice_index result k ≡ contracted (k % 32) (k / 32) }
{
    let mut numbers = [0; 1024];
    for place in 32..1024usize {
        let mask = place / 32;
        let set = place % 32;
        let above = numbers[mask / 2 * 32 + set / 2];
        numbers[place] = if mask % 2 == 1 {
            (set % 2) as u8 + 2 * above
        } else {
            above
        };
    }
    numbers
}
