// The plain record of a question's tables, ties and tests.
ghost use Rattle.std.specs.Prelude.{◌≡◌, ℕ, ◌<◌, ◌≤◌, true, length, is_some, None, slice_index_or};
ghost use Rattle.catalogue.specs.Fair.{tie_p, tie_q, test_p, test_q};
ghost use Rattle.catalogue.specs.Tables.{no_table, tie_at};

use plans::{Test, Tie};

// A table's rows, its test if it has one, and its ties as they were given, each at the number of the other table.
#[derive(Clone, Copy)]
pub(crate) struct Table {
    pub(crate) rows: u32,
    pub(crate) test: Option<Test>,
    pub(crate) ties: [Option<Tie>; 10],
}

// Tables are numbered from 0.
// No tie or test is on a table that was not given; no table is tied to itself, and no tie is given both ways round.
#[derive(Clone, Copy)]
pub struct Catalogue {
    pub(crate) count: u8,
    pub(crate) tables: [Table; 10],
    ghost few: { count ≤ 10 },
    ghost ten_tables: { length tables ≡ 10 },
    ghost ten_ties: { ((i : ℕ) → i < 10 → length (slice_index_or tables i no_table).ties ≡ 10) },
    ghost room: { ((i : ℕ) → (slice_index_or tables i no_table).rows ≤ 16777215) },
    ghost tie_whole: { ((i j : ℕ) → 1 ≤ tie_q (tie_at tables i j)) },
    ghost tie_part: { ((i j : ℕ) → tie_p (tie_at tables i j) ≤ tie_q (tie_at tables i j)) },
    ghost test_whole: { ((i : ℕ) → 1 ≤ test_q (slice_index_or tables i no_table).test) },
    ghost test_part: { ((i : ℕ) → test_p (slice_index_or tables i no_table).test ≤ test_q (slice_index_or tables i no_table).test) },
    ghost no_self: { ((i : ℕ) → tie_at tables i i ≡ None) },
    ghost one_way: { ((i j : ℕ) → is_some (tie_at tables i j) ≡ true → tie_at tables j i ≡ None) },
    ghost tie_given: { ((i j : ℕ) → count ≤ i → tie_at tables i j ≡ None) },
    ghost other_given: { ((i j : ℕ) → count ≤ j → tie_at tables i j ≡ None) },
    ghost test_given: { ((i : ℕ) → count ≤ i → (slice_index_or tables i no_table).test ≡ None) },
}
