// The unjoined parts of a plan that is read.
ghost use Rattle.std.specs.Prelude.{◌≡◌, ◌≤◌, length, count_ones};

use sets::{Row, SmallSet};

// The tables and tests of each part, the oldest first, in fixed memory; `seen` are the tables of all.
#[derive(Clone, Copy)]
pub(crate) struct Parts {
    pub(crate) rows: [Row; 10],
    pub(crate) depth: usize,
    pub(crate) seen: SmallSet,
    ghost ten: { length rows ≡ 10 },
    ghost deep: { depth ≤ count_ones seen.bits },
    ghost few: { depth ≤ 10 },
}
