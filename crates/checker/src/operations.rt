// An operation of a plan, with what its price is made from.
use sets::Row;

// A table alone; a test on an input; or a join of a left and a right side, and both together.
#[derive(Clone, Copy)]
pub(crate) enum Operation {
    Table(Row),
    Test(u8, Row),
    Join(Row, Row, Row),
}
