// The predicates of a question.
use pricing::Kind;

// A join predicate: of every q pairs of rows p remain; the cost is in milliseconds a pair.
#[derive(Clone, Copy)]
pub struct Tie {
    pub p: u16,
    pub q: u16,
    pub cost: u16,
}

// A selection: of every q rows p remain; the cost is in milliseconds a row.
#[derive(Clone, Copy)]
pub struct Test {
    pub p: u16,
    pub q: u16,
    pub cost: u16,
    pub kind: Kind,
}
