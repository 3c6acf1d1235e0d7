// What a row of the solver's tables holds of its plan.

// The plan's price, and the choice that leads to it.
#[derive(Clone, Copy)]
pub struct Entry<P> {
    pub price: P,
    pub choice: u16,
}
