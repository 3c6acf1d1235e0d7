// What a call tells its caller.

// The refusal's number, or 0 with the plan in bytes, of which the first `len` count, its price and the tries it took.
#[repr(C)]
#[derive(Clone, Copy, PartialEq, Eq, Debug)]
pub struct Told {
    pub refusal: u64,
    pub price: u64,
    pub tries: u64,
    pub len: u64,
    pub bytes: [u8; 58],
}
