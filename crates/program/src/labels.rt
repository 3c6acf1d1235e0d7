// The first bytes of the lines that are none of the plan's.

// A price; the tries; a fault.
#[derive(Clone, Copy, PartialEq, Eq, Debug)]
pub(crate) enum Label {
    Price = 0x1E,
    Tries = 0x1F,
    Fault = 0xFF,
}
