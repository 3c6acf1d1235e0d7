// The first bytes of a decoded line.
use buffers::Bytes;

// No frame has so many bytes, so a line with more is refused by its length just the same.
pub const KEPT: usize = 10;

// The first bytes of a line, as many as are kept.
pub type Decoded = Bytes<KEPT>;
