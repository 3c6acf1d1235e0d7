// A room of fixed size, and how much of it is taken.
ghost use Rattle.std.specs.Prelude.{◌≡◌, ◌≤◌, length};

// The first `len` bytes of the room count.
#[derive(Clone, Copy)]
pub struct Bytes<const N: usize> {
    pub(crate) room: [u8; N],
    pub(crate) len: usize,
    ghost all: { length room ≡ N },
    ghost within: { len ≤ N },
}
