// Bytes in a room of fixed size.
ghost use Rattle.std.specs.Prelude.{◌≡◌, ◌<◌, ◌≤◌, [], ◌∷◌, ◌++◌, length, take, MatchOption, if◌then◌else◌, nat_lt};
ghost use Rattle.buffers.specs.Written.{written};

use crate::room::Bytes;

impl<const N: usize> Bytes<N> {
    // No bytes.
    pub fn new() -> Bytes<N>
        ensures { written result ≡ [] }
    {
        Bytes {
            room: [0; N],
            len: 0,
        }
    }

    // The first `len` bytes of a room, unless it has fewer.
    pub fn of(room: [u8; N], len: usize) -> Option<Bytes<N>>
        ensures { MatchOption result (N < len) (λ bytes. written bytes ≡ take len room.entry) }
    {
        if len > N {
            return None;
        }
        Some(Bytes { room, len })
    }

    // The bytes.
    pub fn as_slice(&self) -> &[u8]
        ensures { result.now ≡ written self.now }
    {
        &self.room[..self.len]
    }

    // One byte more, if there is room for it; says whether there is.
    pub fn push(&mut self, byte: u8) -> bool
        ensures room { result ≡ nat_lt (length (written self.old)) N }
        ensures bytes { written self.new ≡ (if result then written self.old ++ byte ∷ [] else written self.old) }
    {
        if self.len == N {
            return false;
        }
        self.room[self.len] = byte;
        self.len += 1;
        true
    }
}
