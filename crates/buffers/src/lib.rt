// Writing into a lent buffer, piece after piece, and bytes in a room of their own.
#![tactic(auto)]

ghost use Rattle.std.specs.Prelude.{[], ◌∷◌};
ghost use Rattle.buffers.specs.Put.{PutOrNot};

mod bytes;
mod room;

pub use room::Bytes;

// Writes two bytes at `at`, and answers where they end; None if there is no room for them.
pub fn put_pair(buffer: &mut [u8], at: usize, first: u8, second: u8) -> Option<usize>
    ensures { PutOrNot buffer.old buffer.new at (first ∷ second ∷ []) result }
{
    if at > buffer.len() || buffer.len() - at < 2 {
        return None;
    }
    buffer[at] = first;
    buffer[at + 1] = second;
    Some(at + 2)
}
