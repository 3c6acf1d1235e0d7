// Bytes as lines of hexadecimal.
ghost use Rattle.std.specs.Prelude.{◌≡◌, ◌+◌, ◌*◌, ◌<◌, ◌≤◌, length};
ghost use Rattle.frames.specs.Hexadecimal.{hex_digit, hex_digits, hex_line};
ghost use Rattle.buffers.specs.Put.{Put, PutOrNot};

// The character of a value below 16.
fn digit(value: u8) -> u8
    requires { value < 16 }
    ensures { result ≡ hex_digit value }
{
    match value {
        0..=9 => b'0' + value,
        _ => b'A' + (value - 10),
    }
}

// Writes two characters for each byte from `at` on, and answers where they end.
fn put_digits(buffer: &mut [u8], at: usize, bytes: &[u8]) -> usize
    requires { at + 2 * length bytes.now ≤ length buffer.old }
    ensures { Put buffer.old buffer.new at result (hex_digits bytes.now) }
{
    for (place, byte) in bytes.iter().enumerate() {
        let pair = at + 2 * place;
        buffer[pair] = digit(*byte / 16);
        buffer[pair + 1] = digit(*byte % 16);
    }
    at + 2 * bytes.len()
}

// Writes the bytes as a line from `at` on, and answers where it ends; None if there is no room for it.
pub fn put_line(buffer: &mut [u8], at: usize, bytes: &[u8]) -> Option<usize>
    ensures { PutOrNot buffer.old buffer.new at (hex_line bytes.now) result }
{
    if at >= buffer.len() || (buffer.len() - at - 1) / 2 < bytes.len() {
        return None;
    }
    let end = put_digits(buffer, at, bytes);
    buffer[end] = b'\n';
    Some(end + 1)
}
