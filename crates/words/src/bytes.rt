// Words from bytes: little-endian, two's complement.
ghost use Rattle.std.specs.Prelude.{◌≡◌, ◌+◌, ◌≤◌, length};
ghost use Rattle.words.specs.Bytes.{unsigned_of, signed_of, decoded_of};

// The four bytes from an index on as a number, the lowest first.
fn unsigned(bytes: &[u8], at: usize) -> u32
    requires { at + 4 ≤ length bytes.now }
    ensures { result ≡ unsigned_of bytes.now at }
{
    u32::from(bytes[at])
        + 256 * u32::from(bytes[at + 1])
        + 65536 * u32::from(bytes[at + 2])
        + 16777216 * u32::from(bytes[at + 3])
}

// A number below 2^32, read as a signed word.
fn signed(n: u32) -> i32
    ensures { result ≡ signed_of n }
{
    if n < 2147483648 {
        return n as i32;
    }
    let below = (4294967295 - n) as i32;
    -below - 1
}

// Decodes as many words as there are bytes and room for, to the front of the room.
pub fn decode(bytes: &[u8], room: &mut [i32])
    ensures { room.new ≡ decoded_of bytes.now room.old }
{
    for k in 0..room.len().min(bytes.len() / 4) {
        room[k] = signed(unsigned(bytes, 4 * k));
    }
}
