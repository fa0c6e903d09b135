// Words from standard input.
ghost use Rattle.std.specs.Prelude.{◌≤◌, ◌≡◌, length};

use words::bytes::decode;
use words::filled;

// How many words a case can have behind its sizes.
pub(crate) const WORDS: usize = 12000;

// Reads that many bytes to the front of the room, if they come.
fn read_part(room: &mut [u8], n: usize) -> Option<()>
    requires { n ≤ length room.old }
{
    (io::read_full(0, &mut room[..n]) == n).then_some(())
}

// Reads that many words to the front of the room, if they come.
pub(crate) fn read_words(room: &mut [i32], n: usize) -> Option<()>
    requires { n ≤ 12000 }
{
    let mut bytes: [u8; 48000] = filled(0);
    read_part(&mut bytes, 4 * n)?;
    decode(&bytes[..4 * n], room);
    Some(())
}
