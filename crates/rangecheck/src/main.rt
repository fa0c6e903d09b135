// Reads a table and a proposal as little-endian words from standard input, and prints what the check says of them.
#![tactic(auto)]

mod print;
mod program;
mod text;

ghost use Rattle.std.specs.Prelude.{◌≡◌, ◌+◌, ◌≤◌, length, take, drop};
ghost use Rattle.io.specs.Counts.{IsPrefixLen};

use crate::program::{called_for, respond};
use crate::text::Text;
use words::filled;

// Reads to a part of the room until it is full or the input ends; how many bytes came. What lies before the part and behind it stays.
fn read_at(room: &mut [u8], from: usize, to: usize) -> usize
    requires { (from ≤ to) × (to ≤ length room.old) }
    ensures result_bound { from + result ≤ to }
    ensures before_stays { take from room.new ≡ take from room.old }
    ensures behind_stays { drop to room.new ≡ drop to room.old }
{
    io::read_full(0, &mut room[from..to])
}

// Reads the lengths, and then no more bytes than they call for, to the front of the room; how many came.
fn read_input(room: &mut [u8]) -> usize
    requires { 65676 ≤ length room.old }
    ensures { IsPrefixLen result room.new }
{
    let head = read_at(room, 0, 8);
    if head < 8 {
        return head;
    }
    let all = called_for(&room[..8]);
    8 + read_at(room, 8, all)
}

fn main() {
    let mut text = Text::new();
    let mut input: [u8; 65676] = filled(0);
    let n = read_input(&mut input);
    respond(&input[..n], &mut text);
    io::write_all(1, text.bytes());
}
