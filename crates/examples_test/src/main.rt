// Runs document 01's examples that are whole checks, from the text that stands there, and prints what the check says of each.
#![tactic(auto)]

mod out;

use crate::out::Out;
use checker::check::check;
use std::fmt::{self, Write};
use words::Refusal;

// What the check says.
#[derive(Clone, Copy, Debug, PartialEq, Eq)]
struct Said(Result<usize, Refusal>);

impl fmt::Display for Said {
    fn fmt<W: fmt::Write>(&self, f: &mut fmt::Formatter<W>) -> fmt::Result {
        match self.0 {
            Ok(count) => write!(f, "accepted {count}"),
            Err(refusal) => write!(f, "refused {} at {}", refusal.rule.number(), refusal.place),
        }
    }
}

// The words of a text, each of which is one digit, at the front of the room.
fn words_of<'a>(text: &str, room: &'a mut [i32]) -> &'a [i32] {
    let mut n = 0;
    for digit in text.bytes().filter(|b| b.is_ascii_digit()) {
        if n < room.len() {
            room[n] = i32::from(digit - b'0');
            n += 1;
        }
    }
    &room[..n]
}

// No example has more than 32 words, or an alarm.
fn example(name: &str, table: &str, proposal: &str) {
    let mut table_room = [0i32; 32];
    let mut proposal_room = [0i32; 32];
    let said = Said(check(
        words_of(table, &mut table_room),
        words_of(proposal, &mut proposal_room),
        &mut [0i32; 2],
    ));
    let _ = writeln!(Out, "{name}: {said}");
}

fn bare(name: &str, proposal: &str) {
    example(
        name,
        "2 1 0 3 1, 2 1, 0, 1 0 0 1, 0 0 0 0, 0 0 0 0, 0 5 0 0",
        proposal,
    );
}

fn small(name: &str, table: &str) {
    example(name, table, "1 1 0 0, 0, 0, 0");
}

// Lock 0, lock 1, unlock 0, write 5.
fn locks(name: &str, proposal: &str) {
    example(
        name,
        "1 1 2 5 1, 5, 0, 3 0 1 0, 3 1 2 0, 4 0 3 0, 1 0 0 4, 0 0 0 0, 0 5 0 0",
        proposal,
    );
}

fn main() {
    bare("Bare", "3 1 0 1, 0 0 0, 0 0 0, 0 5 0 5, 0 5 5 5");
    bare(
        "Bare with the third high 4",
        "3 1 0 1, 0 0 0, 0 0 0, 0 5 0 5, 0 5 4 5",
    );
    bare(
        "Bare with the last high 4",
        "3 1 0 1, 0 0 0, 0 0 0, 0 5 0 5, 0 5 5 4",
    );
    example("empty table", "", "");
    small("11 words", "1 1 0 1 0, 1, 0, 0 0 0 0");
    small("11 words without the last", "1 1 0 1 0, 1, 0, 0 0 0");
    small("11 words with a first of 9", "9 1 0 1 0, 1, 0, 0 0 0 0");
    locks(
        "write under set 2",
        "5 1 2 1, 0 1 3 2 2, 0 2 0, 0 0 0 0 5 0 0 5, 0 0 0 0 5 5 0 5",
    );
    locks(
        "an entry under set 3",
        "5 1 2 1, 0 1 3 2 2, 0 3 0, 0 0 0 0 5 0 0 5, 0 0 0 0 5 5 0 5",
    );
    locks(
        "set 3 at the write",
        "5 1 2 1, 0 1 3 3 3, 0 3 0, 0 0 0 0 5 0 0 5, 0 0 0 0 5 5 0 5",
    );
}
