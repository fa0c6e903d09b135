// Reads cases from standard input as little-endian words and prints a line for each: what a run ends in, or, where the first word is below 0, what
// the analysis says of a tree on a row.
#![tactic(auto)]

mod play;
mod print;
mod read;
mod tree;

use crate::read::read_words;
use words::{number, number_at, word};

// Reads a case and prints its line; nothing where no case came whole.
fn respond() -> Option<()> {
    let mut head = [0i32; 2];
    read_words(&mut head, 2)?;
    let first = word(&head, 0);
    let second = number_at(&head, 1);
    if first < 0 {
        return tree::respond(number(!first), second);
    }
    play::respond(number(first), second)
}

fn main() {
    for _ in 0..1000000 {
        if respond().is_none() {
            return;
        }
    }
}
