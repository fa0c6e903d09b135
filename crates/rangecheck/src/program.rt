// The program on slices: from the bytes of standard input to the text that is printed.
ghost use Rattle.std.specs.Prelude.{◌≡◌, ◌++◌, ◌+◌, ◌*◌, ◌≤◌, ◌<◌, length, take, drop};
ghost use Rattle.words.specs.Tabulate.{tabulate};
ghost use Rattle.words.specs.Bytes.{word_in};
ghost use Rattle.checker.specs.Check.{buffer_of};
ghost use Rattle.rangecheck.specs.Print.{printed_of};
ghost use Rattle.rangecheck.specs.Program.{length_at, in_limits, called_for, all_there, program_of};
ghost use Rattle.rangecheck.specs.Laws.{Laws};
ghost use Rattle.rangecheck.specs.Examples.{Examples};

use crate::print::{put_accepted, put_refused};
use crate::text::Text;
use checker::check::check;
use words::bytes::decode;
use words::{filled, number_at};

// The table's length for 0, the proposal's for 1.
#[tactic(auto, using(crate::proofs::ProgramLaws::decoded_length))]
fn length_at(input: &[u8], k: usize) -> usize
    requires { (8 ≤ length input.now) × (k < 2) }
    ensures value { result ≡ length_at input.now k }
    ensures upper_bound { result ≤ 4294967295 }
{
    let mut lengths = [0i32; 2];
    decode(input, &mut lengths);
    number_at(&lengths, k)
}

// Both lengths have come and lie in their limits.
#[tactic(auto, unfolding(crate::specs::Program::in_limits))]
fn in_limits(input: &[u8]) -> bool
    ensures { result ≡ in_limits input.now }
{
    if input.len() < 8 {
        return false;
    }
    if 5149 < length_at(input, 0) {
        return false;
    }
    length_at(input, 1) <= 11268
}

// How many bytes of the input are called for, as its first eight tell.
#[tactic(auto, using(crate::proofs::ProgramLaws::limits), unfolding(crate::specs::Program::called_for, crate::specs::Program::called_by))]
pub(crate) fn called_for(input: &[u8]) -> usize
    ensures value { result ≡ called_for input.now }
    ensures lower_bound { (8 ≤ result) × (result ≤ 65676) }
{
    if !in_limits(input) {
        return 8;
    }
    8 + 4 * length_at(input, 0) + 4 * length_at(input, 1)
}

// No bytes are missing.
#[tactic(auto, unfolding(crate::specs::Program::all_there))]
fn all_there(input: &[u8]) -> bool
    ensures { result ≡ all_there input.now }
{
    if !in_limits(input) {
        return false;
    }
    called_for(input) <= input.len()
}

// Decodes n words of the input, from a byte on, to the front of the room.
#[tactic(auto, using(crate::proofs::ProgramLaws::parts))]
fn read_words(input: &[u8], from: usize, room: &mut [i32], n: usize)
    requires { (n ≤ length room.old) × (from + 4 * n ≤ length input.now) }
    ensures room_after { room.new ≡ tabulate (word_in (drop from input.now)) n ++ drop n room.old }
    ensures front { take n room.new ≡ tabulate (word_in (drop from input.now)) n }
    ensures in_bounds { (n ≤ length room.new) × (n ≡ length (take n room.new)) }
{
    decode(&input[from..], &mut room[..n]);
}

// Makes the text what is printed of a table and a proposal.
#[tactic(auto, using(crate::proofs::AnswerLaws::listed), unfolding(crate::specs::Print::printed_of, crate::specs::Print::text_of))]
fn answer(table: &[i32], proposal: &[i32], alarms: &mut [i32], text: &mut Text)
    requires { 4096 ≡ length alarms.old }
    ensures text { text.new ≡ printed_of table.now proposal.now }
    ensures alarms_after { alarms.new ≡ buffer_of table.now proposal.now alarms.old }
{
    match check(table, proposal, alarms) {
        Ok(n) => put_accepted(text, &alarms[..2 * n], n),
        Err(refusal) => put_refused(text, refusal),
    }
}

// Makes the text that of an input.
#[tactic(auto, using(crate::proofs::ProgramLaws::there))]
pub(crate) fn respond(input: &[u8], text: &mut Text)
    ensures { text.new ≡ program_of input.now }
{
    if !all_there(input) {
        text.set(b"unread\n");
        return;
    }
    let t = length_at(input, 0);
    let mut table: [i32; 5149] = filled(0);
    read_words(input, 8, &mut table, t);
    let p = length_at(input, 1);
    let mut proposal: [i32; 11268] = filled(0);
    read_words(input, 8 + 4 * t, &mut proposal, p);
    let mut alarms: [i32; 4096] = filled(0);
    answer(&table[..t], &proposal[..p], &mut alarms, text);
}

// Does nothing: its contract is every law of the crate and the worked examples, so that none of them can go unproved.
fn laws_hold()
    ensures laws { Laws }
    ensures examples { Examples }
{}
