// What every layer reads and refuses with: total reading of words, the smallest failing place, refusals.
#![tactic(auto)]

ghost use Rattle.std.specs.Prelude.{◌≡◌, ◌≤◌, replicate};
ghost use Rattle.words.specs.Words.{word_of, number_of, number_at, part_of};
ghost use Rattle.words.specs.Laws.{Laws};
ghost use Rattle.words.specs.Tabulate.{tabulate};

pub mod bytes;
pub mod refusal;
pub mod search;

pub use refusal::{Refusal, Rule, refuse};
pub use search::{Places, all_below, first_bad, first_bad_in};

// The word at an index; 0 past the end.
pub fn word(ws: &[i32], i: usize) -> i32
    ensures { result ≡ word_of ws.now i }
{
    ws.get(i).copied().unwrap_or(0)
}

// A word as a number. A word below 0 becomes a number that is no size, kind or index.
pub fn number(z: i32) -> usize
    ensures value { result ≡ number_of z }
    ensures upper_bound { result ≤ 4294967295 }
{
    if z < 0 { 4294967295 } else { z as usize }
}

// The word at an index, as a number.
pub fn number_at(ws: &[i32], i: usize) -> usize
    ensures value { result ≡ number_at ws.now i }
    ensures upper_bound { result ≤ 4294967295 }
{
    number(word(ws, i))
}

// The words from `from` on, `count` of them or as many as there are.
pub fn part(ws: &[i32], from: usize, count: usize) -> &[i32]
    ensures { result.now ≡ part_of ws.now from count }
{
    if ws.len() <= from {
        return &ws[..0];
    }
    if ws.len() - from <= count {
        return &ws[from..];
    }
    &ws[from..from + count]
}

// An array of one value; a function of its own, since a proof that meets such an array itself writes out its elements.
pub fn filled<T: Copy, const N: usize>(x: T) -> [T; N]
    ensures { result ≡ replicate N x }
{
    [x; N]
}

// The first N words. Where there are fewer, zeros stand behind them.
#[tactic(auto, using(crate::proofs::PadLaws::padded))]
pub fn padded<const N: usize>(ws: &[i32]) -> [i32; N]
    ensures { result ≡ tabulate (word_of ws.now) N }
{
    let mut room = filled(0);
    let n = ws.len().min(N);
    room[..n].copy_from_slice(&ws[..n]);
    room
}

// Does nothing: its contract is every law of the crate, so that none of them can go unproved.
pub fn laws_hold()
    ensures { Laws }
{}
