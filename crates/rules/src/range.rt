// Refusals 8 and 9: the sizes of a proposal, and the range of its words.
ghost use Rattle.std.specs.Prelude.{◌≡◌, ◌+◌, ◌^◌, ◌<◌, ◌≤◌, length};
ghost use Rattle.words.specs.Words.{number_at};
ghost use Rattle.words.specs.First.{first_bad, places, first_bad_in};
ghost use Rattle.table.specs.Layout.{sizes_of};
ghost use Rattle.rules.specs.Proposal.{intervals_of, heads_from, lows_from};
ghost use Rattle.rules.specs.Rules.{rule8, rule9};

use crate::proposal::Proposal;
use table::Table;
use words::{Places, first_bad, first_bad_in, number, number_at};

// Refusal 8 at a word.
#[tactic(auto, unfolding(crate::specs::Rules::rule8, crate::specs::Proposal::entries_of))]
fn size_ok(table: &Table, words: &[i32], k: usize) -> bool
    ensures { result ≡ rule8 table.now.words.now words.now k }
{
    let s = table.sizes;
    match k {
        0 => number_at(words, 0) == s.points,
        1 => number_at(words, 1) == s.variables,
        2 => number_at(words, 2) == s.mutexes,
        _ => number_at(words, 3) <= 512,
    }
}

pub(crate) fn first_size(table: &Table, words: &[i32]) -> Option<usize>
    ensures { result ≡ first_bad (rule8 table.now.words.now words.now) 4 }
{
    first_bad(4, |k| size_ok(table, words, k))
}

// How many sets of the table's mutexes there are: a number is one of them where it is below.
#[tactic(auto, using(crate::proofs::HeldLaws::shl_is))]
fn set_count(p: &Proposal) -> usize
    ensures { result ≡ 2 ^ (sizes_of p.now.table.words.now).mutexes }
{
    1 << p.table.sizes.mutexes
}

// The held word at an index, where there are so many sets: -1, or a set.
#[tactic(auto, using(crate::proofs::RangeLaws::held_word, crate::proofs::RangeLaws::words_length), unfolding(crate::specs::Proposal::proposal_length, crate::specs::Proposal::lows_from))]
fn held_ok(p: &Proposal, sets: usize, i: usize) -> bool
    requires sets_value { sets ≡ 2 ^ (sizes_of p.now.table.words.now).mutexes }
    requires i_bounds { (4 ≤ i) × (i < heads_from p.now.table.words.now) }
    ensures { result ≡ rule9 p.now.table.words.now p.now.words.now i }
{
    let z = p.words[i];
    z == -1 || number(z) < sets
}

// The first held word that fails.
#[tactic(auto, unfolding(crate::specs::Proposal::heads_from))]
fn first_held(p: &Proposal) -> Option<usize>
    ensures { result ≡ first_bad_in (rule9 p.now.table.words.now p.now.words.now) (places 4 (heads_from p.now.table.words.now)) }
{
    let sets = set_count(p);
    let held = Places {
        from: 4,
        to: p.heads_from(),
    };
    first_bad_in(held, |i| held_ok(p, sets, i))
}

// The word at an index that is one, as a number.
fn number_in(ws: &[i32], i: usize) -> usize
    requires { i < length ws.now }
    ensures { result ≡ number_at ws.now i }
{
    number(ws[i])
}

// The first word of the entries' heads that fails. A head is a task, a held set and a variable.
#[tactic(auto, using(crate::proofs::RangeLaws::head_room, crate::proofs::RangeLaws::words_length), unfolding(crate::specs::Proposal::proposal_length, crate::specs::Proposal::lows_from))]
fn first_head(p: &Proposal) -> Option<usize>
    ensures { result ≡ first_bad_in (rule9 p.now.table.words.now p.now.words.now) (places (heads_from p.now.table.words.now) (lows_from p.now.table.words.now p.now.words.now)) }
{
    let sizes = p.table.sizes;
    let sets = set_count(p);
    let from = p.heads_from();
    for k in 0..p.entries {
        let i = from + 3 * k;
        if sizes.tasks <= number_in(p.words, i) {
            return Some(i);
        }
        if sets <= number_in(p.words, i + 1) {
            return Some(i + 1);
        }
        if sizes.variables <= number_in(p.words, i + 2) {
            return Some(i + 2);
        }
    }
    None
}

// The end at an index, where they begin at from: the low one isn't above the high one.
#[tactic(auto, using(crate::proofs::RangeLaws::end_test, crate::proofs::CheckedLaws::lows_count, crate::proofs::CheckedLaws::highs_count))]
fn end_ok(p: &Proposal, from: usize, i: usize) -> bool
    requires from_value { from ≡ lows_from p.now.table.words.now p.now.words.now }
    requires i_bounds { (from ≤ i) × (i < from + intervals_of p.now.table.words.now p.now.words.now) }
    ensures { result ≡ rule9 p.now.table.words.now p.now.words.now i }
{
    p.rows.lows[i - from] <= p.rows.highs[i - from]
}

// The first end that fails: most words are ends, and each is one comparison.
#[tactic(auto, using(crate::proofs::CheckedLaws::lows_count, crate::proofs::RangeLaws::ends_from))]
fn first_end(p: &Proposal) -> Option<usize>
    ensures { result ≡ first_bad_in (rule9 p.now.table.words.now p.now.words.now) (places (lows_from p.now.table.words.now p.now.words.now) (lows_from p.now.table.words.now p.now.words.now + intervals_of p.now.table.words.now p.now.words.now)) }
{
    let from = p.lows_from();
    let ends = Places {
        from,
        to: from + p.rows.lows.len(),
    };
    first_bad_in(ends, |i| end_ok(p, from, i))
}

// Refusal 9: the held words, then the heads, then the ends.
pub(crate) fn first_word(p: &Proposal) -> Option<usize>
    ensures { result ≡ first_bad (rule9 p.now.table.words.now p.now.words.now) (lows_from p.now.table.words.now p.now.words.now + intervals_of p.now.table.words.now p.now.words.now) }
{
    if let Some(i) = first_held(p) {
        return Some(i);
    }
    if let Some(i) = first_head(p) {
        return Some(i);
    }
    first_end(p)
}
