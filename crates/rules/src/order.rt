// Refusal 10: the order of entries by their heads.
ghost use Rattle.std.specs.Prelude.{◌≡◌, ◌≤◌};
ghost use Rattle.words.specs.First.{first_bad};
ghost use Rattle.rules.specs.Proposal.{entries_of};
ghost use Rattle.rules.specs.Rules.{above, before_of, rule10};

use crate::proposal::Proposal;
use words::first_bad;

// Whether a is below b, or is b and the rest is below.
fn is_above(a: usize, b: usize, next: bool) -> bool
    ensures { result ≡ above a b next }
{
    (a < b) | ((a == b) & next)
}

// Whether the head of entry i is before task u, set s, variable v.
#[tactic(auto, unfolding(crate::specs::Rules::before_of))]
pub(crate) fn before(p: &Proposal, i: usize, u: usize, s: usize, v: usize) -> bool
    requires { i ≤ 4294967295 }
    ensures { result ≡ before_of p.now.table.words.now p.now.words.now i u s v }
{
    let last = p.head(i, 2) < v;
    is_above(p.head(i, 0), u, is_above(p.head(i, 1), s, last))
}

// Refusal 10 at an entry.
#[tactic(auto, using(crate::proofs::RangeLaws::order_is), unfolding(crate::specs::Rules::rule10))]
fn order_ok(p: &Proposal, i: usize) -> bool
    requires { i ≤ 4294967295 }
    ensures { result ≡ rule10 p.now.table.words.now p.now.words.now i }
{
    i == 0 || before(p, i - 1, p.head(i, 0), p.head(i, 1), p.head(i, 2))
}

pub(crate) fn first_order(p: &Proposal) -> Option<usize>
    ensures { result ≡ first_bad (rule10 p.now.table.words.now p.now.words.now) (entries_of p.now.words.now) }
{
    first_bad(p.entries, |i| order_ok(p, i))
}
