// Refusal 14's search: the entry for a task, a held set and a variable, found in the order of the heads.
ghost use Rattle.std.specs.Prelude.{◌≡◌, ◌≤◌, Some};
ghost use Rattle.words.specs.First.{first_bad};
ghost use Rattle.rules.specs.Proposal.{entries_of};
ghost use Rattle.rules.specs.Rules.{before_of, files, filed};

use crate::checked::Checked;
use crate::order::before;
use crate::proposal::Proposal;
use interval::Interval;
use interval::lattice::within;

// The first entry whose head isn't before (u, s, v). Heads rise, so half of what is left is dropped at each turn.
fn find(all: &Checked, u: usize, s: usize, v: usize) -> Option<usize>
    ensures { result ≡ first_bad (λ i. before_of all.now.proposal.table.words.now all.now.proposal.words.now i u s v) (entries_of all.now.proposal.words.now) }
{
    let p = &all.proposal;
    let mut low = 0;
    let mut high = p.entries;
    while low < high {
        let middle = low + (high - low) / 2;
        if before(p, middle, u, s, v) {
            low = middle + 1;
        } else {
            high = middle;
        }
    }
    (low < p.entries).then_some(low)
}

// Whether entry i is for (u, s, v) and holds the interval x.
#[tactic(auto, unfolding(crate::specs::Rules::files))]
fn files_at(p: &Proposal, u: usize, s: usize, v: usize, x: Option<Interval>, i: usize) -> bool
    requires { i ≤ 4294967295 }
    ensures { result ≡ files p.now.table.words.now p.now.words.now u s v x i }
{
    p.head(i, 0) == u && p.head(i, 1) == s && p.head(i, 2) == v && within(x, p.span(i))
}

// Whether what is written has an entry.
pub(crate) fn is_filed(all: &Checked, u: usize, s: usize, v: usize, x: Interval) -> bool
    ensures { result ≡ filed all.now.proposal.table.words.now all.now.proposal.words.now u s v (Some x) }
{
    match find(all, u, s, v) {
        Some(i) => files_at(&all.proposal, u, s, v, Some(x), i),
        None => false,
    }
}
