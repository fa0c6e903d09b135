// Refusal 11: what holds at the start.
ghost use Rattle.std.specs.Prelude.{◌≡◌, ◌&&◌, ◌<◌, ◌≤◌, eqb, length};
ghost use Rattle.words.specs.First.{places, first_bad_in};
ghost use Rattle.table.specs.Layout.{sizes_of};
ghost use Rattle.analysis.specs.Rows.{seen};
ghost use Rattle.rules.specs.Proposal.{rows_of, held_of, row_at};
ghost use Rattle.rules.specs.Rules.{holds_start, rule11};

use crate::proposal::Proposal;
use crate::rows::is_inside;
use analysis::Ends;
use table::Table;
use words::{Places, all_below, first_bad_in, number_at};

// Whether the starting values lie within a row: each is compared with both ends.
#[tactic(auto, using(crate::proofs::StartLaws::starts_count))]
fn holds_start(table: &Table, row: &Ends) -> bool
    requires { ((sizes_of table.now.words.now).variables ≤ length row.now.lows.now) × ((sizes_of table.now.words.now).variables ≤ length row.now.highs.now) }
    ensures { result ≡ holds_start table.now.words.now (seen row.now) }
{
    all_below(
        table.sizes.variables,
        |v| is_inside(table.starts[v], table.starts[v], row.lows[v], row.highs[v]),
    )
}

// Whether they lie within row k.
fn row_starts(p: &Proposal, k: usize) -> bool
    requires { k < rows_of p.now.table.words.now }
    ensures { result ≡ holds_start p.now.table.words.now (row_at p.now.table.words.now p.now.words.now k) }
{
    holds_start(&p.table, &p.row(k))
}

// Whether a task can start at the point first: no mutex is held there, and the starting values lie within the row.
fn point_starts(p: &Proposal, first: usize) -> bool
    requires { first < (sizes_of p.now.table.words.now).points }
    ensures { result ≡ eqb (held_of p.now.words.now first) 0 && holds_start p.now.table.words.now (row_at p.now.table.words.now p.now.words.now first) }
{
    p.held(first) == 0 && row_starts(p, first)
}

// The first points of the tasks, each past the points of the tasks before. Any other point passes, so none is looked at.
#[tactic(auto, using(crate::proofs::StartLaws::start_below))]
pub(crate) fn first_start_point(p: &Proposal) -> Option<usize>
    ensures { result ≡ first_bad_in (rule11 p.now.table.words.now p.now.words.now) (places 0 (sizes_of p.now.table.words.now).points) }
{
    let table = &p.table;
    let mut first = 0;
    for u in 0..table.sizes.tasks {
        if !point_starts(p, first) {
            return Some(first);
        }
        first += number_at(table.shares, u);
    }
    None
}

// The rest rows of a range of places, which are points + mutex.
#[tactic(auto, using(crate::proofs::StartLaws::start_at_rest))]
pub(crate) fn first_start_rest(p: &Proposal, r: Places) -> Option<usize>
    requires { ((sizes_of p.now.table.words.now).points ≤ r.from) × (r.to ≤ rows_of p.now.table.words.now) }
    ensures { result ≡ first_bad_in (rule11 p.now.table.words.now p.now.words.now) r }
{
    first_bad_in(r, |place| row_starts(p, place))
}
