// Refusal 15: a scan over points and, inside it, over entries that ends at the first pair that fails. A point whose row holds the hull of the
// other tasks' entries is passed over without the inner scan.
ghost use Rattle.std.specs.Prelude.{◌≡◌, not, ◌+◌, ◌<◌, ◌≤◌, length, set};
ghost use Rattle.std.specs.Int.{int_min, int_max};
ghost use Rattle.words.specs.Words.{word_of};
ghost use Rattle.words.specs.First.{all_below, first_bad_in};
ghost use Rattle.table.specs.Layout.{sizes_of};
ghost use Rattle.analysis.specs.Rows.{row_of, seen};
ghost use Rattle.rules.specs.Proposal.{entries_of};
ghost use Rattle.rules.specs.Rules.{implies, takes, disturbs, rule15};
ghost use Rattle.rules.specs.Ready.{Whole, Around, holds_hull};

use crate::checked::Checked;
use crate::held::disjoint;
use crate::proposal::{is_reached, word_at};
use crate::rows::is_inside;
use analysis::{Ends, Row};
use interval::Interval;
use table::layout::task_of;
use words::{Places, all_below, filled};

// Whether the row's interval holds entry i.
#[tactic(auto, using(crate::proofs::DisturbLaws::taken_is, words::proofs::Signed::read_back))]
fn is_taken(all: &Checked, row: &Ends, i: usize) -> bool
    requires whole { Whole all.now.proposal.table.words.now row.now.lows.now row.now.highs.now }
    requires i_bound { i < entries_of all.now.proposal.words.now }
    ensures { result ≡ takes all.now.proposal.table.words.now all.now.proposal.words.now (seen row.now) i }
{
    let v = all.variable(i);
    let x = all.span(i);
    is_inside(x.low, x.high, word_at(row.lows, v), word_at(row.highs, v))
}

// Whether entry i is outside the row, of another task than u, with a held set disjoint from s. Most entries lie within the row, so that is
// asked first.
#[tactic(auto, unfolding(crate::specs::Rules::disturbs))]
fn is_disturbed(all: &Checked, u: usize, s: usize, row: &Ends, i: usize) -> bool
    requires whole { Whole all.now.proposal.table.words.now row.now.lows.now row.now.highs.now }
    requires i_bound { i < entries_of all.now.proposal.words.now }
    ensures { result ≡ not (implies (disturbs all.now.proposal.table.words.now all.now.proposal.words.now u s i) (takes all.now.proposal.table.words.now all.now.proposal.words.now (seen row.now) i)) }
{
    let p = &all.proposal;
    !is_taken(all, row, i) && p.head(i, 0) != u && disjoint(p.head(i, 1), s)
}

// The row with the interval of v widened by x: the lesser low end, and the greater high end.
fn widen_to(row: &mut Row, v: usize, x: Interval)
    requires { v < 16 }
    ensures value { row.new ≡ row_of (set row.old.lows v (int_min (word_of row.old.lows v) x.low)) (set row.old.highs v (int_max (word_of row.old.highs v) x.high)) }
    ensures there { (v < length row.old.lows) × (v < length row.old.highs) }
{
    row.lows[v] = row.lows[v].min(x.low);
    row.highs[v] = row.highs[v].max(x.high);
}

// The row that is around the entries before i, around entry i too unless it is one of the task u.
fn widen_by(row: &mut Row, all: &Checked, i: usize, u: usize)
    requires i_bound { i < entries_of all.now.proposal.words.now }
    requires around { Around all.now.proposal.table.words.now all.now.proposal.words.now u row.old i }
    ensures { Around all.now.proposal.table.words.now all.now.proposal.words.now u row.new (i + 1) }
{
    if all.proposal.head(i, 0) == u {
        return;
    }
    widen_to(row, all.variable(i), all.span(i));
}

// The hull of the entries of other tasks than u: of each variable the least low end and the greatest high end. A variable without entries keeps the
// ends of no interval, which every row holds.
fn hull(all: &Checked, u: usize) -> Row
    ensures { Around all.now.proposal.table.words.now all.now.proposal.words.now u result (entries_of all.now.proposal.words.now) }
{
    let mut row = Row {
        lows: filled(i32::MAX),
        highs: filled(i32::MIN),
    };
    for i in 0..all.proposal.entries {
        widen_by(&mut row, all, i, u);
    }
    row
}

// The hull for the task u in the place of that for a task: tasks own consecutive points, so that it mostly stays.
fn hull_for(around: &mut Row, task: usize, all: &Checked, u: usize)
    requires { Around all.now.proposal.table.words.now all.now.proposal.words.now task around.old (entries_of all.now.proposal.words.now) }
    ensures { Around all.now.proposal.table.words.now all.now.proposal.words.now u around.new (entries_of all.now.proposal.words.now) }
{
    if task != u {
        *around = hull(all, u);
    }
}

// Whether a row holds the hull at each variable, and so every entry that the hull is around.
fn holds_hull(hull: &Row, row: &Ends) -> bool
    requires { (length row.now.lows.now ≤ 16) × (length row.now.highs.now ≡ length row.now.lows.now) }
    ensures { result ≡ all_below (holds_hull hull.now (seen row.now)) (length row.now.lows.now) }
{
    all_below(
        row.lows.len(),
        |v| is_inside(hull.lows[v], hull.highs[v], row.lows[v], row.highs[v]),
    )
}

pub(crate) fn first_disturbed(all: &Checked, r: Places) -> Option<usize>
    requires { r.to ≤ (sizes_of all.now.proposal.table.words.now).points }
    ensures { result ≡ first_bad_in (rule15 all.now.proposal.table.words.now all.now.proposal.words.now) r }
{
    let table = all.proposal.table.words;
    let mut u = task_of(table, r.from);
    let mut around = hull(all, u);
    let mut found = None;
    'pairs: for p in r.from..r.to {
        let s = all.proposal.held(p);
        if !is_reached(s) {
            continue 'pairs;
        }
        let task = u;
        u = task_of(table, p);
        hull_for(&mut around, task, all, u);
        let row = all.row(p);
        if holds_hull(&around, &row) {
            continue 'pairs;
        }
        for i in 0..all.proposal.entries {
            if is_disturbed(all, u, s, &row, i) {
                found = Some(p);
                break 'pairs;
            }
        }
    }
    found
}
