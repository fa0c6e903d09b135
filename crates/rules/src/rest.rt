// Refusal 16: an unlock within the mutex's rest row, and an entry within the rest rows of the mutexes that it lacks.
ghost use Rattle.std.specs.Prelude.{◌≡◌, not, ◌&&◌, ◌+◌, ◌<◌, ◌≤◌};
ghost use Rattle.std.specs.Int.Signed.{le_z};
ghost use Rattle.words.specs.Words.{word_of};
ghost use Rattle.words.specs.First.{first_bad_in};
ghost use Rattle.table.specs.Layout.{sizes_of};
ghost use Rattle.table.specs.declared.Point.TheVariants.{Unlock};
ghost use Rattle.rules.specs.Held.{has_of};
ghost use Rattle.rules.specs.Proposal.{entries_of, held_of, row_at, rest_at};
ghost use Rattle.rules.specs.Outcomes.{outcomes_by};
ghost use Rattle.rules.specs.Rules.{implies, rests, rest_point, rest_entry, rule16};

use crate::checked::Checked;
use crate::held::has;
use crate::proposal::{is_reached, word_at};
use crate::rows::{is_inside, row_within};
use interval::Interval;
use table::Point;
use table::decode::point_at;
use words::{Places, all_below, first_bad_in};

// An unlock of m at the point p.
#[tactic(auto, unfolding(crate::specs::Outcomes::outcomes_with, crate::specs::Outcomes::outcomes_by, crate::specs::Outcomes::only_if, crate::specs::Outcomes::outcome_if, crate::specs::Rules::all_outcomes, crate::specs::Rules::rests))]
fn unlock_rests(all: &Checked, m: usize, q: usize, p: usize) -> bool
    requires { (m < (sizes_of all.now.proposal.table.words.now).mutexes) × (p < (sizes_of all.now.proposal.table.words.now).points) }
    ensures { result ≡ rests all.now.proposal.table.words.now all.now.proposal.words.now (Unlock m q) (outcomes_by all.now.proposal.table.words.now all.now.proposal.words.now (Unlock m q) (held_of all.now.proposal.words.now p) (row_at all.now.proposal.table.words.now all.now.proposal.words.now p)) }
{
    if !has(all.proposal.held(p), m) {
        return true;
    }
    let variables = all.proposal.table.sizes.variables;
    row_within(&all.row(p), &all.rest(m), variables)
}

#[tactic(auto, unfolding(crate::specs::Outcomes::outcomes_of, crate::specs::Rules::rests, crate::specs::Rules::rest_point))]
fn rest_point(all: &Checked, p: usize) -> bool
    requires { p < (sizes_of all.now.proposal.table.words.now).points }
    ensures { result ≡ rest_point all.now.proposal.table.words.now all.now.proposal.words.now p }
{
    if !is_reached(all.proposal.held(p)) {
        return true;
    }
    match point_at(all.proposal.table.points, p) {
        Point::Unlock(m, q) => unlock_rests(all, m, q, p),
        _ => true,
    }
}

// The points of a range.
#[tactic(auto, using(crate::proofs::RestLaws::rest_at_point))]
pub(crate) fn first_rest_point(all: &Checked, r: Places) -> Option<usize>
    requires { r.to ≤ (sizes_of all.now.proposal.table.words.now).points }
    ensures { result ≡ first_bad_in (rule16 all.now.proposal.table.words.now all.now.proposal.words.now) r }
{
    first_bad_in(r, |p| rest_point(all, p))
}

// Whether the held set s has the mutex m, or x lies within the interval of the variable v in m's rest row, which is read straight from all ends.
#[tactic(auto, using(crate::proofs::RestLaws::rest_fits, crate::proofs::RestLaws::rest_low, crate::proofs::RestLaws::rest_high, words::proofs::Signed::read_back))]
fn rests_at(all: &Checked, s: usize, v: usize, x: Interval, m: usize) -> bool
    requires { (m < (sizes_of all.now.proposal.table.words.now).mutexes) × (v < (sizes_of all.now.proposal.table.words.now).variables) }
    ensures { result ≡ implies (not (has_of s m)) (le_z (word_of (rest_at all.now.proposal.table.words.now all.now.proposal.words.now m).lows v) x.low && le_z x.high (word_of (rest_at all.now.proposal.table.words.now all.now.proposal.words.now m).highs v)) }
{
    if has(s, m) {
        return true;
    }
    let rows = all.proposal.rows;
    let sizes = all.proposal.table.sizes;
    let k = (sizes.points + m) * sizes.variables + v;
    is_inside(x.low, x.high, word_at(rows.lows, k), word_at(rows.highs, k))
}

// Entry i, which is read once, and each mutex.
fn rest_entry(all: &Checked, i: usize) -> bool
    requires { i < entries_of all.now.proposal.words.now }
    ensures { result ≡ rest_entry all.now.proposal.table.words.now all.now.proposal.words.now i }
{
    let s = all.proposal.head(i, 1);
    let v = all.variable(i);
    let x = all.span(i);
    let mutexes = all.proposal.table.sizes.mutexes;
    all_below(mutexes, |m| rests_at(all, s, v, x, m))
}

// The entries of a range of places, which are points + entry.
#[tactic(auto, using(crate::proofs::RestLaws::rest_at_entry))]
pub(crate) fn first_rest_entry(all: &Checked, r: Places) -> Option<usize>
    requires { ((sizes_of all.now.proposal.table.words.now).points ≤ r.from) × (r.to ≤ (sizes_of all.now.proposal.table.words.now).points + entries_of all.now.proposal.words.now) }
    ensures { result ≡ first_bad_in (rule16 all.now.proposal.table.words.now all.now.proposal.words.now) r }
{
    let points = all.proposal.table.sizes.points;
    first_bad_in(r, |place| rest_entry(all, place - points))
}
