// Rules 12, 13 and 14 at a point, with the alarms of its expression marked in the same walk.
#![tactic(auto, unfolding(analysis::specs::Alarms::marked_of, analysis::specs::Rows::maybe_by, analysis::specs::Rows::row_if, crate::specs::Alarms::alarms_at, crate::specs::Alarms::alarms_by, crate::specs::Alarms::alarms_if, crate::specs::Outcomes::assigned, crate::specs::Outcomes::meet_rows_of, crate::specs::Outcomes::only_if, crate::specs::Outcomes::outcome_if, crate::specs::Outcomes::outcomes_by, crate::specs::Outcomes::outcomes_of, crate::specs::Outcomes::outcomes_with, crate::specs::Outcomes::written_of, crate::specs::Points::fits_at, crate::specs::Points::fits_by, crate::specs::Rules::all_outcomes, crate::specs::Rules::filed, crate::specs::Rules::locks_fit, crate::specs::Rules::rows_fit, crate::specs::Rules::rule12, crate::specs::Rules::rule13, crate::specs::Rules::rule14, crate::specs::Rules::writes))]

ghost use Rattle.std.specs.Prelude.{◌≡◌, true, ◌&&◌, ◌<◌};
ghost use Rattle.interval.specs.Interval.{taken_of};
ghost use Rattle.table.specs.Layout.{sizes_of, points_of};
ghost use Rattle.table.specs.Decode.{point_of};
ghost use Rattle.table.specs.Tree.{compare, arith_at, cond_at};
ghost use Rattle.table.specs.declared.Point.TheVariants.{Assign, Test, Lock, Unlock};
ghost use Rattle.analysis.specs.Rows.{seen, own_of, maybe_by};
ghost use Rattle.analysis.specs.Alarms.{marked_of};
ghost use Rattle.analysis.specs.Analysis.{cond_alarms_of};
ghost use Rattle.analysis.specs.Cuts.{cut_row_of};
ghost use Rattle.rules.specs.Outcomes.{outcome_if};
ghost use Rattle.rules.specs.Alarms.{alarms_at};
ghost use Rattle.rules.specs.Ready.{Ordered};
ghost use Rattle.rules.specs.Points.{fits_at};
ghost use Rattle.rules.specs.Reached.{table_at, nodes_at, There, fits_there, alarms_there, side_there, tested_there};

use crate::Fits;
use crate::checked::Checked;
use crate::entry::is_filed;
use crate::held::{has, with, without};
use crate::proposal::is_reached;
use crate::reached::Reached;
use crate::rows::{meets, met_within, row_within, written_within};
use analysis::Row;
use analysis::evaluate::{sides, value_on};
use analysis::narrow::{bare, met_if, other_if, variable_or};
use interval::narrow::cuts;
use interval::{Comparison, Cuts, Interval};
use table::decode::{point_at, shape_at};
use table::layout::task_of;
use table::{Point, Shape};

// Where there is no outcome and nothing is written, nothing fails.
fn no_outcome() -> Fits
    ensures { result ≡ record { locks = true; flow = true; write = true } }
{
    Fits {
        locks: true,
        flow: true,
        write: true,
    }
}

// An assignment of the node e to v, going on at q: the expression is evaluated once, for its alarms and for what is written. One interval is written:
// 16 is past every row.
fn assign_fits(at: &Reached, v: usize, e: usize, q: usize, marks: &mut [u8]) -> Fits
    requires { There at.now q }
    ensures value { result ≡ fits_there at.now (Assign v e q) }
    ensures marks_after { marks.new ≡ marked_of marks.old (alarms_there at.now (Assign v e q)) }
{
    let all = at.all;
    let table = &all.proposal.table;
    let Some(x) = value_on(table.nodes, e, &at.row, marks) else {
        return no_outcome();
    };
    let none = Interval { low: 0, high: 0 };
    let variables = table.sizes.variables;
    Fits {
        locks: all.proposal.held(q) == at.held,
        flow: written_within(&at.row, v, x, 16, none, &all.row(q), variables),
        write: is_filed(all, task_of(table.words, at.point), at.held, v, x),
    }
}

// A side of a test that goes on at q, by what narrowing left: whether there is a row, and the row.
fn side(at: &Reached, q: usize, some: bool, row: &Row) -> Fits
    requires ordered { Ordered row.now.lows row.now.highs (sizes_of (table_at at.now)).variables }
    requires q_bound { There at.now q }
    ensures { result ≡ side_there at.now (outcome_if (maybe_by some row.now) at.now.held q) }
{
    if !some {
        return no_outcome();
    }
    let all = at.all;
    let variables = all.proposal.table.sizes.variables;
    Fits {
        locks: all.proposal.held(q) == at.held,
        flow: row_within(&row.ends(), &all.row(q), variables),
        write: true,
    }
}

// Both sides of a test.
fn both_sides(taken: Fits, other: Fits) -> Fits
    ensures { result ≡ record { locks = taken.locks && other.locks; flow = taken.flow && other.flow; write = true } }
{
    Fits {
        locks: taken.locks & other.locks,
        flow: taken.flow & other.flow,
        write: true,
    }
}

// A side of a test by a comparison, by the cuts u of its variables v and x. No row is made: the target's row is compared with the point's, in which both
// intervals are written.
fn cut_side(at: &Reached, q: usize, v: usize, x: usize, u: Cuts) -> Fits
    requires q_bound { There at.now q }
    requires v_bound { (v ≡ x) → (v < 16) }
    requires left_value { (taken_of u.left ≡ u.left) × (taken_of u.right ≡ u.right) }
    ensures { result ≡ side_there at.now (outcome_if (cut_row_of (own_of (seen at.now.row)) v x u) at.now.held q) }
{
    let last = met_if(v == x, u.left, u.right);
    let Some(left) = u.left else {
        return no_outcome();
    };
    let Some(last) = last else {
        return no_outcome();
    };
    let all = at.all;
    let variables = all.proposal.table.sizes.variables;
    Fits {
        locks: all.proposal.held(q) == at.held,
        flow: written_within(&at.row, v, left, x, last, &all.row(q), variables),
        write: true,
    }
}

// A test by a comparison of the nodes a and b, going on at y or at n.
fn compared_fits(
    at: &Reached,
    k: Comparison,
    a: usize,
    b: usize,
    y: usize,
    n: usize,
    marks: &mut [u8],
) -> Fits
    requires { There at.now y × There at.now n }
    ensures value { result ≡ tested_there at.now (compare 0 k (arith_at (nodes_at at.now) a) (arith_at (nodes_at at.now) b)) y n }
    ensures marks_after { marks.new ≡ marked_of marks.old (cond_alarms_of (compare 0 k (arith_at (nodes_at at.now) a) (arith_at (nodes_at at.now) b)) (own_of (seen at.now.row))) }
{
    let all = at.all;
    let nodes = all.proposal.table.nodes;
    let left = value_on(nodes, a, &at.row, marks);
    let right = value_on(nodes, b, &at.row, marks);
    let v = variable_or(nodes, a, 16);
    let x = variable_or(nodes, b, 17);
    let yes = cuts(k, true, left, right);
    let no = cuts(k, false, left, right);
    both_sides(cut_side(at, y, v, x, yes), cut_side(at, n, v, x, no))
}

// A test by any condition c. It is evaluated once, for its alarms and for the rows of both sides, which are made here.
fn split_fits(at: &Reached, c: usize, y: usize, n: usize, marks: &mut [u8]) -> Fits
    requires { There at.now y × There at.now n }
    ensures value { result ≡ tested_there at.now (cond_at (nodes_at at.now) c) y n }
    ensures marks_after { marks.new ≡ marked_of marks.old (cond_alarms_of (cond_at (nodes_at at.now) c) (own_of (seen at.now.row))) }
{
    let all = at.all;
    let row = at.row.own();
    let mut yes = Row::default();
    let mut no = Row::default();
    let nodes = all.proposal.table.nodes;
    let said = sides(nodes, c, &row, marks, &mut yes, &mut no);
    both_sides(side(at, y, said.yes, &yes), side(at, n, said.no, &no))
}

// A test of the condition c, going on at y or at n. The 'not' around it only turn it.
fn test_fits(at: &Reached, c: usize, y: usize, n: usize, marks: &mut [u8]) -> Fits
    requires { There at.now y × There at.now n }
    ensures value { result ≡ fits_there at.now (Test c y n) }
    ensures marks_after { marks.new ≡ marked_of marks.old (alarms_there at.now (Test c y n)) }
{
    let all = at.all;
    let nodes = all.proposal.table.nodes;
    let under = bare(nodes, c);
    let yes = other_if(under.turned, y, n);
    let no = other_if(under.turned, n, y);
    match shape_at(nodes, under.node) {
        Shape::Compare(k, a, b) => compared_fits(at, k, a, b, yes, no, marks),
        _ => split_fits(at, under.node, yes, no, marks),
    }
}

// A lock of m, going on at q.
fn lock_fits(at: &Reached, m: usize, q: usize) -> Fits
    requires { (m < (sizes_of (table_at at.now)).mutexes) × There at.now q }
    ensures { result ≡ fits_there at.now (Lock m q) }
{
    if has(at.held, m) {
        return no_outcome();
    }
    let all = at.all;
    let variables = all.proposal.table.sizes.variables;
    let rest = all.rest(m);
    if !meets(&at.row, &rest, variables) {
        return no_outcome();
    }
    Fits {
        locks: all.proposal.held(q) == with(at.held, m),
        flow: met_within(&at.row, &rest, &all.row(q), variables),
        write: true,
    }
}

// An unlock of m, going on at q.
fn unlock_fits(at: &Reached, m: usize, q: usize) -> Fits
    requires { (m < (sizes_of (table_at at.now)).mutexes) × There at.now q }
    ensures { result ≡ fits_there at.now (Unlock m q) }
{
    if !has(at.held, m) {
        return no_outcome();
    }
    let all = at.all;
    let variables = all.proposal.table.sizes.variables;
    Fits {
        locks: all.proposal.held(q) == without(at.held, m),
        flow: row_within(&at.row, &all.row(q), variables),
        write: true,
    }
}

// What stands at the point picks the function that looks at it.
fn reached_fits(at: &Reached, marks: &mut [u8]) -> Fits
    ensures value { result ≡ fits_there at.now (point_of (points_of (table_at at.now)) at.now.point) }
    ensures marks_after { marks.new ≡ marked_of marks.old (alarms_there at.now (point_of (points_of (table_at at.now)) at.now.point)) }
{
    let all = at.all;
    match point_at(all.proposal.table.points, at.point) {
        Point::End => no_outcome(),
        Point::Assign(v, e, q) => assign_fits(at, v, e, q, marks),
        Point::Test(c, y, n) => test_fits(at, c, y, n, marks),
        Point::Lock(m, q) => lock_fits(at, m, q),
        Point::Unlock(m, q) => unlock_fits(at, m, q),
    }
}

// Rules 12, 13 and 14 at the point p; its alarms are marked if it is reached.
pub(crate) fn point_fits(all: &Checked, p: usize, marks: &mut [u8]) -> Fits
    requires { p < (sizes_of all.now.proposal.table.words.now).points }
    ensures value { result ≡ fits_at all.now.proposal.table.words.now all.now.proposal.words.now p }
    ensures marks_after { marks.new ≡ marked_of marks.old (alarms_at all.now.proposal.table.words.now all.now.proposal.words.now p) }
{
    let s = all.proposal.held(p);
    if !is_reached(s) {
        return no_outcome();
    }
    reached_fits(&Reached::at(all, p, s), marks)
}
