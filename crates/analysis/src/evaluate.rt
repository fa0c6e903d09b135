// The interval of arithmetic on a row, and what a condition says of a row, with their alarms marked in the same walk. They call each other, the node
// number falling. A comparison's sides are evaluated once, on the row that is read, for its decision and for what it cuts; they are evaluated again, without
// alarms, only for a row that isn't a copy of that. No comparison copies a row. One is made for a branch of a choice, and for a pair of conditions that is
// joined where a place is taken (`split_apart`, `split_turned`). A point's row is read where it lies in the proposal (`value_on`).
ghost use Rattle.std.specs.Prelude.{◌≡◌, true, false, not};
ghost use Rattle.interval.specs.Interval.{span};
ghost use Rattle.interval.specs.Compare.{decision, opposite_of, compare_of};
ghost use Rattle.interval.specs.Narrow.{cuts_of};
ghost use Rattle.table.specs.Tree.{choice, compare, arith_at, cond_at};
ghost use Rattle.analysis.specs.Rows.{seen, own_of, maybe_by, row_if, join_rows_of};
ghost use Rattle.analysis.specs.Alarms.{marked_of};
ghost use Rattle.analysis.specs.Analysis.{value_of, alarms_of, decision_of, cond_alarms_of, narrow_of, range_on, alarms_on};
ghost use Rattle.analysis.specs.Cuts.{cut_row_of};
ghost use Rattle.analysis.specs.Arrays.{left_of, split_of, pair_of, combined_of, CopyIf, KnownIf};

use crate::alarms::mark_told;
use crate::narrow::{add_cuts, bare, other_if, put_cuts, variable_or};
use crate::{Asked, Compared, Ends, Row, Said, SlotCuts, Split};
use interval::arithmetic::{negate, operate};
use interval::compare::{both, compare, either, opposite};
use interval::lattice::join;
use interval::narrow::cuts;
use interval::{Comparison, Cuts, Decision, Interval};
use table::Shape;
use table::decode::{node_at, operation_of, shape_at};

// What is asked first: the truth, with copies of the row that is read in both places.
fn asked_of<'a>(nodes: &'a [i32], row: &'a Row) -> Asked<'a>
    ensures lent { (result.nodes.now ≡ nodes.now) × (result.row.now ≡ row.now) × (result.from.now ≡ row.now) }
    ensures flags { (result.truth ≡ true) × (result.copy ≡ true) × (result.from_copy ≡ true) × (result.some ≡ false) }
{
    Asked {
        nodes,
        row,
        truth: true,
        copy: true,
        from: row,
        from_copy: true,
        some: false,
    }
}

fn single(z: i32) -> Option<Interval>
    ensures { result ≡ span z z }
{
    Some(Interval { low: z, high: z })
}

// The interval of the arithmetic node n on a row of its own; 0 where it is no arithmetic, or has a child that is not below it. The kind's number is matched,
// here and in `value_on`: a shape would be put into memory only to be told apart again.
#[cycle(trees)]
#[tactic(auto, using(crate::proofs::NodeTreeLaws::node_trees, crate::proofs::AlarmLaws::marked_append), unfolding(crate::specs::Analysis::value_of, crate::specs::Alarms::marked_of))]
pub fn value(nodes: &[i32], n: usize, row: &Row, marks: &mut [u8]) -> Option<Interval>
    ensures value { result ≡ value_of (arith_at nodes.now n) row.now }
    ensures marks_after { marks.new ≡ marked_of marks.old (alarms_of (arith_at nodes.now n) row.now) }
{
    let f = node_at(nodes, n);
    match f.kind {
        0 => single(f.x),
        1 => Some(Interval {
            low: f.x,
            high: f.x.max(f.y),
        }),
        2 => row.range(f.a),
        3 if f.a < n => {
            let x = value(nodes, f.a, row, marks);
            mark_told(marks, n, negate(x))
        }
        4..=7 | 9 if (f.a < n) & (f.b < n) => {
            let x = value(nodes, f.a, row, marks);
            let y = value(nodes, f.b, row, marks);
            mark_told(marks, n, operate(operation_of(f.kind), x, y))
        }
        8 if (f.a < n) & ((f.b < n) & (f.c < n)) => choose(nodes, f.a, f.b, f.c, row, marks),
        _ => single(0),
    }
}

// A choice by the condition node c. The 'not' around it only turn it. A comparison cuts at most two intervals, so that its branches need a row only where
// they are taken.
#[cycle(trees)]
#[tactic(auto, using(crate::proofs::WalkLaws::bare_choices))]
fn choose(
    nodes: &[i32],
    c: usize,
    a: usize,
    b: usize,
    row: &Row,
    marks: &mut [u8],
) -> Option<Interval>
    ensures value { result ≡ value_of (choice 0 (cond_at nodes.now c) (arith_at nodes.now a) (arith_at nodes.now b)) row.now }
    ensures marks_after { marks.new ≡ marked_of marks.old (alarms_of (choice 0 (cond_at nodes.now c) (arith_at nodes.now a) (arith_at nodes.now b)) row.now) }
{
    let under = bare(nodes, c);
    let then = other_if(under.turned, a, b);
    let other = other_if(under.turned, b, a);
    match shape_at(nodes, under.node) {
        Shape::Compare(comparison, left, right) => {
            let compared = Compared {
                comparison,
                left,
                right,
            };
            choose_by(nodes, compared, then, other, row, marks)
        }
        _ => choose_split(nodes, under.node, then, other, row, marks),
    }
}

// A choice by a comparison.
#[cycle(trees)]
#[tactic(auto, using(crate::proofs::WalkLaws::cut_choices))]
fn choose_by(
    nodes: &[i32],
    c: Compared,
    a: usize,
    b: usize,
    row: &Row,
    marks: &mut [u8],
) -> Option<Interval>
    ensures value { result ≡ value_of (choice 0 (compare 0 c.comparison (arith_at nodes.now c.left) (arith_at nodes.now c.right)) (arith_at nodes.now a) (arith_at nodes.now b)) row.now }
    ensures marks_after { marks.new ≡ marked_of marks.old (alarms_of (choice 0 (compare 0 c.comparison (arith_at nodes.now c.left) (arith_at nodes.now c.right)) (arith_at nodes.now a) (arith_at nodes.now b)) row.now) }
{
    let left = value(nodes, c.left, row, marks);
    let right = value(nodes, c.right, row, marks);
    let d = compare(c.comparison, left, right);
    let v = variable_or(nodes, c.left, 16);
    let w = variable_or(nodes, c.right, 17);
    let yes = SlotCuts {
        v,
        w,
        cuts: cuts(c.comparison, true, left, right),
    };
    let no = SlotCuts {
        v,
        w,
        cuts: cuts(c.comparison, false, left, right),
    };
    let then = cut_branch(d.yes, nodes, a, yes, row, marks);
    let other = cut_branch(d.no, nodes, b, no, row, marks);
    join(then, other)
}

// A branch of such a choice, with the cuts u. Only where the decision allows it a row is made for it.
#[cycle(trees)]
#[tactic(auto, unfolding(crate::specs::Rows::row_if, crate::specs::Analysis::range_on, crate::specs::Analysis::alarms_on, crate::specs::Alarms::marked_of))]
fn cut_branch(
    allowed: bool,
    nodes: &[i32],
    n: usize,
    u: SlotCuts,
    row: &Row,
    marks: &mut [u8],
) -> Option<Interval>
    ensures value { result ≡ range_on (row_if allowed (cut_row_of row.now u.v u.w u.cuts)) (value_of (arith_at nodes.now n)) }
    ensures marks_after { marks.new ≡ marked_of marks.old (alarms_on (row_if allowed (cut_row_of row.now u.v u.w u.cuts)) (alarms_of (arith_at nodes.now n))) }
{
    if !allowed {
        return None;
    }
    let mut own = *row;
    let some = put_cuts(&mut own, u);
    branch(some, nodes, n, &own, marks)
}

// A choice by any condition node c. Its branches' rows are made here, and the condition narrows them in their places.
#[cycle(trees)]
#[tactic(auto, using(crate::proofs::WalkLaws::taken_both, crate::proofs::AlarmLaws::marked_append), unfolding(crate::specs::Analysis::value_of, crate::specs::Rows::maybe_by, crate::specs::Rows::join_rows_of))]
fn choose_split(
    nodes: &[i32],
    c: usize,
    a: usize,
    b: usize,
    row: &Row,
    marks: &mut [u8],
) -> Option<Interval>
    ensures value { result ≡ value_of (choice 0 (cond_at nodes.now c) (arith_at nodes.now a) (arith_at nodes.now b)) row.now }
    ensures marks_after { marks.new ≡ marked_of marks.old (alarms_of (choice 0 (cond_at nodes.now c) (arith_at nodes.now a) (arith_at nodes.now b)) row.now) }
{
    let mut yes = *row;
    let mut no = *row;
    let asked = asked_of(nodes, row);
    let s = split(&asked, c, marks, &mut yes, &mut no);
    let x = branch(s.decision.yes & s.narrowed, nodes, a, &yes, marks);
    let y = branch(s.decision.no & s.joined, nodes, b, &no, marks);
    join(x, y)
}

// A branch of a choice: the interval of the arithmetic node n where the branch is taken, else none.
#[cycle(trees)]
#[tactic(auto, unfolding(crate::specs::Rows::maybe_by, crate::specs::Analysis::range_on, crate::specs::Analysis::alarms_on, crate::specs::Alarms::marked_of))]
fn branch(taken: bool, nodes: &[i32], n: usize, row: &Row, marks: &mut [u8]) -> Option<Interval>
    ensures value { result ≡ range_on (maybe_by taken row.now) (value_of (arith_at nodes.now n)) }
    ensures marks_after { marks.new ≡ marked_of marks.old (alarms_on (maybe_by taken row.now) (alarms_of (arith_at nodes.now n))) }
{
    if taken {
        value(nodes, n, row, marks)
    } else {
        None
    }
}

// The same of the opposite, with the places exchanged: what is narrowed starts from the row that the opposite started from, and what is joined from another.
fn turned<'a>(asked: &'a Asked, from: &'a Row) -> Asked<'a>
    ensures lent { (result.nodes.now ≡ asked.now.nodes.now) × (result.row.now ≡ asked.now.row.now) × (result.from.now ≡ from.now) }
    ensures flags { (result.truth ≡ not asked.now.truth) × (result.copy ≡ asked.now.from_copy) × (result.from_copy ≡ asked.now.copy) × (result.some ≡ false) }
{
    Asked {
        nodes: asked.nodes,
        row: asked.row,
        truth: !asked.truth,
        copy: asked.from_copy,
        from,
        from_copy: asked.copy,
        some: false,
    }
}

// What the condition node n says of the row: its decision, with its alarms. The row narrowed is narrowed in its place by the truth that is asked for. What
// the opposite leaves of the row from is joined to the row joined, if there is one, in that one's place; as long as there is none, a copy of the row from
// stands there, so that a comparison puts its cuts in and copies nothing.
#[cycle(trees)]
#[tactic(auto, using(crate::proofs::NodeTreeLaws::condition_trees, crate::proofs::BareLaws::not_narrows, crate::proofs::BareLaws::not_not, crate::proofs::AlarmLaws::marked_append), unfolding(crate::specs::Analysis::value_of, crate::specs::Arrays::pair_of))]
fn split(asked: &Asked, n: usize, marks: &mut [u8], narrowed: &mut Row, joined: &mut Row) -> Said
    requires { CopyIf asked.now.copy narrowed.old asked.now.row.now × CopyIf asked.now.from_copy asked.now.from.now asked.now.row.now × CopyIf (not asked.now.some) joined.old asked.now.from.now }
    ensures copy_if { CopyIf (not result.joined) joined.new asked.now.from.now }
    ensures decision_value { result.decision ≡ decision_of (cond_at asked.now.nodes.now n) asked.now.row.now }
    ensures narrowed_after { maybe_by result.narrowed narrowed.new ≡ narrow_of (cond_at asked.now.nodes.now n) asked.now.truth narrowed.old }
    ensures joined_after { maybe_by result.joined joined.new ≡ join_rows_of (maybe_by asked.now.some joined.old) (narrow_of (cond_at asked.now.nodes.now n) (not asked.now.truth) asked.now.from.now) }
    ensures marks_after { marks.new ≡ marked_of marks.old (cond_alarms_of (cond_at asked.now.nodes.now n) asked.now.row.now) }
{
    match shape_at(asked.nodes, n) {
        Shape::Compare(comparison, left, right) => {
            let compared = Compared {
                comparison,
                left,
                right,
            };
            let x = value(asked.nodes, left, asked.row, marks);
            let y = value(asked.nodes, right, asked.row, marks);
            split_by(asked, compared, x, y, narrowed, asked.from, joined)
        }
        Shape::Both(a, b) => {
            if asked.truth {
                split_in_turn(asked, a, b, marks, narrowed, joined)
            } else {
                split_joined(asked, a, b, marks, narrowed, joined)
            }
        }
        Shape::Either(a, b) => {
            if asked.truth {
                split_joined(asked, a, b, marks, narrowed, joined)
            } else {
                split_in_turn(asked, a, b, marks, narrowed, joined)
            }
        }
        Shape::Not(a) => {
            let turned = Asked {
                truth: !asked.truth,
                ..*asked
            };
            opposed(split(&turned, a, marks, narrowed, joined))
        }
        _ => no_condition(asked, joined),
    }
}

// The row narrowed is narrowed by the left side and then by the right; what their opposites leave of the row from is joined. No row is made. The right
// side is decided on the row that is read.
#[cycle(trees)]
#[tactic(auto, using(crate::proofs::WalkLaws::pairs))]
fn split_in_turn(
    asked: &Asked,
    a: usize,
    b: usize,
    marks: &mut [u8],
    narrowed: &mut Row,
    joined: &mut Row,
) -> Said
    requires { CopyIf asked.now.copy narrowed.old asked.now.row.now × CopyIf asked.now.from_copy asked.now.from.now asked.now.row.now × CopyIf (not asked.now.some) joined.old asked.now.from.now }
    ensures copy_if { CopyIf (not result.joined) joined.new asked.now.from.now }
    ensures decision_value { result.decision ≡ decision_of (pair_of asked.now.truth (cond_at asked.now.nodes.now a) (cond_at asked.now.nodes.now b)) asked.now.row.now }
    ensures narrowed_after { maybe_by result.narrowed narrowed.new ≡ narrow_of (pair_of asked.now.truth (cond_at asked.now.nodes.now a) (cond_at asked.now.nodes.now b)) asked.now.truth narrowed.old }
    ensures joined_after { maybe_by result.joined joined.new ≡ join_rows_of (maybe_by asked.now.some joined.old) (narrow_of (pair_of asked.now.truth (cond_at asked.now.nodes.now a) (cond_at asked.now.nodes.now b)) (not asked.now.truth) asked.now.from.now) }
    ensures marks_after { marks.new ≡ marked_of marks.old (cond_alarms_of (pair_of asked.now.truth (cond_at asked.now.nodes.now a) (cond_at asked.now.nodes.now b)) asked.now.row.now) }
{
    let s = split(asked, a, marks, narrowed, joined);
    let next = Asked {
        copy: narrowed.is_copy(s.narrowed, asked.row),
        some: s.joined,
        ..*asked
    };
    let t = split(&next, b, marks, narrowed, joined);
    Said {
        decision: combine(asked.truth, s.decision, t.decision),
        narrowed: s.narrowed & t.narrowed,
        joined: t.joined,
    }
}

// The other way round: what both sides leave of the row narrowed is joined, and their opposites narrow the row from in turn, as the copy of it that stands in
// the place joined. Where something was joined before, they need a row of their own.
#[cycle(trees)]
#[tactic(auto, unfolding(crate::specs::Rows::maybe_by, crate::specs::Rows::join_rows_of))]
fn split_joined(
    asked: &Asked,
    a: usize,
    b: usize,
    marks: &mut [u8],
    narrowed: &mut Row,
    joined: &mut Row,
) -> Said
    requires { CopyIf asked.now.copy narrowed.old asked.now.row.now × CopyIf asked.now.from_copy asked.now.from.now asked.now.row.now × CopyIf (not asked.now.some) joined.old asked.now.from.now }
    ensures copy_if { CopyIf (not result.joined) joined.new asked.now.from.now }
    ensures decision_value { result.decision ≡ decision_of (pair_of (not asked.now.truth) (cond_at asked.now.nodes.now a) (cond_at asked.now.nodes.now b)) asked.now.row.now }
    ensures narrowed_after { maybe_by result.narrowed narrowed.new ≡ narrow_of (pair_of (not asked.now.truth) (cond_at asked.now.nodes.now a) (cond_at asked.now.nodes.now b)) asked.now.truth narrowed.old }
    ensures joined_after { maybe_by result.joined joined.new ≡ join_rows_of (maybe_by asked.now.some joined.old) (narrow_of (pair_of (not asked.now.truth) (cond_at asked.now.nodes.now a) (cond_at asked.now.nodes.now b)) (not asked.now.truth) asked.now.from.now) }
    ensures marks_after { marks.new ≡ marked_of marks.old (cond_alarms_of (pair_of (not asked.now.truth) (cond_at asked.now.nodes.now a) (cond_at asked.now.nodes.now b)) asked.now.row.now) }
{
    if asked.some {
        return split_apart(asked, a, b, marks, narrowed, joined);
    }
    let s = split_turned(asked, a, b, marks, narrowed, joined);
    joined.copy_unless(s.narrowed, asked.from);
    Said {
        decision: s.decision,
        narrowed: s.joined,
        joined: s.narrowed,
    }
}

// That row is made here, and joined to what was there.
#[cycle(trees)]
#[tactic(auto, unfolding(crate::specs::Rows::maybe_by))]
fn split_apart(
    asked: &Asked,
    a: usize,
    b: usize,
    marks: &mut [u8],
    narrowed: &mut Row,
    joined: &mut Row,
) -> Said
    requires { CopyIf asked.now.copy narrowed.old asked.now.row.now × CopyIf asked.now.from_copy asked.now.from.now asked.now.row.now × (asked.now.some ≡ true) }
    ensures joined_value { result.joined ≡ true }
    ensures decision_value { result.decision ≡ decision_of (pair_of (not asked.now.truth) (cond_at asked.now.nodes.now a) (cond_at asked.now.nodes.now b)) asked.now.row.now }
    ensures narrowed_after { maybe_by result.narrowed narrowed.new ≡ narrow_of (pair_of (not asked.now.truth) (cond_at asked.now.nodes.now a) (cond_at asked.now.nodes.now b)) asked.now.truth narrowed.old }
    ensures joined_after { maybe_by result.joined joined.new ≡ join_rows_of (maybe_by asked.now.some joined.old) (narrow_of (pair_of (not asked.now.truth) (cond_at asked.now.nodes.now a) (cond_at asked.now.nodes.now b)) (not asked.now.truth) asked.now.from.now) }
    ensures marks_after { marks.new ≡ marked_of marks.old (cond_alarms_of (pair_of (not asked.now.truth) (cond_at asked.now.nodes.now a) (cond_at asked.now.nodes.now b)) asked.now.row.now) }
{
    let mut own = *asked.from;
    let s = split_turned(asked, a, b, marks, narrowed, &mut own);
    joined.widen_if(s.narrowed, &own);
    Said {
        decision: s.decision,
        narrowed: s.joined,
        joined: true,
    }
}

// The opposites narrow the row own in turn, and what both sides leave of the row narrowed is joined in its place. They read it while it is written: a row is
// made for that, if it is no copy of the row that is read.
#[cycle(trees)]
#[tactic(auto, unfolding(crate::specs::Rows::maybe_by, crate::specs::Rows::join_rows_of))]
fn split_turned(
    asked: &Asked,
    a: usize,
    b: usize,
    marks: &mut [u8],
    narrowed: &mut Row,
    own: &mut Row,
) -> Said
    requires { CopyIf asked.now.copy narrowed.old asked.now.row.now × CopyIf asked.now.from_copy own.old asked.now.row.now }
    ensures decision_value { result.decision ≡ decision_of (pair_of (not asked.now.truth) (cond_at asked.now.nodes.now a) (cond_at asked.now.nodes.now b)) asked.now.row.now }
    ensures own_after { maybe_by result.narrowed own.new ≡ narrow_of (pair_of (not asked.now.truth) (cond_at asked.now.nodes.now a) (cond_at asked.now.nodes.now b)) (not asked.now.truth) own.old }
    ensures narrowed_after { maybe_by result.joined narrowed.new ≡ narrow_of (pair_of (not asked.now.truth) (cond_at asked.now.nodes.now a) (cond_at asked.now.nodes.now b)) asked.now.truth narrowed.old }
    ensures marks_after { marks.new ≡ marked_of marks.old (cond_alarms_of (pair_of (not asked.now.truth) (cond_at asked.now.nodes.now a) (cond_at asked.now.nodes.now b)) asked.now.row.now) }
{
    if asked.copy {
        let turned = turned(&*asked, &*asked.row);
        return split_in_turn(&turned, a, b, marks, own, narrowed);
    }
    let read = *narrowed;
    let turned = turned(&*asked, &read);
    split_in_turn(&turned, a, b, marks, own, narrowed)
}

// A comparison, the intervals of whose sides on the row that is read are x and y. The row from which the opposite starts is lent by itself: behind another
// reference the check does not know how long its arrays are.
#[cycle(trees)]
#[tactic(auto, using(crate::proofs::WalkLaws::one_slot, crate::proofs::CutLaws::narrow_cuts))]
fn split_by(
    asked: &Asked,
    c: Compared,
    x: Option<Interval>,
    y: Option<Interval>,
    narrowed: &mut Row,
    from: &Row,
    joined: &mut Row,
) -> Said
    requires { KnownIf asked.now.copy asked.now.nodes.now c.left c.right x y narrowed.old × KnownIf asked.now.from_copy asked.now.nodes.now c.left c.right x y from.now × CopyIf (not asked.now.some) joined.old from.now }
    ensures copy_if { CopyIf (not result.joined) joined.new from.now }
    ensures decision_value { result.decision ≡ compare_of c.comparison x y }
    ensures narrowed_after { maybe_by result.narrowed narrowed.new ≡ narrow_of (compare 0 c.comparison (arith_at asked.now.nodes.now c.left) (arith_at asked.now.nodes.now c.right)) asked.now.truth narrowed.old }
    ensures joined_after { maybe_by result.joined joined.new ≡ join_rows_of (maybe_by asked.now.some joined.old) (narrow_of (compare 0 c.comparison (arith_at asked.now.nodes.now c.left) (arith_at asked.now.nodes.now c.right)) (not asked.now.truth) from.now) }
{
    let v = variable_or(asked.nodes, c.left, 16);
    let w = variable_or(asked.nodes, c.right, 17);
    let kept = SlotCuts {
        v,
        w,
        cuts: cuts_on(asked.nodes, c, asked.truth, x, y, asked.copy, &*narrowed),
    };
    let left = put_cuts(narrowed, kept);
    let added = SlotCuts {
        v,
        w,
        cuts: cuts_on(asked.nodes, c, !asked.truth, x, y, asked.from_copy, from),
    };
    let more = add_cuts(asked.some, joined, added, from);
    Said {
        decision: compare(c.comparison, x, y),
        narrowed: left,
        joined: more,
    }
}

// The cuts by which the comparison has the truth wanted on a row. If x and y are known to be the sides' intervals on this row, they serve; else both
// sides are evaluated on it, and no alarm is marked.
#[cycle(trees)]
fn cuts_on(
    nodes: &[i32],
    c: Compared,
    wanted: bool,
    x: Option<Interval>,
    y: Option<Interval>,
    known: bool,
    row: &Row,
) -> Cuts
    requires { KnownIf known nodes.now c.left c.right x y row.now }
    ensures { result ≡ cuts_of c.comparison wanted (value_of (arith_at nodes.now c.left) row.now) (value_of (arith_at nodes.now c.right) row.now) }
{
    if known {
        return cuts(c.comparison, wanted, x, y);
    }
    let mut unmarked = [0u8; 1];
    let u = value(nodes, c.left, row, &mut unmarked);
    let v = value(nodes, c.right, row, &mut unmarked);
    cuts(c.comparison, wanted, u, v)
}

// The decision of both conditions if all, else of either.
#[tactic(auto, unfolding(crate::specs::Arrays::combined_of))]
fn combine(all: bool, d: Decision, e: Decision) -> Decision
    ensures { result ≡ combined_of all d e }
{
    if all { both(d, e) } else { either(d, e) }
}

// The opposite: the rows are those of the truth that was asked for.
fn opposed(s: Said) -> Said
    ensures decision_value { result.decision ≡ opposite_of s.decision }
    ensures narrowed_value { (result.narrowed ≡ s.narrowed) × (result.joined ≡ s.joined) }
{
    Said {
        decision: opposite(s.decision),
        ..s
    }
}

// A node that is no condition is false.
#[tactic(auto, unfolding(crate::specs::Rows::maybe_by, crate::specs::Rows::join_rows_of))]
fn no_condition(asked: &Asked, joined: &mut Row) -> Said
    requires { CopyIf (not asked.now.some) joined.old asked.now.from.now }
    ensures copy_if { CopyIf (not result.joined) joined.new asked.now.from.now }
    ensures decision_value { result.decision ≡ decision false true }
    ensures narrowed_value { result.narrowed ≡ not asked.now.truth }
    ensures joined_after { maybe_by result.joined joined.new ≡ join_rows_of (maybe_by asked.now.some joined.old) (maybe_by asked.now.truth asked.now.from.now) }
{
    if asked.some {
        joined.widen_if(asked.truth, asked.from);
    }
    Said {
        decision: Decision {
            yes: false,
            no: true,
        },
        narrowed: !asked.truth,
        joined: asked.some | asked.truth,
    }
}

// The interval of the arithmetic node n on the sixteen slots of a row that is read where it lies. Only a choice needs a row of its own.
#[tactic(auto, using(crate::proofs::NodeTreeLaws::node_trees, crate::proofs::AlarmLaws::marked_append), unfolding(crate::specs::Analysis::value_of, crate::specs::Alarms::marked_of))]
pub fn value_on(nodes: &[i32], n: usize, row: &Ends<'_>, marks: &mut [u8]) -> Option<Interval>
    ensures value { result ≡ value_of (arith_at nodes.now n) (own_of (seen row.now)) }
    ensures marks_after { marks.new ≡ marked_of marks.old (alarms_of (arith_at nodes.now n) (own_of (seen row.now))) }
{
    let f = node_at(nodes, n);
    match f.kind {
        0 => single(f.x),
        1 => Some(Interval {
            low: f.x,
            high: f.x.max(f.y),
        }),
        2 => row.slot(f.a),
        3 if f.a < n => {
            let x = value_on(nodes, f.a, row, marks);
            mark_told(marks, n, negate(x))
        }
        4..=7 | 9 if (f.a < n) & (f.b < n) => {
            let x = value_on(nodes, f.a, row, marks);
            let y = value_on(nodes, f.b, row, marks);
            mark_told(marks, n, operate(operation_of(f.kind), x, y))
        }
        8 => value(nodes, n, &row.own(), marks),
        _ => single(0),
    }
}

// What the condition node n says of a row of its own: its decision, with its alarms, and in their places the row where it is true and the row where
// it is not, zeros where there is none.
#[tactic(auto, using(crate::proofs::WalkLaws::some_by), unfolding(crate::specs::Rows::maybe_by, crate::specs::Rows::join_rows_of))]
pub fn sides(
    nodes: &[i32],
    n: usize,
    row: &Row,
    marks: &mut [u8],
    yes: &mut Row,
    no: &mut Row,
) -> Split
    ensures value { result ≡ split_of (cond_at nodes.now n) row.now }
    ensures yes_after { yes.new ≡ left_of (narrow_of (cond_at nodes.now n) true row.now) }
    ensures no_after { no.new ≡ left_of (narrow_of (cond_at nodes.now n) false row.now) }
    ensures marks_after { marks.new ≡ marked_of marks.old (cond_alarms_of (cond_at nodes.now n) row.now) }
{
    *yes = *row;
    *no = *row;
    let asked = asked_of(nodes, row);
    let s = split(&asked, n, marks, yes, no);
    yes.clear_unless(s.narrowed);
    no.clear_unless(s.joined);
    Split {
        decision: s.decision,
        yes: s.narrowed,
        no: s.joined,
    }
}
