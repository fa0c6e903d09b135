// What a comparison leaves of a row, in the row's place, and the condition under the 'not' around it. Where a function answers false there is no row, and the
// words of the lent one are left open.
ghost use Rattle.std.specs.Prelude.{◌≡◌, not, cond, ◌<◌, ◌≤◌};
ghost use Rattle.table.specs.Tree.{arith_at, cond_at};
ghost use Rattle.analysis.specs.Rows.{maybe_by, join_rows_of};
ghost use Rattle.analysis.specs.Arrays.{CopyIf};
ghost use Rattle.analysis.specs.Bare.{bare_of, turned_of};
ghost use Rattle.analysis.specs.Cuts.{variable_or, cut_row_of, met_if};

use crate::{Bare, Row, SlotCuts};
use interval::Interval;
use interval::lattice::meet;
use table::decode::node_at;

// The variable that the arithmetic node n is, if it has one of the sixteen slots, else the number past.
#[tactic(auto, using(crate::proofs::NarrowCodeLaws::variables))]
pub fn variable_or(nodes: &[i32], n: usize, past: usize) -> usize
    ensures { result ≡ variable_or past (arith_at nodes.now n) }
{
    let f = node_at(nodes, n);
    match f.kind {
        2 if f.a < 16 => f.a,
        _ => past,
    }
}

// The condition under the 'not' at the node n, if there are any, and whether they turn it.
#[tactic(auto, using(crate::proofs::NodeTreeLaws::not_trees, crate::proofs::BareLaws::plains), unfolding(crate::specs::Bare::bare_of, crate::specs::Bare::turned_of))]
pub fn bare(nodes: &[i32], n: usize) -> Bare
    ensures node_value { cond_at nodes.now result.node ≡ bare_of (cond_at nodes.now n) }
    ensures turned_value { result.turned ≡ turned_of (cond_at nodes.now n) }
    ensures node_le_n { result.node ≤ n }
{
    let f = node_at(nodes, n);
    match f.kind {
        22 if f.a < n => {
            let b = bare(nodes, f.a);
            Bare {
                node: b.node,
                turned: !b.turned,
            }
        }
        _ => Bare {
            node: n,
            turned: false,
        },
    }
}

// Of two that a condition picks from: the one, or the other if it is turned.
pub fn other_if(turned: bool, one: usize, other: usize) -> usize
    ensures { result ≡ cond turned other one }
{
    if turned { other } else { one }
}

// The row with the cuts u.
#[tactic(auto, unfolding(crate::specs::Cuts::cut_row_of, crate::specs::Rows::then_row, crate::specs::Rows::maybe_by))]
pub(crate) fn put_cuts(row: &mut Row, u: SlotCuts) -> bool
    ensures { maybe_by result row.new ≡ cut_row_of row.old u.v u.w u.cuts }
{
    if !row.put(u.v, u.cuts.left) {
        return false;
    }
    if u.v == u.w {
        return row.meet_at(u.w, u.cuts.right);
    }
    row.put(u.w, u.cuts.right)
}

// The second of two intervals: one variable takes the meet of both.
#[tactic(auto, unfolding(crate::specs::Cuts::met_if))]
pub fn met_if(same: bool, left: Option<Interval>, right: Option<Interval>) -> Option<Interval>
    ensures { result ≡ met_if same left right }
{
    if same { meet(left, right) } else { right }
}

// What the cuts u leave of the row from, together with the row, if there is some, in the row's place. Where there is none, the row is
// a copy of the row from, and stays one where the cuts leave nothing.
#[tactic(auto, using(crate::proofs::NarrowCodeLaws::cuts_are), unfolding(crate::specs::Rows::maybe_by, crate::specs::Rows::then_row, crate::specs::Rows::put_of, crate::specs::Rows::join_rows_of))]
pub(crate) fn add_cuts(some: bool, row: &mut Row, u: SlotCuts, from: &Row) -> bool
    requires copy_if { CopyIf (not some) row.old from.now }
    requires v_bound { (u.v ≡ u.w) → (u.v < 16) }
    ensures copy_left { CopyIf (not result) row.new from.now }
    ensures row_after { maybe_by result row.new ≡ join_rows_of (maybe_by some row.old) (cut_row_of from.now u.v u.w u.cuts) }
{
    let last = met_if(u.v == u.w, u.cuts.left, u.cuts.right);
    let (Some(x), Some(y)) = (u.cuts.left, last) else {
        return some;
    };
    if some {
        row.widen_cut(from, u.v, x, u.w, y);
        return true;
    }
    row.set(u.v, x);
    row.set(u.w, y);
    true
}
