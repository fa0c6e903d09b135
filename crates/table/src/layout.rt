// The sizes and the parts of a table, and which task owns a point. Every function is total: a word past the end is 0.
ghost use Rattle.std.specs.Prelude.{◌≡◌, ◌≤◌, length};
ghost use Rattle.table.specs.Layout.{sizes_of, Sized, length_of, shares_of, starts_of, points_of, nodes_of, four_of, first_in, last_task_of, first_of, task_of};

use crate::{Four, Sizes};
use words::{number_at, part};

pub fn sizes(t: &[i32]) -> Sizes
    ensures value { result ≡ sizes_of t.now }
    ensures sized { Sized result }
{
    Sizes {
        tasks: number_at(t, 0),
        variables: number_at(t, 1),
        mutexes: number_at(t, 2),
        points: number_at(t, 3),
        nodes: number_at(t, 4),
    }
}

// The length that the table's sizes call for.
pub fn length_for(t: &[i32]) -> usize
    ensures { result ≡ length_of (sizes_of t.now) }
{
    let s = sizes(t);
    5 + s.tasks + s.variables + 4 * s.points + 4 * s.nodes
}

// One point count for each task.
#[tactic(auto, unfolding(crate::specs::Layout::shares_of))]
pub fn shares(t: &[i32]) -> &[i32]
    ensures { result.now ≡ shares_of t.now }
{
    part(t, 5, number_at(t, 0))
}

// One starting value for each variable.
#[tactic(auto, unfolding(crate::specs::Layout::starts_of))]
pub fn starts(t: &[i32]) -> &[i32]
    ensures { result.now ≡ starts_of t.now }
{
    let s = sizes(t);
    part(t, 5 + s.tasks, s.variables)
}

// Four words for each point.
#[tactic(auto, unfolding(crate::specs::Layout::points_of))]
pub fn point_words(t: &[i32]) -> &[i32]
    ensures { result.now ≡ points_of t.now }
{
    let s = sizes(t);
    part(t, 5 + s.tasks + s.variables, 4 * s.points)
}

// Four words for each node.
#[tactic(auto, unfolding(crate::specs::Layout::nodes_of))]
pub fn node_words(t: &[i32]) -> &[i32]
    ensures { result.now ≡ nodes_of t.now }
{
    let s = sizes(t);
    part(t, 5 + s.tasks + s.variables + 4 * s.points, 4 * s.nodes)
}

// The four words numbered n of the words of points or of nodes; 0 past the last four.
#[tactic(auto, unfolding(crate::specs::Layout::four_of, crate::specs::Layout::four_by))]
pub fn four(ws: &[i32], n: usize) -> Four
    ensures { result ≡ four_of ws.now n }
{
    if n < ws.len() / 4 {
        let i = 4 * n;
        Four {
            kind: ws[i],
            a: ws[i + 1],
            b: ws[i + 2],
            c: ws[i + 3],
        }
    } else {
        Four::default()
    }
}

// The first point of task u, by the shares. Past the last share nothing is added.
#[tactic(auto, using(crate::proofs::LayoutLaws::first_more, crate::proofs::LayoutLaws::first_least), unfolding(crate::specs::Layout::first_in))]
fn first_in(shares: &[i32], u: usize) -> usize
    requires { length shares.now ≤ 4294967295 }
    ensures { result ≡ first_in shares.now u }
{
    let mut first = 0;
    for k in 0..u.min(shares.len()) {
        first += number_at(shares, k);
    }
    first
}

// The first point of task u. The shares are cut here, and in `task_of`, and not by `shares`: the number read tells that they are few enough.
#[tactic(auto, unfolding(crate::specs::Layout::first_of, crate::specs::Layout::shares_of))]
pub fn first_of(t: &[i32], u: usize) -> usize
    ensures { result ≡ first_of t.now u }
{
    first_in(part(t, 5, number_at(t, 0)), u)
}

#[tactic(auto, using(crate::proofs::LayoutLaws::first_more, crate::proofs::LayoutLaws::last_more), unfolding(crate::specs::Layout::first_in, crate::specs::Layout::last_in, crate::specs::Layout::later_of))]
fn task_in(shares: &[i32], p: usize) -> usize
    requires { length shares.now ≤ 4294967295 }
    ensures { result ≡ last_task_of shares.now p }
{
    let mut owner = 0;
    let mut first = number_at(shares, 0);
    for k in 1..shares.len() {
        if first <= p {
            owner = k;
        }
        first += number_at(shares, k);
    }
    owner
}

// The task that owns point p: the last one whose first point isn't past it.
#[tactic(auto, unfolding(crate::specs::Layout::task_of, crate::specs::Layout::shares_of))]
pub fn task_of(t: &[i32], p: usize) -> usize
    ensures { result ≡ task_of t.now p }
{
    task_in(part(t, 5, number_at(t, 0)), p)
}
