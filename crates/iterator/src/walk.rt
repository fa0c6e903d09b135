// The held set of each point, found by walking instructions from the tasks' first points: a mark for each point and each set that a walk brings to it.
// The passes need only the sets.
ghost use Rattle.std.specs.Prelude.{◌≡◌, true, false, ◌^◌, ◌<◌, ◌≤◌, length, replicate, set};
ghost use Rattle.words.specs.First.{first_bad};
ghost use Rattle.table.specs.Layout.{sizes_of, points_of};
ghost use Rattle.table.specs.Decode.{point_of};
ghost use Rattle.rules.specs.Held.{has_of};
ghost use Rattle.proposer.specs.Walk.{sets_of, mark_at, mark_count, mark_all, goes_of, walk_on, round_of, first_marks, walks_of, brought, held_in, one_in};
ghost use Rattle.iterator.specs.Marks.{Marked};

use rules::held::disjoint;
use table::decode::point_at;
use table::layout::first_of;
use table::{Point, Table};
use words::{all_below, first_bad};

// How many sets of the table's mutexes there are.
#[tactic(auto, using(crate::proofs::TableLaws::sizes, crate::proofs::SetLaws::sets))]
pub(crate) fn sets(t: &Table<'_>) -> usize
    ensures value { result ≡ sets_of t.now.words.now }
    ensures upper_bound { result ≤ 256 }
{
    1 << t.sizes.mutexes
}

// The set of the mutex m alone.
#[tactic(auto, using(crate::proofs::SetLaws::shifted))]
fn alone(m: usize) -> usize
    requires { m < 8 }
    ensures { result ≡ 2 ^ m }
{
    1 << m
}

// Whether the mutex m is in the set s.
#[tactic(auto, using(crate::proofs::SetLaws::asked))]
pub(crate) fn has(s: usize, m: usize) -> bool
    requires { m < 8 }
    ensures { result ≡ has_of s m }
{
    !disjoint(s, alone(m))
}

// How many marks there are.
#[tactic(auto, using(crate::proofs::TableLaws::sizes, crate::proofs::SetLaws::sets))]
pub(crate) fn mark_count(t: &Table<'_>) -> usize
    ensures value { result ≡ mark_count t.now.words.now }
    ensures upper_bound { result ≤ 65536 }
{
    t.sizes.points * sets(t)
}

// Where the mark of the set s at the point p stands.
#[tactic(auto, using(crate::proofs::TableLaws::sizes, crate::proofs::SetLaws::sets))]
fn mark_at(t: &Table<'_>, p: usize, s: usize) -> usize
    requires { (p < (sizes_of t.now.words.now).points) × (s < sets_of t.now.words.now) }
    ensures value { result ≡ mark_at t.now.words.now p s }
    ensures upper_bound { result < mark_count t.now.words.now }
{
    p * sets(t) + s
}

// Makes the mark at a place, and tells whether it is new.
fn mark(marks: &mut [bool], at: usize) -> bool
    requires { at < length marks.old }
    ensures { Marked (set marks.old at true) marks.old marks.new result }
{
    let new = !marks[at];
    marks[at] = true;
    new
}

// One instruction further from the point p with the held set s. Tells whether a mark is new.
#[tactic(auto, using(crate::proofs::GoLaws::lock_few, crate::proofs::GoLaws::unlock_few), unfolding(proposer::specs::Walk::goes_of, proposer::specs::Walk::goes_if, proposer::specs::Walk::mark_all))]
fn go_on(t: &Table<'_>, marks: &mut [bool], p: usize, s: usize) -> bool
    requires p_bound { (p < (sizes_of t.now.words.now).points) × (s < sets_of t.now.words.now) }
    requires marks_len { length marks.old ≡ mark_count t.now.words.now }
    ensures { Marked (mark_all t.now.words.now marks.old (goes_of (point_of (points_of t.now.words.now) p) s)) marks.old marks.new result }
{
    match point_at(t.points, p) {
        Point::End => false,
        Point::Assign(_, _, q) => mark(marks, mark_at(t, q, s)),
        Point::Test(_, y, n) => {
            let first = mark(marks, mark_at(t, y, s));
            mark(marks, mark_at(t, n, s)) | first
        },
        Point::Lock(m, q) => !has(s, m) && mark(marks, mark_at(t, q, s + alone(m))),
        Point::Unlock(m, q) => has(s, m) && mark(marks, mark_at(t, q, s - alone(m))),
    }
}

// One instruction further from the mark i, if it is one.
#[tactic(auto, using(crate::proofs::SetLaws::sets), unfolding(proposer::specs::Walk::walk_on, proposer::specs::Walk::walk_if))]
fn walk_on(t: &Table<'_>, marks: &mut [bool], i: usize) -> bool
    requires i_bound { i < mark_count t.now.words.now }
    requires marks_len { length marks.old ≡ mark_count t.now.words.now }
    ensures { Marked (walk_on t.now.words.now marks.old i) marks.old marks.new result }
{
    let n = sets(t);
    marks[i] && go_on(t, marks, i / n, i % n)
}

// One instruction further from every mark.
#[tactic(auto, using(crate::proofs::FoldLaws::fold_more), unfolding(proposer::specs::Fold::fold_below, proposer::specs::Walk::round_of))]
fn round(t: &Table<'_>, marks: &mut [bool]) -> bool
    requires { length marks.old ≡ mark_count t.now.words.now }
    ensures { Marked (round_of t.now.words.now marks.old) marks.old marks.new result }
{
    let mut new = false;
    for i in 0..marks.len() {
        new |= walk_on(t, marks, i);
    }
    new
}

// The marks of the tasks' first points, to which no lock is brought.
#[tactic(auto, using(crate::proofs::FoldLaws::fold_more, crate::proofs::TableLaws::first_point, crate::proofs::SetLaws::some_set), unfolding(proposer::specs::Fold::fold_below, proposer::specs::Walk::first_marks))]
fn first_marks(t: &Table<'_>, marks: &mut [bool])
    requires { marks.old ≡ replicate (mark_count t.now.words.now) false }
    ensures { marks.new ≡ first_marks t.now.words.now }
{
    for u in 0..t.sizes.tasks {
        mark(marks, mark_at(t, first_of(t.words, u), 0));
    }
}

// The marks of all walks. A round goes one instruction further from every mark; the round that makes no new mark is the last.
#[tactic(auto, using(crate::proofs::FoldLaws::fold_more), unfolding(proposer::specs::Fold::fold_below, proposer::specs::Walk::walks_of))]
pub(crate) fn walk(t: &Table<'_>, marks: &mut [bool])
    requires { marks.old ≡ replicate (mark_count t.now.words.now) false }
    ensures { marks.new ≡ walks_of t.now.words.now }
{
    first_marks(t, marks);
    for _ in 0..marks.len() {
        if !round(t, marks) {
            return;
        }
    }
}

// Whether a walk brings the set s to the point p.
fn brought(t: &Table<'_>, marks: &[bool], p: usize, s: usize) -> bool
    requires marks_len { length marks.now ≡ mark_count t.now.words.now }
    requires p_bound { (p < (sizes_of t.now.words.now).points) × (s < sets_of t.now.words.now) }
    ensures { result ≡ brought t.now.words.now marks.now p s }
{
    marks[mark_at(t, p, s)]
}

// The smallest set that a walk brings to the point p; 0 where none comes.
#[tactic(auto, unfolding(proposer::specs::Walk::held_in, proposer::specs::Walk::or_zero))]
pub(crate) fn held_of(t: &Table<'_>, marks: &[bool], p: usize) -> usize
    requires marks_len { length marks.now ≡ mark_count t.now.words.now }
    requires p_bound { p < (sizes_of t.now.words.now).points }
    ensures { result ≡ held_in t.now.words.now marks.now p }
{
    first_bad(sets(t), |s| !brought(t, marks, p, s)).unwrap_or(0)
}

// Whether walks bring at most one set to the point p.
#[tactic(auto, unfolding(proposer::specs::Walk::one_in))]
fn one_set(t: &Table<'_>, marks: &[bool], p: usize) -> bool
    requires marks_len { length marks.now ≡ mark_count t.now.words.now }
    requires p_bound { p < (sizes_of t.now.words.now).points }
    ensures { result ≡ one_in t.now.words.now marks.now p }
{
    let held = held_of(t, marks, p);
    all_below(sets(t), |s| !brought(t, marks, p, s) | (s == held))
}

// The smallest point to which walks bring different sets.
pub(crate) fn joined(t: &Table<'_>, marks: &[bool]) -> Option<usize>
    requires { length marks.now ≡ mark_count t.now.words.now }
    ensures { result ≡ first_bad (one_in t.now.words.now marks.now) (sizes_of t.now.words.now).points }
{
    first_bad(t.sizes.points, |p| one_set(t, marks, p))
}
