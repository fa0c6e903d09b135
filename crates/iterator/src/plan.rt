// What of a table and its held sets is known before the first pass (specs/Plan).
ghost use Rattle.std.specs.Prelude.{◌≡◌, ℕ, ◌+◌, ◌<◌, ◌≤◌, length, get_or, None};
ghost use Rattle.table.specs.Layout.{sizes_of};
ghost use Rattle.proposer.specs.Walk.{sets_of, mark_count, held_in as held_brought};
ghost use Rattle.proposer.specs.Passes.{code_of as head_of};
ghost use Rattle.iterator.specs.Plan.{held_in, code_count, Planned};
ghost use Rattle.iterator.specs.Book.{blank_plan, file_by, Upto};

use crate::walk::{held_of, sets};
use table::decode::point_at;
use table::layout::task_of;
use table::{Point, Table};
use words::filled;

// Of each point: its held set, its task, the place of its entry and the variable that it writes. Then the places that entries can have, the first count of
// the list; and the place of the entry under each head.
#[derive(Drop)]
pub(crate) struct Plan {
    pub(crate) held: [usize; 256],
    pub(crate) tasks: [usize; 256],
    pub(crate) places: [usize; 256],
    pub(crate) variables: [usize; 256],
    pub(crate) listed: [usize; 256],
    pub(crate) count: usize,
    pub(crate) heads: [Option<u8>; 32768],
}

// How many heads there are.
#[tactic(auto, using(crate::proofs::TableLaws::sizes, crate::proofs::SetLaws::sets))]
pub(crate) fn code_count(t: &Table<'_>) -> usize
    ensures value { result ≡ code_count t.now.words.now }
    ensures upper_bound { result ≤ 32768 }
{
    t.sizes.tasks * sets(t) * t.sizes.variables
}

// The number of the head of the variable v, written by the task u with the held set s.
#[tactic(auto, using(crate::proofs::TableLaws::sizes, crate::proofs::SetLaws::sets))]
fn code_of(t: &Table<'_>, u: usize, s: usize, v: usize) -> usize
    requires { (u < (sizes_of t.now.words.now).tasks) × (s < sets_of t.now.words.now) × (v < (sizes_of t.now.words.now).variables) }
    ensures value { result ≡ head_of t.now.words.now u s v }
    ensures upper_bound { result < code_count t.now.words.now }
{
    (u * sets(t) + s) * t.sizes.variables + v
}

// Nothing is known, and no head has an entry.
pub(crate) fn blank_plan() -> Plan
    ensures { result ≡ blank_plan }
{
    Plan {
        held: filled(0),
        tasks: filled(0),
        places: filled(0),
        variables: filled(0),
        listed: filled(0),
        count: 0,
        heads: filled(None),
    }
}

impl Plan {
    // The assignment at p is filed under the head c. The first point under a head is the place of its entry, and comes to the end of the list.
    #[tactic(auto, unfolding(crate::specs::Book::file_by))]
    fn file(&mut self, p: usize, c: usize)
        requires { (p < 256) × (c < 32768) × (self.old.count ≤ p) }
        ensures { self.new ≡ file_by (get_or self.old.heads c None) self.old p c }
    {
        if let Some(first) = self.heads[c] {
            self.places[p] = usize::from(first);
            return;
        }
        self.places[p] = p;
        self.listed[self.count] = p;
        self.count += 1;
        self.heads[c] = Some(p as u8);
    }

    // What is known of the point p alone is noted, and an assignment is filed.
    #[tactic(auto, using(crate::proofs::TableLaws::sizes, crate::proofs::SetLaws::heads_few))]
    fn enter(&mut self, t: &Table<'_>, marks: &[bool], p: usize)
        requires marks_len { length marks.now ≡ mark_count t.now.words.now }
        requires p_bound { p < (sizes_of t.now.words.now).points }
        requires upto { Upto t.now.words.now (held_brought t.now.words.now marks.now) p self.old }
        ensures { Upto t.now.words.now (held_brought t.now.words.now marks.now) (p + 1) self.new }
    {
        let held = held_of(t, marks, p);
        let task = task_of(t.words, p);
        self.held[p] = held;
        self.tasks[p] = task;
        if let Point::Assign(v, _, _) = point_at(t.points, p) {
            self.variables[p] = v;
            self.file(p, code_of(t, task, held, v));
        }
    }
}

// The plan by the marks of all walks, made where it lies, since a plan that is handed back is copied.
pub(crate) fn plan_for(plan: &mut Plan, t: &Table<'_>, marks: &[bool])
    requires blank { plan.old ≡ blank_plan }
    requires marks_len { length marks.now ≡ mark_count t.now.words.now }
    ensures by_index { (p : ℕ) → held_in plan.new p ≡ held_brought t.now.words.now marks.now p }
    ensures planned { Planned t.now.words.now plan.new }
{
    for p in 0..t.sizes.points {
        plan.enter(t, marks, p);
    }
}
