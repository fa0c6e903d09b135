// The passes over the points of a table.
ghost use Rattle.std.specs.Prelude.{◌≡◌, true, ◌+◌, ◌<◌, ◌≤◌, length};
ghost use Rattle.table.specs.Layout.{sizes_of};
ghost use Rattle.proposer.specs.Fold.{fold_below};
ghost use Rattle.proposer.specs.Passes.{entry_into, disturb as disturb_of, unguarded as unguarded_of, visit as visit_of, rest_visit, pass_of, pass_bound, made_from};
ghost use Rattle.iterator.specs.Given.{table_of, thresholds_of, held_by, parts_by, state_by, Ready};

use crate::given::Given;
use crate::places::{Entries, Rows, State};
use crate::walk::has;
use rules::held::disjoint;

impl Given<'_> {
    // The row k, if there is one, takes in the entry that stands at q, if there is one.
    fn entry_into(&self, rows: &mut Rows, entries: &Entries, k: usize, q: usize)
        requires ready { Ready self.now entries.now }
        requires k_bound { (k < (sizes_of (table_of self.now)).points + (sizes_of (table_of self.now)).mutexes) × (q < (sizes_of (table_of self.now)).points) }
        ensures { parts_by self.now rows.new entries.now ≡ entry_into true (table_of self.now) (thresholds_of self.now) (parts_by self.now rows.old entries.now) k q }
    {
        if let Some(x) = entries.at[q] {
            let v = self.plan.variables[q];
            rows.take_at(self.thresholds, k, v, x);
        }
    }

    // The row of the point p takes in the entry that stands at q, if it is of another task with a disjoint set.
    #[tactic(auto, unfolding(proposer::specs::Passes::disturb, proposer::specs::Passes::entry_into))]
    fn disturb(&self, rows: &mut Rows, entries: &Entries, p: usize, q: usize)
        requires ready { Ready self.now entries.now }
        requires p_bound { (p < (sizes_of (table_of self.now)).points) × (q < (sizes_of (table_of self.now)).points) }
        ensures { parts_by self.now rows.new entries.now ≡ disturb_of (table_of self.now) (thresholds_of self.now) (held_by self.now) p (parts_by self.now rows.old entries.now) q }
    {
        let plan = self.plan;
        if plan.tasks[q] == plan.tasks[p] {
            return;
        }
        if disjoint(plan.held[q], plan.held[p]) {
            self.entry_into(rows, entries, p, q);
        }
    }

    // By each entry. Entries stand only at the places that the plan lists.
    #[tactic(auto, using(crate::proofs::FoldLaws::fold_more), unfolding(proposer::specs::Fold::fold_below))]
    fn disturb_all(&self, rows: &mut Rows, entries: &Entries, p: usize)
        requires ready { Ready self.now entries.now }
        requires p_bound { p < (sizes_of (table_of self.now)).points }
        ensures { parts_by self.now rows.new entries.now ≡ fold_below (disturb_of (table_of self.now) (thresholds_of self.now) (held_by self.now) p) (parts_by self.now rows.old entries.now) (sizes_of (table_of self.now)).points }
    {
        for &q in &self.plan.listed[..self.plan.count] {
            self.disturb(rows, entries, p, q);
        }
    }

    // The rest row of the mutex m takes in the entry that stands at q, if that is without m.
    #[tactic(auto, unfolding(proposer::specs::Passes::unguarded, proposer::specs::Passes::entry_into))]
    fn unguarded(&self, rows: &mut Rows, entries: &Entries, m: usize, q: usize)
        requires ready { Ready self.now entries.now }
        requires m_bound { (m < (sizes_of (table_of self.now)).mutexes) × (q < (sizes_of (table_of self.now)).points) }
        ensures { parts_by self.now rows.new entries.now ≡ unguarded_of (table_of self.now) (thresholds_of self.now) (held_by self.now) m (parts_by self.now rows.old entries.now) q }
    {
        if !has(self.plan.held[q], m) {
            self.entry_into(rows, entries, self.table.sizes.points + m, q);
        }
    }

    // By each entry without m.
    #[tactic(auto, using(crate::proofs::FoldLaws::fold_more), unfolding(proposer::specs::Fold::fold_below))]
    fn rest_visit(&self, rows: &mut Rows, entries: &Entries, m: usize)
        requires ready { Ready self.now entries.now }
        requires m_bound { m < (sizes_of (table_of self.now)).mutexes }
        ensures { parts_by self.now rows.new entries.now ≡ rest_visit (table_of self.now) (thresholds_of self.now) (held_by self.now) (parts_by self.now rows.old entries.now) m }
    {
        for &q in &self.plan.listed[..self.plan.count] {
            self.unguarded(rows, entries, m, q);
        }
    }

    // The point p, if it is reached by now: its row is widened by each entry, and from that row what an instruction leads to.
    #[tactic(auto, unfolding(proposer::specs::Passes::visit))]
    fn visit(&self, state: &mut State, p: usize)
        requires ready { Ready self.now state.old.entries }
        requires p_bound { p < (sizes_of (table_of self.now)).points }
        ensures { state_by self.now state.new ≡ visit_of (table_of self.now) (thresholds_of self.now) (held_by self.now) (state_by self.now state.old) p }
    {
        if state.rows.at[p].is_some() {
            self.disturb_all(&mut state.rows, &state.entries, p);
            self.leave(state, p);
        }
    }

    // Every point in rising order.
    #[tactic(auto, using(crate::proofs::FoldLaws::fold_more), unfolding(proposer::specs::Fold::fold_below))]
    fn visits(&self, state: &mut State)
        requires { Ready self.now state.old.entries }
        ensures { state_by self.now state.new ≡ fold_below (visit_of (table_of self.now) (thresholds_of self.now) (held_by self.now)) (state_by self.now state.old) (sizes_of (table_of self.now)).points }
    {
        for p in 0..self.table.sizes.points {
            self.visit(state, p);
        }
    }

    // Every rest row.
    #[tactic(auto, using(crate::proofs::FoldLaws::fold_more), unfolding(proposer::specs::Fold::fold_below))]
    fn rest_visits(&self, state: &mut State)
        requires { Ready self.now state.old.entries }
        ensures { state_by self.now state.new ≡ fold_below (rest_visit (table_of self.now) (thresholds_of self.now) (held_by self.now)) (state_by self.now state.old) (sizes_of (table_of self.now)).mutexes }
    {
        for m in 0..self.table.sizes.mutexes {
            self.rest_visit(&mut state.rows, &state.entries, m);
        }
    }

    // One pass.
    fn pass(&self, state: &mut State)
        requires { Ready self.now state.old.entries }
        ensures state_after { state_by self.now state.new ≡ pass_of (table_of self.now) (thresholds_of self.now) (held_by self.now) (state_by self.now state.old) }
        ensures ready { Ready self.now state.new.entries }
    {
        state.rows.moved = false;
        state.entries.moved = false;
        self.visits(state);
        self.rest_visits(state);
    }

    // The most passes that there can be.
    #[tactic(auto, using(crate::proofs::TableLaws::intervals_few, crate::proofs::TableLaws::moves_few))]
    fn pass_bound(&self) -> usize
        requires { length (thresholds_of self.now) ≤ 32 }
        ensures { result ≡ pass_bound (table_of self.now) (thresholds_of self.now) }
    {
        let sizes = self.table.sizes;
        let intervals = sizes.points * sizes.variables
            + sizes.mutexes * sizes.variables
            + sizes.points;
        1 + 2 * sizes.points + 2 * (self.thresholds.len() + 1) * intervals
    }

    // Passes until one changes nothing, which is the last: how many they were.
    pub(crate) fn passes(&self, state: &mut State) -> usize
        requires ready { Ready self.now state.old.entries }
        requires few { length (thresholds_of self.now) ≤ 32 }
        ensures result_after { record { state = state_by self.now state.new; passes = result } ≡ made_from (pass_of (table_of self.now) (thresholds_of self.now) (held_by self.now)) (pass_bound (table_of self.now) (thresholds_of self.now)) (state_by self.now state.old) 0 }
        ensures ready_after { Ready self.now state.new.entries }
    {
        let bound = self.pass_bound();
        for made in 0..bound {
            self.pass(state);
            if !(state.rows.moved | state.entries.moved) {
                return made + 1;
            }
        }
        bound
    }
}
