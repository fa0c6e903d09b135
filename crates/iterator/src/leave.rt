// A visit's second part: from the row of a point, each target is widened by its outcome, the entry by the written interval, the rest row by an unlock
// outcome.
ghost use Rattle.std.specs.Prelude.{◌≡◌, ℕ, ◌+◌, ◌<◌, ◌≤◌, Some};
ghost use Rattle.std.specs.Option.{option_map};
ghost use Rattle.std.specs.Int.{int_min, int_max};
ghost use Rattle.words.specs.Words.{word_of};
ghost use Rattle.interval.specs.Interval.{from_to};
ghost use Rattle.table.specs.Layout.{sizes_of, points_of};
ghost use Rattle.table.specs.Decode.{point_of};
ghost use Rattle.table.specs.declared.Point.TheVariants.{Assign, Test, Lock, Unlock};
ghost use Rattle.analysis.specs.Rows.{maybe_by};
ghost use Rattle.rules.specs.Outcomes.{meet_rows_of, outcome_if};
ghost use Rattle.proposer.specs.Widen.{trimmed_of, take_in};
ghost use Rattle.proposer.specs.Passes.{take_all, leave_by, leave as leave_of};
ghost use Rattle.iterator.specs.Arrays.{Clear, rows_in};
ghost use Rattle.iterator.specs.Given.{table_of, thresholds_of, held_by, state_by};

use crate::given::Given;
use crate::places::{Rows, State, put};
use crate::walk::has;
use analysis::Row;
use analysis::evaluate::{sides, value};
use interval::Interval;
use interval::lattice::between;
use table::Point;
use table::decode::point_at;

// The interval of the variable v in both rows; none where it is empty.
fn met_at(row: &Row, with: &Row, v: usize) -> Option<Interval>
    requires { v < 16 }
    ensures { result ≡ from_to (int_max (word_of row.now.lows v) (word_of with.now.lows v)) (int_min (word_of row.now.highs v) (word_of with.now.highs v)) }
{
    between(
        row.lows[v].max(with.lows[v]),
        row.highs[v].min(with.highs[v]),
    )
}

// The meet of the first n intervals of two rows; none where one is empty.
fn met(n: usize, row: &Row, with: &Row) -> Option<Row>
    requires { n ≤ 16 }
    ensures { option_map (trimmed_of n) result ≡ meet_rows_of n (trimmed_of n row.now) (trimmed_of n with.now) }
{
    let mut next = *row;
    for v in 0..n {
        put(&mut next, v, met_at(row, with, v)?);
    }
    Some(next)
}

impl Given<'_> {
    // A row is taken in at the place k. Only the intervals of the table's variables count.
    fn take(&self, rows: &mut Rows, k: usize, row: &Row)
        requires { k < (sizes_of (table_of self.now)).points + (sizes_of (table_of self.now)).mutexes }
        ensures { rows_in (table_of self.now) rows.new ≡ take_in (sizes_of (table_of self.now)).variables (thresholds_of self.now) (rows_in (table_of self.now) rows.old) k (trimmed_of (sizes_of (table_of self.now)).variables row.now) }
    {
        rows.take(self.table.sizes.variables, self.thresholds, k, row);
    }

    // The same, if there is a row. It is the outcome that leads to the point k.
    #[tactic(auto, using(crate::proofs::CutLaws::take_trimmed), unfolding(analysis::specs::Rows::maybe_by, rules::specs::Outcomes::outcome_if, proposer::specs::Passes::take_all))]
    fn take_if(&self, rows: &mut Rows, k: usize, there: bool, row: &Row)
        requires { k < (sizes_of (table_of self.now)).points }
        ensures { (s : ℕ) → rows_in (table_of self.now) rows.new ≡ take_all (λ o. o.target) (sizes_of (table_of self.now)).variables (thresholds_of self.now) (rows_in (table_of self.now) rows.old) (outcome_if (maybe_by there row.now) s k) }
    {
        if there {
            self.take(rows, k, row);
        }
    }

    // From the row of the point p: an assignment of the node e to v there, going on at q.
    fn assign(&self, state: &mut State, row: &Row, p: usize, v: usize, e: usize, q: usize)
        requires stands { point_of (points_of (table_of self.now)) p ≡ Assign v e q }
        requires bounds { (p < (sizes_of (table_of self.now)).points) × (v < (sizes_of (table_of self.now)).variables) × (q < (sizes_of (table_of self.now)).points) }
        requires clear { Clear (sizes_of (table_of self.now)).variables row.now }
        ensures { state_by self.now state.new ≡ leave_by (table_of self.now) (thresholds_of self.now) (held_by self.now) (Some (trimmed_of (sizes_of (table_of self.now)).variables row.now)) (state_by self.now state.old) p }
    {
        let mut unmarked = [0u8; 1];
        let Some(x) = value(self.table.nodes, e, row, &mut unmarked) else {
            return;
        };
        state.entries.take(self.thresholds, self.plan.places[p], x);
        let mut next = *row;
        put(&mut next, v, x);
        self.take(&mut state.rows, q, &next);
    }

    // A test of the condition c, going on at y or at n.
    fn test(&self, state: &mut State, row: &Row, c: usize, y: usize, n: usize)
        requires bounds { (y < (sizes_of (table_of self.now)).points) × (n < (sizes_of (table_of self.now)).points) }
        requires clear { Clear (sizes_of (table_of self.now)).variables row.now }
        ensures { (p : ℕ) → point_of (points_of (table_of self.now)) p ≡ Test c y n → state_by self.now state.new ≡ leave_by (table_of self.now) (thresholds_of self.now) (held_by self.now) (Some (trimmed_of (sizes_of (table_of self.now)).variables row.now)) (state_by self.now state.old) p }
    {
        let mut unmarked = [0u8; 1];
        let mut yes = *row;
        let mut no = *row;
        let said = sides(self.table.nodes, c, row, &mut unmarked, &mut yes, &mut no);
        self.take_if(&mut state.rows, y, said.yes, &yes);
        self.take_if(&mut state.rows, n, said.no, &no);
    }

    // A lock of m at the point p, going on at q.
    fn lock(&self, state: &mut State, row: &Row, p: usize, m: usize, q: usize)
        requires stands { point_of (points_of (table_of self.now)) p ≡ Lock m q }
        requires bounds { (p < (sizes_of (table_of self.now)).points) × (m < (sizes_of (table_of self.now)).mutexes) × (q < (sizes_of (table_of self.now)).points) }
        ensures { state_by self.now state.new ≡ leave_by (table_of self.now) (thresholds_of self.now) (held_by self.now) (Some (trimmed_of (sizes_of (table_of self.now)).variables row.now)) (state_by self.now state.old) p }
    {
        if has(self.plan.held[p], m) {
            return;
        }
        let sizes = self.table.sizes;
        let rest = state.rows.row_or_zeros(sizes.points + m);
        if let Some(next) = met(sizes.variables, row, &rest) {
            self.take(&mut state.rows, q, &next);
        }
    }

    // An unlock of m at the point p, going on at q.
    fn unlock(&self, state: &mut State, row: &Row, p: usize, m: usize, q: usize)
        requires stands { point_of (points_of (table_of self.now)) p ≡ Unlock m q }
        requires bounds { (p < (sizes_of (table_of self.now)).points) × (m < (sizes_of (table_of self.now)).mutexes) × (q < (sizes_of (table_of self.now)).points) }
        ensures { state_by self.now state.new ≡ leave_by (table_of self.now) (thresholds_of self.now) (held_by self.now) (Some (trimmed_of (sizes_of (table_of self.now)).variables row.now)) (state_by self.now state.old) p }
    {
        if !has(self.plan.held[p], m) {
            return;
        }
        self.take(&mut state.rows, q, row);
        self.take(&mut state.rows, self.table.sizes.points + m, row);
    }

    // What stands at the point p picks the function that leaves it, if the point is reached.
    pub(crate) fn leave(&self, state: &mut State, p: usize)
        requires { p < (sizes_of (table_of self.now)).points }
        ensures { state_by self.now state.new ≡ leave_of (table_of self.now) (thresholds_of self.now) (held_by self.now) (state_by self.now state.old) p }
    {
        let Some(row) = state.rows.row(self.table.sizes.variables, p) else {
            return;
        };
        match point_at(self.table.points, p) {
            Point::End => {}
            Point::Assign(v, e, q) => self.assign(state, &row, p, v, e, q),
            Point::Test(c, y, n) => self.test(state, &row, c, y, n),
            Point::Lock(m, q) => self.lock(state, &row, p, m, q),
            Point::Unlock(m, q) => self.unlock(state, &row, p, m, q),
        }
    }
}
