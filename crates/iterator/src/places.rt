// The state of the passes (specs/Arrays): at each place none yet, or what was taken in there. During the passes what stands at a place changes by
// `take` and `take_at` alone.
ghost use Rattle.std.specs.Prelude.{◌≡◌, ◌&&◌, ℕ, ◌<◌, ◌≤◌, Some, IfSome, set};
ghost use Rattle.std.specs.Int.Signed.{le_z};
ghost use Rattle.std.specs.Option.{option_map};
ghost use Rattle.words.specs.Words.{word_of};
ghost use Rattle.analysis.specs.Rows.{row_of};
ghost use Rattle.proposer.specs.Widen.{place_in, low_to, high_to, covers_of, trimmed_of, widened_of, take_in};
ghost use Rattle.proposer.specs.Passes.{row_in, take_both};
ghost use Rattle.iterator.specs.Arrays.{Clear, one_of, rows_by, entries_by};

use crate::nearest::{high_to, low_to};
use analysis::{Ends, Row};
use interval::Interval;
use words::all_below;

// The rows of points, and behind them the rest rows. Of a row's sixteen intervals only those of the table's variables count.
#[derive(Drop)]
pub(crate) struct Rows {
    pub(crate) at: [Option<Row>; 264],
    pub(crate) moved: bool,
}

// The entries, each at the smallest point whose write is filed under it.
#[derive(Drop)]
pub(crate) struct Entries {
    pub(crate) at: [Option<Interval>; 256],
    pub(crate) moved: bool,
}

#[derive(Drop)]
pub(crate) struct State {
    pub(crate) rows: Rows,
    pub(crate) entries: Entries,
}

// Whether x holds y.
fn holds(x: Interval, y: Interval) -> bool
    ensures { result ≡ le_z x.low y.low && le_z y.high x.high }
{
    (x.low <= y.low) & (y.high <= x.high)
}

// The interval x, with the ends that must move to hold y where they move to.
fn widened(ts: &[i32], x: Interval, y: Interval) -> Interval
    ensures { result ≡ record { low = low_to ts.now x.low y.low; high = high_to ts.now x.high y.high } }
{
    Interval {
        low: low_to(ts, x.low, y.low),
        high: high_to(ts, x.high, y.high),
    }
}

// The ends of the variable v.
fn ends(row: &Row, v: usize) -> Interval
    requires { v < 16 }
    ensures { result ≡ record { low = word_of row.now.lows v; high = word_of row.now.highs v } }
{
    Interval {
        low: row.lows[v],
        high: row.highs[v],
    }
}

// The interval x as that of the variable v.
#[tactic(auto, using(crate::proofs::CutLaws::put_trimmed))]
pub(crate) fn put(row: &mut Row, v: usize, x: Interval)
    requires { v < 16 }
    ensures { (n : ℕ) → v < n → trimmed_of n row.new ≡ row_of (set (trimmed_of n row.old).lows v x.low) (set (trimmed_of n row.old).highs v x.high) }
{
    row.lows[v] = x.low;
    row.highs[v] = x.high;
}

// Whether no end of the row's first n intervals must move to hold those of the other.
#[tactic(auto, unfolding(proposer::specs::Widen::covers_of))]
fn covers(n: usize, row: &Row, more: &Row) -> bool
    requires { n ≤ 16 }
    ensures { result ≡ covers_of n row.now more.now }
{
    all_below(n, |v| holds(ends(row, v), ends(more, v)))
}

// The row, with those ends of it that must move where they move to.
fn widened_row(n: usize, ts: &[i32], row: &Row, more: &Row) -> Row
    requires { n ≤ 16 }
    ensures { trimmed_of n result ≡ widened_of n ts.now row.now more.now }
{
    let mut next = *row;
    for v in 0..n {
        put(&mut next, v, widened(ts, ends(row, v), ends(more, v)));
    }
    next
}

impl Rows {
    // The row at the place k, where there is one, with zeros past its first n intervals.
    pub(crate) fn row(&self, n: usize, k: usize) -> Option<Row>
        requires { (n ≤ 16) × (k < 264) }
        ensures value { (c : ℕ) → k < c → option_map (trimmed_of n) result ≡ place_in (rows_by n c self.now) k }
        ensures clear { IfSome result (Clear n) }
    {
        let row = self.at[k]?;
        let ends = Ends {
            lows: &row.lows[..n],
            highs: &row.highs[..n],
        };
        Some(ends.own())
    }

    // The row at the place k; zeros where there is none.
    pub(crate) fn row_or_zeros(&self, k: usize) -> Row
        requires { k < 264 }
        ensures { (n c : ℕ) → n ≤ 16 → k < c → trimmed_of n result ≡ row_in n (place_in (rows_by n c self.now) k) }
    {
        self.at[k].unwrap_or(Row::default())
    }

    // A row is taken in at the place k: as it is where there is none yet, else the ends that must move, move.
    pub(crate) fn take(&mut self, n: usize, ts: &[i32], k: usize, row: &Row)
        requires { (n ≤ 16) × (k < 264) }
        ensures { (c : ℕ) → k < c → rows_by n c self.new ≡ take_in n ts.now (rows_by n c self.old) k row.now }
    {
        match &self.at[k] {
            None => self.at[k] = Some(*row),
            Some(old) => {
                if covers(n, old, row) {
                    return;
                }
                self.at[k] = Some(widened_row(n, ts, old, row));
            },
        }
        self.moved = true;
    }

    // The row at the place k, if there is one, takes in the interval x of the variable v: no other end of it can move.
    pub(crate) fn take_at(&mut self, ts: &[i32], k: usize, v: usize, x: Interval)
        requires { (k < 264) × (v < 16) }
        ensures { (n c : ℕ) → v < n → k < c → rows_by n c self.new ≡ take_both (Some (one_of x)) (place_in (rows_by n c self.old) k) n ts.now (rows_by n c self.old) k v }
    {
        let Some(row) = &self.at[k] else {
            return;
        };
        let old = ends(row, v);
        if holds(old, x) {
            return;
        }
        let mut next = *row;
        put(&mut next, v, widened(ts, old, x));
        self.at[k] = Some(next);
        self.moved = true;
    }
}

impl Entries {
    // An interval is taken in at the place q in the same way.
    pub(crate) fn take(&mut self, ts: &[i32], q: usize, x: Interval)
        requires { q < 256 }
        ensures { (c : ℕ) → q < c → entries_by c self.new ≡ take_in 1 ts.now (entries_by c self.old) q (one_of x) }
    {
        match self.at[q] {
            None => self.at[q] = Some(x),
            Some(old) => {
                if holds(old, x) {
                    return;
                }
                self.at[q] = Some(widened(ts, old, x));
            },
        }
        self.moved = true;
    }
}
