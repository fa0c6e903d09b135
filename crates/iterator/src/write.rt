// The words of the proposal, from the state that the passes ended in. Each function puts its words at a place and gives the next place.
ghost use Rattle.std.specs.Prelude.{◌≡◌, ◌++◌, ℕ, ℤ, ◌+◌, ◌*◌, ◌<◌, ◌≤◌, length, get_or, drop, map};
ghost use Rattle.std.specs.Option.{option_map};
ghost use Rattle.words.specs.Words.{word_of};
ghost use Rattle.words.specs.Tabulate.{tabulate};
ghost use Rattle.table.specs.Layout.{sizes_of};
ghost use Rattle.proposer.specs.Fold.{concat_below};
ghost use Rattle.proposer.specs.Widen.{place_in};
ghost use Rattle.proposer.specs.Propose.{held_by as held_word, entry_under, codes_of, head_words, row_out, span_of, sizes_out, held_out, heads_out, ends_out, words_of, words_needed};
ghost use Rattle.iterator.specs.Arrays.{one_of};
ghost use Rattle.iterator.specs.Plan.{code_count};
ghost use Rattle.iterator.specs.Given.{table_of, held_by, state_by};
ghost use Rattle.iterator.specs.Write.{Puts, ends_of};

use crate::given::Given;
use crate::places::State;
use crate::plan::code_count;
use crate::walk::sets;
use interval::Interval;
use words::filled;

// The ends of intervals that are written: the low ones, or the high ones.
#[derive(Clone, Copy, Debug, PartialEq, Eq)]
pub(crate) enum Side {
    Low,
    High,
}

// A copy of words.
fn put(ws: &[i32], out: &mut [i32], at: usize) -> usize
    requires { at + length ws.now ≤ length out.old }
    ensures { Puts out.old at ws.now out.new result }
{
    let next = at + ws.len();
    out[at..next].copy_from_slice(ws);
    next
}

// n words, by a function of their index.
fn put_each<F: Fn(usize) -> i32>(n: usize, word: F, out: &mut [i32], at: usize) -> usize
    requires callable { (k : ℕ) → k < n → F.pre word k }
    requires room { at + n ≤ length out.old }
    ensures puts { (f : ℕ → ℤ) → ((k : ℕ) (r : ℤ) → k < n → F.post word k r → r ≡ f k) → Puts out.old at (tabulate f n) out.new result }
    ensures next { result ≡ at + n }
{
    for k in 0..n {
        out[at + k] = word(k);
    }
    at + n
}

impl Given<'_> {
    // The entry under the head c.
    #[tactic(auto, using(crate::proofs::SetLaws::sets, crate::proofs::WriteLaws::entry_none, crate::proofs::WriteLaws::entry_some))]
    fn entry_under(&self, state: &State, c: usize) -> Option<Interval>
        requires { c < code_count (table_of self.now) }
        ensures { option_map one_of result ≡ entry_under (table_of self.now) (held_by self.now) (state_by self.now state.now) c }
    {
        let q = self.plan.heads[c]?;
        state.entries.at[usize::from(q)]
    }

    // The heads of the entries, rising, and how many they are.
    fn collect(&self, state: &State, heads: &mut [usize; 256]) -> usize
        ensures { Puts heads.old 0 (codes_of (table_of self.now) (held_by self.now) (state_by self.now state.now)) heads.new result }
    {
        let mut count = 0;
        for c in 0..code_count(self.table) {
            if self.entry_under(state, c).is_some() {
                heads[count] = c;
                count += 1;
            }
        }
        count
    }

    // Four sizes: points, variables, mutexes, entries.
    #[tactic(auto, using(crate::proofs::TableLaws::sizes))]
    fn put_sizes(&self, heads: &[usize], out: &mut [i32]) -> usize
        requires { (length heads.now ≤ 256) × (4 ≤ length out.old) }
        ensures puts { (s : _) → heads.now ≡ codes_of (table_of self.now) (held_by self.now) s → Puts out.old 0 (sizes_out (table_of self.now) (held_by self.now) s) out.new result }
        ensures next { result ≡ 4 }
    {
        let sizes = self.table.sizes;
        let words = [
            sizes.points as i32,
            sizes.variables as i32,
            sizes.mutexes as i32,
            heads.len() as i32,
        ];
        put(&words, out, 0)
    }

    // The held set of the point p; -1 where no pass reached it.
    #[tactic(auto, using(crate::proofs::TableLaws::sizes, crate::proofs::SetLaws::sets_few, crate::proofs::PlaceLaws::place_is), unfolding(proposer::specs::Propose::held_by))]
    fn held_word(&self, state: &State, p: usize) -> i32
        requires { p < (sizes_of (table_of self.now)).points }
        ensures { result ≡ held_word (place_in (state_by self.now state.now).rows p) (held_by self.now p) }
    {
        if state.rows.at[p].is_none() {
            return -1;
        }
        self.plan.held[p] as i32
    }

    // A held word for each point.
    fn put_held(&self, state: &State, out: &mut [i32], at: usize) -> usize
        requires { at + (sizes_of (table_of self.now)).points ≤ length out.old }
        ensures puts { Puts out.old at (held_out (table_of self.now) (held_by self.now) (state_by self.now state.now)) out.new result }
        ensures next { result ≡ at + (sizes_of (table_of self.now)).points }
    {
        put_each(
            self.table.sizes.points,
            |p| self.held_word(state, p),
            out,
            at,
        )
    }

    // Task, held set and variable of the head c.
    #[tactic(auto, using(crate::proofs::SetLaws::heads_few, crate::proofs::PutLaws::parts))]
    fn put_head(&self, c: usize, out: &mut [i32], at: usize) -> usize
        requires { (c < code_count (table_of self.now)) × (at + 3 ≤ length out.old) }
        ensures puts { (s : _) → Puts out.old at (head_words (table_of self.now) (held_by self.now) s c) out.new result }
        ensures next { result ≡ at + 3 }
    {
        let front = c / self.table.sizes.variables;
        let words = [
            (front / sets(self.table)) as i32,
            (front % sets(self.table)) as i32,
            (c % self.table.sizes.variables) as i32,
        ];
        put(&words, out, at)
    }

    // Three words for each entry.
    fn put_heads(&self, heads: &[usize], out: &mut [i32], at: usize) -> usize
        requires below { (i : ℕ) → i < length heads.now → get_or heads.now i 0 < code_count (table_of self.now) }
        requires room { at + 3 * length heads.now ≤ length out.old }
        ensures puts { (s : _) → heads.now ≡ codes_of (table_of self.now) (held_by self.now) s → Puts out.old at (heads_out (table_of self.now) (held_by self.now) s) out.new result }
        ensures next { result ≡ at + 3 * length heads.now }
    {
        let mut next = at;
        for &c in heads {
            next = self.put_head(c, out, next);
        }
        next
    }

    // Ends of the row k; zeros where there is none.
    #[tactic(auto, using(crate::proofs::TableLaws::sizes), unfolding(crate::specs::Write::ends_of))]
    fn put_row(&self, state: &State, k: usize, side: Side, out: &mut [i32], at: usize) -> usize
        requires { (k < (sizes_of (table_of self.now)).points + (sizes_of (table_of self.now)).mutexes) × (at + (sizes_of (table_of self.now)).variables ≤ length out.old) }
        ensures puts { Puts out.old at (ends_of side (row_out (table_of self.now) (held_by self.now) (state_by self.now state.now) k)) out.new result }
        ensures next { result ≡ at + (sizes_of (table_of self.now)).variables }
    {
        let row = state.rows.row_or_zeros(k);
        let n = self.table.sizes.variables;
        match side {
            Side::Low => put(&row.lows[..n], out, at),
            Side::High => put(&row.highs[..n], out, at),
        }
    }

    // Ends of all rows: of points, then of mutexes.
    #[tactic(auto, using(crate::proofs::TableLaws::sizes))]
    fn put_rows(&self, state: &State, side: Side, out: &mut [i32], at: usize) -> usize
        requires { at + ((sizes_of (table_of self.now)).points + (sizes_of (table_of self.now)).mutexes) * (sizes_of (table_of self.now)).variables ≤ length out.old }
        ensures next { result ≡ at + ((sizes_of (table_of self.now)).points + (sizes_of (table_of self.now)).mutexes) * (sizes_of (table_of self.now)).variables }
        ensures puts { Puts out.old at (concat_below (λ k. ends_of side (row_out (table_of self.now) (held_by self.now) (state_by self.now state.now) k)) ((sizes_of (table_of self.now)).points + (sizes_of (table_of self.now)).mutexes)) out.new result }
    {
        let mut next = at;
        for k in 0..self.table.sizes.points + self.table.sizes.mutexes {
            next = self.put_row(state, k, side, out, next);
        }
        next
    }

    // An end of the entry under the head c; 0 where there is none.
    #[tactic(auto, unfolding(crate::specs::Write::ends_of, proposer::specs::Passes::row_in))]
    fn span_end(&self, state: &State, c: usize, side: Side) -> i32
        requires { c < code_count (table_of self.now) }
        ensures { result ≡ word_of (ends_of side (span_of (table_of self.now) (held_by self.now) (state_by self.now state.now) c)) 0 }
    {
        match (self.entry_under(state, c), side) {
            (None, _) => 0,
            (Some(x), Side::Low) => x.low,
            (Some(x), Side::High) => x.high,
        }
    }

    // An end of each entry, in the order of the heads.
    fn put_spans(
        &self,
        state: &State,
        heads: &[usize],
        side: Side,
        out: &mut [i32],
        at: usize,
    ) -> usize
        requires below { (i : ℕ) → i < length heads.now → get_or heads.now i 0 < code_count (table_of self.now) }
        requires room { at + length heads.now ≤ length out.old }
        ensures { Puts out.old at (map (λ c. word_of (ends_of side (span_of (table_of self.now) (held_by self.now) (state_by self.now state.now) c)) 0) heads.now) out.new result }
    {
        put_each(
            heads.len(),
            |i| self.span_end(state, heads[i], side),
            out,
            at,
        )
    }

    // Ends of the rows and of the entries.
    #[tactic(auto, using(crate::proofs::WriteLaws::heads_below))]
    fn put_ends(
        &self,
        state: &State,
        heads: &[usize],
        side: Side,
        out: &mut [i32],
        at: usize,
    ) -> usize
        requires heads { heads.now ≡ codes_of (table_of self.now) (held_by self.now) (state_by self.now state.now) }
        requires room { at + (((sizes_of (table_of self.now)).points + (sizes_of (table_of self.now)).mutexes) * (sizes_of (table_of self.now)).variables + length heads.now) ≤ length out.old }
        ensures puts { Puts out.old at (ends_out (table_of self.now) (held_by self.now) (state_by self.now state.now) (ends_of side)) out.new result }
        ensures next { result ≡ at + (((sizes_of (table_of self.now)).points + (sizes_of (table_of self.now)).mutexes) * (sizes_of (table_of self.now)).variables + length heads.now) }
    {
        let next = self.put_rows(state, side, out, at);
        self.put_spans(state, heads, side, out, next)
    }

    // All words, at the front of the buffer, and how many they are.
    #[tactic(auto, using(crate::proofs::WriteLaws::few_collected, crate::proofs::WriteLaws::collected, crate::proofs::WriteLaws::heads_below))]
    pub(crate) fn write(&self, state: &State, out: &mut [i32]) -> usize
        requires { words_needed (table_of self.now) ≤ length out.old }
        ensures value { result ≡ length (words_of (table_of self.now) (held_by self.now) (state_by self.now state.now)) }
        ensures out_after { out.new ≡ words_of (table_of self.now) (held_by self.now) (state_by self.now state.now) ++ drop result out.old }
    {
        let mut room = filled::<usize, 256>(0);
        let count = self.collect(state, &mut room);
        let heads = &room[..count];
        let held = self.put_sizes(heads, out);
        let head = self.put_held(state, out, held);
        let low = self.put_heads(heads, out, head);
        let high = self.put_ends(state, heads, Side::Low, out, low);
        self.put_ends(state, heads, Side::High, out, high)
    }
}
