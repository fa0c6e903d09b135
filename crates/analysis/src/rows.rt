// Rows: reading one where it lies, and changing one in its place. Where a function answers false there is no row, and what stands in its place is
// left open.
ghost use Rattle.std.specs.Prelude.{◌≡◌, true, false, not, Some};
ghost use Rattle.std.specs.Int.{int_min, int_max};
ghost use Rattle.words.specs.Words.{word_of};
ghost use Rattle.interval.specs.Interval.{span};
ghost use Rattle.analysis.specs.Rows.{seen, range_of, own_of, put_of, meet_at_of, then_row, join_rows_of, maybe_by};
ghost use Rattle.analysis.specs.Arrays.{left_of, CopyIf};

use crate::{Ends, Row};
use interval::Interval;
use interval::lattice::{between, meet};
use words::{padded, word};

impl<'a> Ends<'a> {
    // The interval of the variable v.
    pub fn range(&self, v: usize) -> Option<Interval>
        ensures { result ≡ range_of (seen self.now) v }
    {
        between(word(self.lows, v), word(self.highs, v))
    }

    // The interval of the variable v in the sixteen slots of a row, which is read where it lies.
    #[tactic(auto, using(crate::proofs::RowLaws::slot_words))]
    pub(crate) fn slot(&self, v: usize) -> Option<Interval>
        ensures { result ≡ range_of (own_of (seen self.now)) v }
    {
        if 16 <= v {
            return Some(Interval { low: 0, high: 0 });
        }
        self.range(v)
    }

    // A row of its own.
    #[tactic(auto, unfolding(crate::specs::Rows::slots_of))]
    pub fn own(&self) -> Row
        ensures { result ≡ own_of (seen self.now) }
    {
        Row {
            lows: padded(self.lows),
            highs: padded(self.highs),
        }
    }
}

impl Row {
    // The row where it lies.
    pub fn ends(&self) -> Ends<'_>
        ensures { seen result ≡ self.now }
    {
        Ends {
            lows: &self.lows,
            highs: &self.highs,
        }
    }

    // The interval of the variable v.
    pub fn range(&self, v: usize) -> Option<Interval>
        ensures { result ≡ range_of self.now v }
    {
        self.ends().range(v)
    }

    // The interval x of v in its place; past the slots there is none to change.
    #[tactic(auto, unfolding(crate::specs::Rows::put_of))]
    pub fn set(&mut self, v: usize, x: Interval)
        ensures { Some self.new ≡ put_of self.old v (Some x) }
    {
        if v < 16 {
            self.lows[v] = x.low;
            self.highs[v] = x.high;
        }
    }

    // The row with the interval s of v; none where s is none, and then nothing changes.
    #[tactic(auto, unfolding(crate::specs::Rows::maybe_by, crate::specs::Rows::put_of))]
    pub fn put(&mut self, v: usize, s: Option<Interval>) -> bool
        ensures row { maybe_by result self.new ≡ put_of self.old v s }
        ensures unchanged { (result ≡ false) → (self.new ≡ self.old) }
    {
        if let Some(x) = s {
            self.set(v, x);
        }
        s.is_some()
    }

    // The row, where v is known to lie in s.
    #[tactic(auto, unfolding(crate::specs::Rows::meet_at_of))]
    pub(crate) fn meet_at(&mut self, v: usize, s: Option<Interval>) -> bool
        ensures { maybe_by result self.new ≡ meet_at_of self.old v s }
    {
        let x = self.range(v);
        self.put(v, meet(x, s))
    }

    // Two rows together, in the place of the first.
    #[tactic(auto, using(crate::proofs::RowCodeLaws::joining))]
    pub fn widen(&mut self, more: &Row)
        ensures { Some self.new ≡ join_rows_of (Some self.old) (Some more.now) }
    {
        for v in 0..16 {
            self.lows[v] = self.lows[v].min(more.lows[v]);
            self.highs[v] = self.highs[v].max(more.highs[v]);
        }
    }

    // The ends of the variable v, widened by x.
    fn widened_at(&self, v: usize, x: Interval) -> Interval
        ensures { Some result ≡ span (int_min (word_of self.now.lows v) x.low) (int_max (word_of self.now.highs v) x.high) }
    {
        Interval {
            low: word(&self.lows, v).min(x.low),
            high: word(&self.highs, v).max(x.high),
        }
    }

    // Two rows together, in the place of the first, where the second has x at v and then y at w in place of its own.
    pub(crate) fn widen_cut(&mut self, more: &Row, v: usize, x: Interval, w: usize, y: Interval)
        ensures { Some self.new ≡ join_rows_of (Some self.old) (then_row (put_of more.now v (Some x)) (λ s. put_of s w (Some y))) }
    {
        let first = self.widened_at(v, x);
        let second = self.widened_at(w, y);
        self.widen(more);
        self.set(v, first);
        self.set(w, second);
    }

    // The row and the other, if that is there, together, in the row's place.
    #[tactic(auto, unfolding(crate::specs::Rows::maybe_by, crate::specs::Rows::join_rows_of))]
    pub(crate) fn widen_if(&mut self, there: bool, more: &Row)
        ensures { Some self.new ≡ join_rows_of (Some self.old) (maybe_by there more.now) }
    {
        if there {
            self.widen(more);
        }
    }

    // Whether what was left in this place, if there is some, is a copy of the row. Where there is none, a copy is put there.
    #[tactic(auto, using(crate::proofs::RowCodeLaws::same_words), unfolding(crate::specs::Rows::maybe_by))]
    pub(crate) fn is_copy(&mut self, some: bool, row: &Row) -> bool
        ensures unchanged { maybe_by some self.new ≡ maybe_by some self.old }
        ensures copy { (result ≡ true) → (self.new ≡ row.now) }
    {
        if !some {
            *self = *row;
            return true;
        }
        *self == *row
    }

    // A copy of the row from in this place, where there is none.
    #[tactic(auto, unfolding(crate::specs::Rows::maybe_by))]
    pub(crate) fn copy_unless(&mut self, some: bool, from: &Row)
        ensures unchanged { maybe_by some self.new ≡ maybe_by some self.old }
        ensures copy { CopyIf (not some) self.new from.now }
    {
        if !some {
            *self = *from;
        }
    }

    // Zeros in this place, where there is none.
    #[tactic(auto, using(crate::proofs::RowCodeLaws::cleared), unfolding(crate::specs::Rows::maybe_by, crate::specs::Arrays::left_of))]
    pub(crate) fn clear_unless(&mut self, some: bool)
        ensures { self.new ≡ left_of (maybe_by some self.old) }
    {
        if !some {
            *self = Row::default();
        }
    }
}
