// Whether a row lies within another: as it is, with one or two intervals written, and met with a third. Refusal 9 passed: low ends aren't above
// their high ends, so that the ends alone are compared.
ghost use Rattle.std.specs.Prelude.{◌≡◌, true, not, ◌&&◌, ◌<◌, length, set};
ghost use Rattle.std.specs.Int.{int_min, int_max};
ghost use Rattle.std.specs.Int.Signed.{le_z};
ghost use Rattle.words.specs.Words.{word_of};
ghost use Rattle.words.specs.First.{all_below};
ghost use Rattle.interval.specs.Lattice.{is_none_of, meet_of};
ghost use Rattle.analysis.specs.Rows.{row_of, seen, range_of, each};
ghost use Rattle.rules.specs.Outcomes.{row_within_of};
ghost use Rattle.rules.specs.Ready.{Ordered};

use analysis::Ends;
use interval::Interval;
use words::all_below;

// Whether a to b lies in lo to hi.
pub(crate) fn is_inside(a: i32, b: i32, lo: i32, hi: i32) -> bool
    ensures { result ≡ le_z lo a && le_z b hi }
{
    (lo <= a) & (b <= hi)
}

// Whether a to b and c to d have a number in common: neither begins past the other's end.
fn overlap(a: i32, b: i32, c: i32, d: i32) -> bool
    ensures { result ≡ le_z a d && le_z c b }
{
    (a <= d) & (c <= b)
}

// Whether each of so many intervals of the row a lies within that of the row b.
pub(crate) fn row_within(a: &Ends, b: &Ends, variables: usize) -> bool
    requires ordered { Ordered a.now.lows.now a.now.highs.now variables }
    requires ordered_2 { Ordered b.now.lows.now b.now.highs.now variables }
    ensures { result ≡ row_within_of variables (seen a.now) (seen b.now) }
{
    all_below(
        variables,
        |v| is_inside(a.lows[v], a.highs[v], b.lows[v], b.highs[v]),
    )
}

// The word at the index i, where a is written at v, and then b at x.
fn written_word(ws: &[i32], v: usize, a: i32, x: usize, b: i32, i: usize) -> i32
    requires { i < length ws.now }
    ensures { result ≡ word_of (set (set ws.now v a) x b) i }
{
    if i == x {
        return b;
    }
    if i == v {
        return a;
    }
    ws[i]
}

// The same of the row a with the interval first written at the variable v, and then last at x. The row isn't copied.
pub(crate) fn written_within(
    a: &Ends,
    v: usize,
    first: Interval,
    x: usize,
    last: Interval,
    b: &Ends,
    variables: usize,
) -> bool
    requires ordered { Ordered a.now.lows.now a.now.highs.now variables }
    requires in_order { (le_z first.low first.high ≡ true) × (le_z last.low last.high ≡ true) }
    requires ordered_2 { Ordered b.now.lows.now b.now.highs.now variables }
    ensures { result ≡ row_within_of variables (row_of (set (set a.now.lows.now v first.low) x last.low) (set (set a.now.highs.now v first.high) x last.high)) (seen b.now) }
{
    all_below(variables, |i| {
        let low = written_word(a.lows, v, first.low, x, last.low, i);
        let high = written_word(a.highs, v, first.high, x, last.high, i);
        is_inside(low, high, b.lows[i], b.highs[i])
    })
}

// Whether no interval of the row a met with the row b is empty.
pub(crate) fn meets(a: &Ends, b: &Ends, variables: usize) -> bool
    requires ordered { Ordered a.now.lows.now a.now.highs.now variables }
    requires ordered_2 { Ordered b.now.lows.now b.now.highs.now variables }
    ensures { result ≡ all_below (λ v. not (is_none_of (meet_of (range_of (seen a.now) v) (range_of (seen b.now) v)))) variables }
{
    all_below(
        variables,
        |v| overlap(a.lows[v], a.highs[v], b.lows[v], b.highs[v]),
    )
}

// Whether the row a met with the row b lies within the row c, where they meet: there the met ends are in order too.
pub(crate) fn met_within(a: &Ends, b: &Ends, c: &Ends, variables: usize) -> bool
    requires ordered { Ordered a.now.lows.now a.now.highs.now variables }
    requires ordered_2 { Ordered b.now.lows.now b.now.highs.now variables }
    requires ordered_3 { Ordered c.now.lows.now c.now.highs.now variables }
    requires variables_value { all_below (λ v. not (is_none_of (meet_of (range_of (seen a.now) v) (range_of (seen b.now) v)))) variables ≡ true }
    ensures { result ≡ row_within_of variables (row_of (each int_max a.now.lows.now b.now.lows.now) (each int_min a.now.highs.now b.now.highs.now)) (seen c.now) }
{
    all_below(variables, |v| {
        let low = a.lows[v].max(b.lows[v]);
        let high = a.highs[v].min(b.highs[v]);
        is_inside(low, high, c.lows[v], c.highs[v])
    })
}
