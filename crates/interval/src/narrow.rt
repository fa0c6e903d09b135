// The cuts of narrowing: what a comparison of a known truth leaves of its two sides.
ghost use Rattle.std.specs.Prelude.{◌≡◌, false};
ghost use Rattle.interval.specs.Narrow.{no_cuts_of, kept_of, swapped_of, low_past_of, high_past_of, without_of, cuts_at, cuts_for_of, cuts_of};
ghost use Rattle.interval.specs.declared.Comparison.TheVariants.{Less, AtMost, Equal, NotEqual};

use crate::arithmetic::clamp;
use crate::integer::{minus, plus};
use crate::lattice::{between, taken};
use crate::{Comparison, Cuts, Interval};

fn no_cuts() -> Cuts
    ensures { result ≡ no_cuts_of }
{
    Cuts {
        left: None,
        right: None,
    }
}

// Both sides as they are, or none where one is.
#[tactic(auto, unfolding(crate::specs::Narrow::kept_of, crate::specs::Interval::on_ends))]
fn kept(left: Option<Interval>, right: Option<Interval>) -> Cuts
    ensures { result ≡ kept_of left right }
{
    let Some(left) = taken(left) else {
        return no_cuts();
    };
    let Some(right) = taken(right) else {
        return no_cuts();
    };
    Cuts {
        left: Some(left),
        right: Some(right),
    }
}

fn swapped(u: Cuts) -> Cuts
    ensures { result ≡ swapped_of u }
{
    Cuts {
        left: u.right,
        right: u.left,
    }
}

// The low end a past the single value of y.
#[tactic(auto, unfolding(crate::specs::Narrow::low_past_of, crate::specs::Integer::eq_z))]
fn low_past(a: i32, y: Interval) -> i64
    ensures { result ≡ low_past_of a y.low y.high }
{
    if (y.low == y.high) & (a == y.low) {
        plus(a, 1)
    } else {
        i64::from(a)
    }
}

// The high end b past the single value of y.
#[tactic(auto, unfolding(crate::specs::Narrow::high_past_of, crate::specs::Integer::eq_z))]
fn high_past(b: i32, y: Interval) -> i64
    ensures { result ≡ high_past_of b y.low y.high }
{
    if (y.low == y.high) & (b == y.low) {
        minus(b, 1)
    } else {
        i64::from(b)
    }
}

fn without(x: Interval, y: Interval) -> Option<Interval>
    ensures { result ≡ without_of x.low x.high y.low y.high }
{
    clamp(low_past(x.low, y), high_past(x.high, y))
}

fn cuts_less(x: Interval, y: Interval) -> Cuts
    ensures { result ≡ cuts_at Less x.low x.high y.low y.high }
{
    let left = clamp(i64::from(x.low), i64::from(x.high).min(minus(y.high, 1)));
    let right = clamp(i64::from(y.low).max(plus(x.low, 1)), i64::from(y.high));
    kept(left, right)
}

fn cuts_at_most(x: Interval, y: Interval) -> Cuts
    ensures { result ≡ cuts_at AtMost x.low x.high y.low y.high }
{
    kept(
        between(x.low, x.high.min(y.high)),
        between(y.low.max(x.low), y.high),
    )
}

fn cuts_equal(x: Interval, y: Interval) -> Cuts
    ensures { result ≡ cuts_at Equal x.low x.high y.low y.high }
{
    let meet = between(x.low.max(y.low), x.high.min(y.high));
    kept(meet, meet)
}

#[tactic(auto, unfolding(crate::specs::Narrow::cuts_at))]
fn cuts_not_equal(x: Interval, y: Interval) -> Cuts
    ensures { result ≡ cuts_at NotEqual x.low x.high y.low y.high }
{
    kept(without(x, y), without(y, x))
}

fn cuts_yes(k: Comparison, x: Interval, y: Interval) -> Cuts
    ensures { result ≡ cuts_at k x.low x.high y.low y.high }
{
    match k {
        Comparison::Less => cuts_less(x, y),
        Comparison::AtMost => cuts_at_most(x, y),
        Comparison::Equal => cuts_equal(x, y),
        Comparison::NotEqual => cuts_not_equal(x, y),
    }
}

#[tactic(auto, unfolding(crate::specs::Narrow::cuts_for_of))]
fn cuts_no(k: Comparison, x: Interval, y: Interval) -> Cuts
    ensures { result ≡ cuts_for_of k false x.low x.high y.low y.high }
{
    match k {
        Comparison::Less => swapped(cuts_at_most(y, x)),
        Comparison::AtMost => swapped(cuts_less(y, x)),
        Comparison::Equal => cuts_not_equal(x, y),
        Comparison::NotEqual => cuts_equal(x, y),
    }
}

// What is left of x and y where their comparison has the truth wanted. None on a side, or an empty cut, gives none.
#[tactic(auto, unfolding(crate::specs::Narrow::cuts_of, crate::specs::Narrow::cuts_for_of, crate::specs::Interval::on_ends))]
pub fn cuts(k: Comparison, wanted: bool, x: Option<Interval>, y: Option<Interval>) -> Cuts
    ensures { result ≡ cuts_of k wanted x y }
{
    let Some(x) = taken(x) else {
        return no_cuts();
    };
    let Some(y) = taken(y) else {
        return no_cuts();
    };
    if wanted {
        cuts_yes(k, x, y)
    } else {
        cuts_no(k, x, y)
    }
}
