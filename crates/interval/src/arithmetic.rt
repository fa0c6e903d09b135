// Negation, sum, difference, product, quotient and remainder of intervals: exact in 64 bits, then cut to words.
ghost use Rattle.std.specs.Prelude.{◌≡◌, pos, ◌-ℤ◌, ◌≤ℤ◌, ◌*ℤ◌, Some};
ghost use Rattle.std.specs.Int.Signed.{quot_z};
ghost use Rattle.interval.specs.Arithmetic.{divides_of, corners, hull_of, below_of, above_of, either_part_of, magnitude, largest_of, remainder_low_of, remainder_high_of, remainders_of, uncut_of, zero_in_of, clamp_of, passes_of, computed_of, nothing_of, negate_of, operate_of};

use crate::integer::{minus, negative, over, plus, times};
use crate::lattice::taken;
use crate::{Computed, Interval, Operation, Uncut};

// The words from lo to hi.
pub fn clamp(lo: i64, hi: i64) -> Option<Interval>
    ensures { result ≡ clamp_of lo hi }
{
    let low = lo.max(-2147483648);
    let high = hi.min(2147483647);
    if low <= high {
        Some(Interval {
            low: low as i32,
            high: high as i32,
        })
    } else {
        None
    }
}

// Whether lo to hi passes the least or the greatest word.
fn passes(lo: i64, hi: i64) -> bool
    ensures { result ≡ passes_of lo hi }
{
    (lo < -2147483648) | (2147483647 < hi)
}

#[tactic(auto, unfolding(crate::specs::Arithmetic::computed_of))]
fn computed(u: Option<Uncut>, zero: bool) -> Computed
    ensures { result ≡ computed_of u zero }
{
    match u {
        None => Computed {
            range: None,
            overflow: false,
            zero,
        },
        Some(u) => Computed {
            range: clamp(u.low, u.high),
            overflow: passes(u.low, u.high),
            zero,
        },
    }
}

fn nothing() -> Computed
    ensures { result ≡ nothing_of }
{
    Computed {
        range: None,
        overflow: false,
        zero: false,
    }
}

// The least and the greatest of four results.
fn hull(p: i64, q: i64, r: i64, s: i64) -> Uncut
    ensures { Some result ≡ hull_of p q r s }
{
    Uncut {
        low: p.min(q).min(r.min(s)),
        high: p.max(q).max(r.max(s)),
    }
}

// The quotients at the ends.
fn quotients(x: Interval, y: Interval) -> Uncut
    ensures { Some result ≡ corners quot_z x.low x.high y.low y.high }
{
    hull(
        over(x.low, y.low),
        over(x.low, y.high),
        over(x.high, y.low),
        over(x.high, y.high),
    )
}

// The quotients by the divisors below 0.
#[tactic(auto, unfolding(crate::specs::Arithmetic::below_of))]
fn below(x: Interval, y: Interval) -> Option<Uncut>
    ensures { result ≡ below_of x.low x.high y.low y.high }
{
    if y.low <= -1 {
        let part = Interval {
            low: y.low,
            high: y.high.min(-1),
        };
        Some(quotients(x, part))
    } else {
        None
    }
}

// The quotients by the divisors above 0.
#[tactic(auto, unfolding(crate::specs::Arithmetic::above_of))]
fn above(x: Interval, y: Interval) -> Option<Uncut>
    ensures { result ≡ above_of x.low x.high y.low y.high }
{
    if 1 <= y.high {
        let part = Interval {
            low: y.low.max(1),
            high: y.high,
        };
        Some(quotients(x, part))
    } else {
        None
    }
}

#[tactic(auto, unfolding(crate::specs::Arithmetic::either_part_of))]
fn either_part(u: Option<Uncut>, v: Option<Uncut>) -> Option<Uncut>
    ensures { result ≡ either_part_of u v }
{
    let Some(a) = u else {
        return v;
    };
    let Some(b) = v else {
        return u;
    };
    Some(Uncut {
        low: a.low.min(b.low),
        high: a.high.max(b.high),
    })
}

// The magnitude of z, less 1, which is a word also for MIN.
fn one_less(z: i32) -> i32
    ensures { result ≡ magnitude z -ℤ pos 1 }
{
    if z < 0 { -1 - z } else { z - 1 }
}

// The greatest magnitude of the divisors, less 1: no remainder has a greater one.
#[tactic(auto, using(crate::proofs::RemainderLaws::largest_ends))]
fn largest(y: Interval) -> i32
    ensures { result ≡ largest_of y.low y.high }
{
    one_less(y.low).max(one_less(y.high))
}

#[tactic(auto, unfolding(crate::specs::Arithmetic::remainder_low_of))]
fn remainder_low(a: i32, most: i32) -> i64
    ensures { result ≡ remainder_low_of a most }
{
    if a < 0 {
        i64::from(a).max(negative(most))
    } else {
        0
    }
}

#[tactic(auto, unfolding(crate::specs::Arithmetic::remainder_high_of))]
fn remainder_high(b: i32, most: i32) -> i64
    ensures { result ≡ remainder_high_of b most }
{
    if 0 < b {
        i64::from(b).min(i64::from(most))
    } else {
        0
    }
}

// Bounds of the remainders of x by y; none where y is only 0.
#[tactic(auto, unfolding(crate::specs::Arithmetic::remainders_of, crate::specs::Integer::eq_z))]
fn remainders(x: Interval, y: Interval) -> Option<Uncut>
    ensures { result ≡ remainders_of x.low x.high y.low y.high }
{
    if (y.low == 0) & (y.high == 0) {
        return None;
    }
    let most = largest(y);
    Some(Uncut {
        low: remainder_low(x.low, most),
        high: remainder_high(x.high, most),
    })
}

// The product's hull has four corners; a sum and a difference need two of them.
fn products(x: Interval, y: Interval) -> Uncut
    ensures { Some result ≡ corners ◌*ℤ◌ x.low x.high y.low y.high }
{
    hull(
        times(x.low, y.low),
        times(x.low, y.high),
        times(x.high, y.low),
        times(x.high, y.high),
    )
}

// The uncut results of x and y.
#[tactic(auto, using(crate::proofs::ArithmeticLaws::two_corners), unfolding(crate::specs::Arithmetic::uncut_of))]
fn uncut(op: Operation, x: Interval, y: Interval) -> Option<Uncut>
    requires left { x.low ≤ℤ x.high }
    requires right { y.low ≤ℤ y.high }
    ensures { result ≡ uncut_of op x.low x.high y.low y.high }
{
    match op {
        Operation::Sum => Some(Uncut {
            low: plus(x.low, y.low),
            high: plus(x.high, y.high),
        }),
        Operation::Difference => Some(Uncut {
            low: minus(x.low, y.high),
            high: minus(x.high, y.low),
        }),
        Operation::Product => Some(products(x, y)),
        Operation::Quotient => either_part(below(x, y), above(x, y)),
        Operation::Remainder => remainders(x, y),
    }
}

fn divides(op: Operation) -> bool
    ensures { result ≡ divides_of op }
{
    matches!(op, Operation::Quotient | Operation::Remainder)
}

// Whether the operation can divide by zero, its right operand being y.
fn zero_in(op: Operation, y: Interval) -> bool
    ensures { result ≡ zero_in_of op y.low y.high }
{
    divides(op) & ((y.low <= 0) & (0 <= y.high))
}

// The negation of x. None gives none and no alarm.
#[tactic(auto, using(crate::proofs::ArithmeticLaws::turned_ends), unfolding(crate::specs::Arithmetic::negate_of, crate::specs::Interval::on_ends))]
pub fn negate(x: Option<Interval>) -> Computed
    ensures { result ≡ negate_of x }
{
    let Some(x) = taken(x) else {
        return nothing();
    };
    let negated = Uncut {
        low: negative(x.high),
        high: negative(x.low),
    };
    computed(Some(negated), false)
}

// The operation on x and y. None on a side gives none and no alarm. A quotient is cut towards zero, and a remainder has the dividend's sign.
#[tactic(auto, unfolding(crate::specs::Arithmetic::operate_of, crate::specs::Interval::on_ends))]
pub fn operate(op: Operation, x: Option<Interval>, y: Option<Interval>) -> Computed
    ensures { result ≡ operate_of op x y }
{
    let Some(x) = taken(x) else {
        return nothing();
    };
    let Some(y) = taken(y) else {
        return nothing();
    };
    computed(uncut(op, x, y), zero_in(op, y))
}
