// The expected answers, by brute force: what is asked of each pair of grid values, gathered over all of them.
use crate::exact::{furthest, furthest_below, minus, over, plus, rem, times};
use crate::hull::{Hull, add};
use crate::side::Side;
use interval::Operation;

// What the operation gives of x and y. By 0 a division gives none.
pub(crate) fn result(op: Operation, x: i32, y: i32) -> Option<i64> {
    match op {
        Operation::Sum => Some(plus(x, y)),
        Operation::Difference => Some(minus(x, y)),
        Operation::Product => Some(times(x, y)),
        Operation::Quotient => over(x, y),
        Operation::Remainder => rem(x, y),
    }
}

// With what is asked of every value of the side.
pub(crate) fn each<F: Fn(i32) -> Option<i64>>(
    mut hull: Option<Hull>,
    side: Side,
    ask: F,
) -> Option<Hull>
    requires { F.IsAlwaysCallable ask }
{
    for y in side.values() {
        if let Some(z) = ask(*y) {
            hull = add(hull, z);
        }
    }
    hull
}

// What is asked of every pair of values.
pub(crate) fn pairs<F: Fn(i32, i32) -> Option<i64>>(left: Side, right: Side, ask: F) -> Option<Hull>
    requires { F.IsAlwaysCallable ask }
{
    let mut hull = None;
    for x in left.values() {
        hull = each(hull, right, |y| ask(*x, y));
    }
    hull
}

// With every value of the side.
pub(crate) fn values(hull: Option<Hull>, side: Side) -> Option<Hull> {
    each(hull, side, |y| Some(i64::from(y)))
}

// The ends of a remainder, as document 02 has them: those of its dividend, 0 between them, and no further from 0 than the divisors leave. By 0
// alone, which leaves nothing, there are none.
pub(crate) fn remainders(x: Side, y: Side) -> Option<Hull> {
    let dividend = values(None, x)?;
    let lowest = each(None, y, furthest_below)?;
    let highest = each(None, y, furthest)?;
    Some(Hull {
        low: dividend.low.min(0).max(lowest.low),
        high: dividend.high.max(0).min(highest.high),
    })
}

// Whether every value of the left side is one of the right side.
pub(crate) fn covered(left: Side, right: Side) -> bool {
    left.values().iter().all(|x| right.values().contains(x))
}
