// The families of cases over intervals: each operation of the library beside the expected answer.
use crate::brute::{covered, each, pairs, remainders, result, values};
use crate::exact::{holds, negative};
use crate::hull::{cut, enclosed, numbers, passes, truths};
use crate::side::{SIDES, Side, side_at};
use crate::tally::Tally;
use interval::arithmetic::{negate, operate};
use interval::compare::compare;
use interval::lattice::{is_none, join, meet, taken, within};
use interval::{Comparison, Operation};

const COMPARISONS: [Comparison; 4] = [
    Comparison::Less,
    Comparison::AtMost,
    Comparison::Equal,
    Comparison::NotEqual,
];

// The cases of every interval.
fn alone<F: Fn(Side) -> Tally>(cases: F) -> Tally
    requires { F.IsAlwaysCallable cases }
{
    let mut tally = Tally::default();
    for n in 0..SIDES {
        tally = tally.and(cases(side_at(n)));
    }
    tally
}

// The cases of every two intervals.
fn together<F: Fn(Side, Side) -> Tally>(cases: F) -> Tally
    requires { F.IsAlwaysCallable cases }
{
    alone(|x| alone(|y| cases(x, y)))
}

// Whether the library negates x as it should; and so below for each of its operations.
fn negated(x: Side) -> bool {
    let got = negate(x.given);
    let expected = each(None, x, |x| Some(negative(x)));
    (numbers(got.range) == cut(expected)) & (got.overflow == passes(expected)) & !got.zero
}

pub(crate) fn negation() -> Tally {
    alone(|x| Tally::default().count(negated(x)))
}

// Whether a pair divides by zero.
fn by_zero(op: Operation, x: Side, y: Side) -> bool {
    matches!(op, Operation::Quotient | Operation::Remainder)
        & !x.values().is_empty()
        & y.values().contains(&0)
}

fn operated(op: Operation, x: Side, y: Side) -> bool {
    let got = operate(op, x.given, y.given);
    let expected = pairs(x, y, |x, y| result(op, x, y));
    (numbers(got.range) == cut(expected))
        & (got.overflow == passes(expected))
        & (got.zero == by_zero(op, x, y))
}

// The ends of a remainder need be no exact results: they are those of document 02, and hold every exact result.
fn divided(x: Side, y: Side) -> bool {
    let op = Operation::Remainder;
    let got = operate(op, x.given, y.given);
    let expected = remainders(x, y);
    let exact = pairs(x, y, |x, y| result(op, x, y));
    (numbers(got.range) == expected)
        & enclosed(exact, expected)
        & !got.overflow
        & (got.zero == by_zero(op, x, y))
}

fn operations(x: Side, y: Side) -> Tally {
    let mut tally = Tally::default().count(divided(x, y));
    for op in [
        Operation::Sum,
        Operation::Difference,
        Operation::Product,
        Operation::Quotient,
    ] {
        tally = tally.count(operated(op, x, y));
    }
    tally
}

pub(crate) fn arithmetic() -> Tally {
    together(operations)
}

fn compared(k: Comparison, x: Side, y: Side) -> bool {
    let possible = pairs(x, y, |x, y| Some(i64::from(holds(k, x, y))));
    compare(k, x.given, y.given) == truths(possible)
}

fn every_comparison(x: Side, y: Side) -> Tally {
    let mut tally = Tally::default();
    for k in COMPARISONS {
        tally = tally.count(compared(k, x, y));
    }
    tally
}

pub(crate) fn comparisons() -> Tally {
    together(every_comparison)
}

// The cuts are the values x, and y, of the pairs for which the comparison has the truth wanted.
fn narrowed(k: Comparison, wanted: bool, x: Side, y: Side) -> bool {
    let got = interval::narrow::cuts(k, wanted, x.given, y.given);
    let left = pairs(
        x,
        y,
        |x, y| (holds(k, x, y) == wanted).then_some(i64::from(x)),
    );
    let right = pairs(
        x,
        y,
        |x, y| (holds(k, x, y) == wanted).then_some(i64::from(y)),
    );
    (numbers(got.left) == left) & (numbers(got.right) == right)
}

// A cut can end next to a grid value, so both sides are dense.
fn every_cut(x: Side, y: Side) -> Tally {
    let mut tally = Tally::default();
    if !(x.dense & y.dense) {
        return tally;
    }
    for k in COMPARISONS {
        tally = tally
            .count(narrowed(k, true, x, y))
            .count(narrowed(k, false, x, y));
    }
    tally
}

pub(crate) fn cuts() -> Tally {
    together(every_cut)
}

fn one_in_lattice(x: Side) -> Tally {
    Tally::default()
        .count(is_none(x.given) == x.values().is_empty())
        .count(numbers(taken(x.given)) == values(None, x))
}

fn two_in_lattice(x: Side, y: Side) -> Tally {
    let common = pairs(x, y, |x, y| (x == y).then_some(i64::from(x)));
    let all = values(values(None, x), y);
    Tally::default()
        .count(within(x.given, y.given) == covered(x, y))
        .count(numbers(meet(x.given, y.given)) == common)
        .count(numbers(join(x.given, y.given)) == all)
}

pub(crate) fn lattice() -> Tally {
    alone(one_in_lattice).and(together(two_in_lattice))
}
