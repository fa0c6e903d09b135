// The lattice of intervals: none, the order, meet and join.
ghost use Rattle.std.specs.Prelude.{◌≡◌};
ghost use Rattle.interval.specs.Interval.{from_to, taken_of};
ghost use Rattle.interval.specs.Lattice.{is_none_of, within_of, meet_of, join_of};

use crate::Interval;

// The interval from low to high; none where low is above high.
pub fn between(low: i32, high: i32) -> Option<Interval>
    ensures { result ≡ from_to low high }
{
    if low <= high {
        Some(Interval { low, high })
    } else {
        None
    }
}

// The interval as every function here takes it: one with its low end above its high end is none.
#[tactic(auto, unfolding(crate::specs::Interval::on_ends))]
pub fn taken(x: Option<Interval>) -> Option<Interval>
    ensures { result ≡ taken_of x }
{
    let x = x?;
    between(x.low, x.high)
}

#[tactic(auto, unfolding(crate::specs::Interval::on_ends))]
pub fn is_none(x: Option<Interval>) -> bool
    ensures { result ≡ is_none_of x }
{
    taken(x).is_none()
}

// Whether x lies within y. None lies within every interval.
#[tactic(auto, using(crate::proofs::Machine::read_back), unfolding(crate::specs::Lattice::within_of, crate::specs::Interval::on_ends))]
pub fn within(x: Option<Interval>, y: Option<Interval>) -> bool
    ensures { result ≡ within_of x y }
{
    let Some(x) = taken(x) else {
        return true;
    };
    let Some(y) = taken(y) else {
        return false;
    };
    (y.low <= x.low) & (x.high <= y.high)
}

// The numbers of both.
#[tactic(auto, unfolding(crate::specs::Lattice::meet_of, crate::specs::Interval::on_ends))]
pub fn meet(x: Option<Interval>, y: Option<Interval>) -> Option<Interval>
    ensures { result ≡ meet_of x y }
{
    let x = taken(x)?;
    let y = taken(y)?;
    between(x.low.max(y.low), x.high.min(y.high))
}

// The least interval that holds both. None adds nothing.
#[tactic(auto, unfolding(crate::specs::Lattice::join_of, crate::specs::Interval::on_ends))]
pub fn join(x: Option<Interval>, y: Option<Interval>) -> Option<Interval>
    ensures { result ≡ join_of x y }
{
    let Some(x) = taken(x) else {
        return taken(y);
    };
    let Some(y) = taken(y) else {
        return Some(x);
    };
    Some(Interval {
        low: x.low.min(y.low),
        high: x.high.max(y.high),
    })
}
