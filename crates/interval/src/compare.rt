// Decisions: which of true and false are possible.
ghost use Rattle.std.specs.Prelude.{◌≡◌};
ghost use Rattle.interval.specs.Compare.{neither_of, meets_of, same_single_of, decide_of, compare_of, both_of, either_of, opposite_of};

use crate::lattice::taken;
use crate::{Comparison, Decision, Interval};

fn neither() -> Decision
    ensures { result ≡ neither_of }
{
    Decision {
        yes: false,
        no: false,
    }
}

// Whether x and y have a number in common.
fn meets(x: Interval, y: Interval) -> bool
    ensures { result ≡ meets_of x.low x.high y.low y.high }
{
    (x.low <= y.high) & (y.low <= x.high)
}

// Whether x and y are the same single value.
#[tactic(auto, unfolding(crate::specs::Integer::eq_z))]
fn same_single(x: Interval, y: Interval) -> bool
    ensures { result ≡ same_single_of x.low x.high y.low y.high }
{
    (x.low == x.high) & ((y.low == y.high) & (x.low == y.low))
}

#[tactic(auto, unfolding(crate::specs::Compare::decide_of))]
fn decide(k: Comparison, x: Interval, y: Interval) -> Decision
    ensures { result ≡ decide_of k x.low x.high y.low y.high }
{
    match k {
        Comparison::Less => Decision {
            yes: x.low < y.high,
            no: y.low <= x.high,
        },
        Comparison::AtMost => Decision {
            yes: x.low <= y.high,
            no: y.low < x.high,
        },
        Comparison::Equal => Decision {
            yes: meets(x, y),
            no: !same_single(x, y),
        },
        Comparison::NotEqual => Decision {
            yes: !same_single(x, y),
            no: meets(x, y),
        },
    }
}

// The comparison of a number of x with one of y. None on a side gives neither.
#[tactic(auto, unfolding(crate::specs::Compare::compare_of, crate::specs::Interval::on_ends))]
pub fn compare(k: Comparison, x: Option<Interval>, y: Option<Interval>) -> Decision
    ensures { result ≡ compare_of k x y }
{
    let Some(x) = taken(x) else {
        return neither();
    };
    let Some(y) = taken(y) else {
        return neither();
    };
    decide(k, x, y)
}

// Both conditions. Neither on a side gives neither.
#[tactic(auto, unfolding(crate::specs::Compare::both_of))]
pub fn both(d: Decision, e: Decision) -> Decision
    ensures { result ≡ both_of d e }
{
    if (d.yes | d.no) & (e.yes | e.no) {
        Decision {
            yes: d.yes & e.yes,
            no: d.no | e.no,
        }
    } else {
        neither()
    }
}

// One of the conditions, or both. Neither on a side gives neither.
#[tactic(auto, unfolding(crate::specs::Compare::either_of))]
pub fn either(d: Decision, e: Decision) -> Decision
    ensures { result ≡ either_of d e }
{
    if (d.yes | d.no) & (e.yes | e.no) {
        Decision {
            yes: d.yes | e.yes,
            no: d.no & e.no,
        }
    } else {
        neither()
    }
}

// Not the condition.
#[tactic(auto, unfolding(crate::specs::Compare::opposite_of))]
pub fn opposite(d: Decision) -> Decision
    ensures { result ≡ opposite_of d }
{
    Decision {
        yes: d.no,
        no: d.yes,
    }
}
