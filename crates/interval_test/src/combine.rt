// The connectives of decisions, against their truth tables.
use crate::hull::{add, truths};
use crate::tally::Tally;
use interval::Decision;
use interval::compare::{both, either, opposite};

// Every pair of truths: both sides of a connective, and what a decision can allow.
const PAIRS: [(bool, bool); 4] = [(true, true), (true, false), (false, true), (false, false)];

fn possible(d: Decision, truth: bool) -> bool {
    if truth { d.yes } else { d.no }
}

// The decision that allows what the connective gives of the truths that d and e allow.
fn expected<F: Fn(bool, bool) -> bool>(d: Decision, e: Decision, connective: F) -> Decision
    requires { F.IsAlwaysCallable connective }
{
    let mut hull = None;
    for (s, t) in PAIRS {
        if possible(d, s) & possible(e, t) {
            hull = add(hull, i64::from(connective(s, t)));
        }
    }
    truths(hull)
}

// The cases of a decision on the left.
fn with_left(d: Decision) -> Tally {
    let any = Decision {
        yes: true,
        no: true,
    };
    let mut tally = Tally::default().count(opposite(d) == expected(d, any, |s, _| !s));
    for (yes, no) in PAIRS {
        let e = Decision { yes, no };
        tally = tally
            .count(both(d, e) == expected(d, e, |s, t| s & t))
            .count(either(d, e) == expected(d, e, |s, t| s | t));
    }
    tally
}

pub(crate) fn connectives() -> Tally {
    let mut tally = Tally::default();
    for (yes, no) in PAIRS {
        tally = tally.and(with_left(Decision { yes, no }));
    }
    tally
}
