// The least and the greatest of the numbers gathered so far, where there are any, and what they say of an answer of the library.
use interval::{Decision, Interval};

#[derive(Clone, Copy, PartialEq, Eq)]
pub struct Hull {
    pub low: i64,
    pub high: i64,
}

// With z gathered too.
pub(crate) fn add(hull: Option<Hull>, z: i64) -> Option<Hull> {
    let Some(h) = hull else {
        return Some(Hull { low: z, high: z });
    };
    Some(Hull {
        low: h.low.min(z),
        high: h.high.max(z),
    })
}

// The numbers of an answer.
pub(crate) fn numbers(answer: Option<Interval>) -> Option<Hull> {
    let x = answer?;
    Some(Hull {
        low: i64::from(x.low),
        high: i64::from(x.high),
    })
}

// The part that words hold.
pub(crate) fn cut(hull: Option<Hull>) -> Option<Hull> {
    let h = hull?;
    let words = Hull {
        low: h.low.max(-2147483648),
        high: h.high.min(2147483647),
    };
    if words.low <= words.high {
        Some(words)
    } else {
        None
    }
}

// Whether a number gathered is no word.
pub(crate) fn passes(hull: Option<Hull>) -> bool {
    hull.is_some_and(|h| (h.low < -2147483648) | (2147483647 < h.high))
}

// Whether every number gathered lies from the least to the greatest of the outer one.
pub(crate) fn enclosed(hull: Option<Hull>, outer: Option<Hull>) -> bool {
    hull.is_none_or(|h| outer.is_some_and(|o| (o.low <= h.low) & (h.high <= o.high)))
}

// The decision that allows exactly the truths gathered, 1 for true and 0 for false.
pub(crate) fn truths(hull: Option<Hull>) -> Decision {
    Decision {
        yes: hull.is_some_and(|h| h.high == 1),
        no: hull.is_some_and(|h| h.low == 0),
    }
}
