// Exact arithmetic and comparison of two words, by the machine's own operators and not by the library's.
use interval::Comparison;

pub(crate) fn negative(x: i32) -> i64 {
    -i64::from(x)
}

pub(crate) fn plus(x: i32, y: i32) -> i64 {
    i64::from(x) + i64::from(y)
}

pub(crate) fn minus(x: i32, y: i32) -> i64 {
    i64::from(x) - i64::from(y)
}

pub(crate) fn times(x: i32, y: i32) -> i64 {
    i64::from(x) * i64::from(y)
}

// Cut towards zero. By 0 there is none.
pub(crate) fn over(x: i32, y: i32) -> Option<i64> {
    if y == 0 {
        return None;
    }
    Some(i64::from(x) / i64::from(y))
}

// With the sign of x. By 0 there is none.
pub(crate) fn rem(x: i32, y: i32) -> Option<i64> {
    if y == 0 {
        return None;
    }
    Some(i64::from(x) % i64::from(y))
}

// The magnitude of y, less 1, and the negation of that: how far above and below 0 a remainder by y can lie. By 0 there is none.
pub(crate) fn furthest(y: i32) -> Option<i64> {
    if y == 0 {
        return None;
    }
    Some(if y < 0 { minus(-1, y) } else { minus(y, 1) })
}

pub(crate) fn furthest_below(y: i32) -> Option<i64> {
    if y == 0 {
        return None;
    }
    Some(if y < 0 { plus(y, 1) } else { minus(1, y) })
}

pub(crate) fn holds(k: Comparison, x: i32, y: i32) -> bool {
    match k {
        Comparison::Less => x < y,
        Comparison::AtMost => x <= y,
        Comparison::Equal => x == y,
        Comparison::NotEqual => x != y,
    }
}
