// The intervals that are tried: every pair of ends of a grid, inverted ones too, and none.
ghost use Rattle.std.specs.Prelude.{◌<◌, ◌≤◌};

use interval::Interval;

// The words at both ends, where results pass them, and -8 to 8. Since -1, 0 and 1 are there, the least and the greatest result over two
// intervals are those over their grid values, but for a remainder.
static GRID: [i32; 21] = [
    -2147483648,
    -2147483647,
    -8,
    -7,
    -6,
    -5,
    -4,
    -3,
    -2,
    -1,
    0,
    1,
    2,
    3,
    4,
    5,
    6,
    7,
    8,
    2147483646,
    2147483647,
];

// An interval to hand in, and the places from..to of its values in the grid. It is dense where both ends are in one stretch, so that the grid
// has every number of it.
#[derive(Clone, Copy)]
pub struct Side {
    pub given: Option<Interval>,
    from: usize,
    to: usize,
    pub dense: bool,
    ghost in_grid: { (from ≤ to) × (to ≤ 21) },
}

impl Side {
    pub(crate) fn values(self) -> &'static [i32] {
        &GRID[self.from..self.to]
    }
}

// The stretches without a gap: the two least words, -8 to 8, and the two greatest.
fn stretch(k: usize) -> usize {
    match k {
        0..=1 => 0,
        2..=18 => 1,
        _ => 2,
    }
}

// Of an inverted pair from..to is empty, as the pair counts as none.
fn ends(i: usize, j: usize) -> Side
    requires { (i < 21) × (j < 21) }
{
    Side {
        given: Some(Interval {
            low: GRID[i],
            high: GRID[j],
        }),
        from: i,
        to: i.max(j + 1),
        dense: stretch(i) == stretch(j),
    }
}

// How many there are: the 441 pairs of ends, and none as the last.
pub(crate) const SIDES: usize = 442;

pub(crate) fn side_at(n: usize) -> Side
    requires { n < 442 }
{
    if n < 441 {
        return ends(n / 21, n % 21);
    }
    Side {
        given: None,
        from: 0,
        to: 0,
        dense: true,
    }
}
