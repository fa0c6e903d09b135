// Refusals 7 to 16: a proposal's layout, held sets, the outcomes of points, and each rule with its smallest place.
#![tactic(auto)]

use words::Places;

mod checked;
mod disturb;
mod entry;
pub mod examine;
pub mod held;
mod order;
mod point;
mod points;
mod proposal;
mod range;
mod reached;
mod rest;
mod rows;
mod start;

// The places that rules 11 to 16 are about: points; rest rows, as points + mutex; entries, as points + entry.
#[derive(Clone, Copy, Debug, PartialEq, Eq)]
pub struct Scope {
    pub points: Places,
    pub rests: Places,
    pub entries: Places,
}

// Whether rules 12, 13 and 14 hold at a point.
#[derive(Clone, Copy, Debug, PartialEq, Eq)]
pub struct Fits {
    pub locks: bool,
    pub flow: bool,
    pub write: bool,
}

// The smallest places at which rules 12, 13 and 14 fail.
#[derive(Clone, Copy, Debug, PartialEq, Eq)]
pub struct Faults {
    pub locks: Option<usize>,
    pub flow: Option<usize>,
    pub write: Option<usize>,
}
