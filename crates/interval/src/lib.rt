// Interval arithmetic over words (signed 32-bit numbers): a library of its own, above no other crate.
// A result on a row is an interval, or none. An interval whose low end is above its high end counts as none wherever it is handed in.
#![tactic(auto)]

ghost use Rattle.interval.specs.Laws.{Laws};
ghost use Rattle.interval.specs.Examples.{Starred};

pub mod arithmetic;
pub mod compare;
pub mod integer;
pub mod lattice;
pub mod narrow;

// The words from the low end to the high end.
#[derive(Clone, Copy, Debug, PartialEq, Eq)]
pub struct Interval {
    pub low: i32,
    pub high: i32,
}

// The operations of two operands.
#[derive(Clone, Copy, Debug, PartialEq, Eq)]
pub enum Operation {
    Sum,
    Difference,
    Product,
    Quotient,
    Remainder,
}

// What an operation gives: the interval of its results, and whether overflow and a zero divisor are possible.
#[derive(Clone, Copy, Debug, PartialEq, Eq)]
pub struct Computed {
    pub range: Option<Interval>,
    pub overflow: bool,
    pub zero: bool,
}

// The least and the greatest exact result before the cut to words; of a remainder, bounds of them. A division by only 0 has none.
#[derive(Clone, Copy, Debug, PartialEq, Eq)]
pub struct Uncut {
    pub low: i64,
    pub high: i64,
}

#[derive(Clone, Copy, Debug, PartialEq, Eq)]
pub enum Comparison {
    Less,
    AtMost,
    Equal,
    NotEqual,
}

// Which of true and false a condition can be. Neither is document 01's none.
#[derive(Clone, Copy, Debug, PartialEq, Eq)]
pub struct Decision {
    pub yes: bool,
    pub no: bool,
}

// What a comparison leaves of its two sides; both are none where one is.
#[derive(Clone, Copy, Debug, PartialEq, Eq)]
pub struct Cuts {
    pub left: Option<Interval>,
    pub right: Option<Interval>,
}

// Does nothing: its contract is every law of the crate and the worked examples, so that none of them can go unproved.
pub fn laws_hold()
    ensures laws { Laws }
    ensures starred { Starred }
{}
