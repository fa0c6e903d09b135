// The analysis of a tree on a row: the interval of arithmetic, the decision of a condition, their alarms, and the row that a condition of a known
// truth leaves. A choice reads each branch on the row that its condition leaves for it.
#![tactic(auto)]

ghost use Rattle.analysis.specs.Laws.{Laws};
ghost use Rattle.analysis.specs.Examples.{Starred};

use interval::{Comparison, Cuts, Decision};

pub mod alarms;
pub mod evaluate;
pub mod narrow;
pub mod rows;

// A row in the sixteen slots that a table can have: all low ends, and all high ends.
#[derive(Clone, Copy, Debug, Default, PartialEq, Eq)]
pub struct Row {
    pub lows: [i32; 16],
    pub highs: [i32; 16],
}

// A row that is read where it lies, as in a proposal.
#[derive(Clone, Copy)]
pub struct Ends<'a> {
    pub lows: &'a [i32],
    pub highs: &'a [i32],
}

// The kinds of error, with document 01's numbers.
#[derive(Clone, Copy, Debug, PartialEq, Eq)]
pub enum Kind {
    Overflow = 1,
    Zero = 2,
}

// What a condition says of a row: its decision, and whether there is a row where it is true and one where it is false.
#[derive(Clone, Copy, Debug, PartialEq, Eq)]
pub struct Split {
    pub decision: Decision,
    pub yes: bool,
    pub no: bool,
}

// A node, and whether the 'not' around it turn it.
#[derive(Clone, Copy, Debug, PartialEq, Eq)]
pub struct Bare {
    pub node: usize,
    pub turned: bool,
}

// A comparison of two arithmetic nodes.
#[derive(Clone, Copy, Debug, PartialEq, Eq)]
pub(crate) struct Compared {
    pub(crate) comparison: Comparison,
    pub(crate) left: usize,
    pub(crate) right: usize,
}

// What a comparison cuts, and of which variables: those that its sides are, or two different numbers past the slots.
#[derive(Clone, Copy, Debug, PartialEq, Eq)]
pub(crate) struct SlotCuts {
    pub(crate) v: usize,
    pub(crate) w: usize,
    pub(crate) cuts: Cuts,
}

// What a condition is asked: its decision and alarms on a row that is read; the truth by which another row is narrowed in its place, and whether that one
// is a copy of the row that is read; the row from which the opposite starts, and whether it is one; and whether there is a row that what the opposite
// leaves is joined to, or a copy of the row from which it starts.
#[derive(Clone, Copy)]
pub(crate) struct Asked<'a> {
    pub(crate) nodes: &'a [i32],
    pub(crate) row: &'a Row,
    pub(crate) truth: bool,
    pub(crate) copy: bool,
    pub(crate) from: &'a Row,
    pub(crate) from_copy: bool,
    pub(crate) some: bool,
}

// What it says: its decision, and whether there is a row where one was narrowed and where one was joined.
#[derive(Clone, Copy, Debug, PartialEq, Eq)]
pub(crate) struct Said {
    pub(crate) decision: Decision,
    pub(crate) narrowed: bool,
    pub(crate) joined: bool,
}

// A node, and the kind of error that is possible there: 1 overflow, 2 division by zero.
#[derive(Clone, Copy, Debug, PartialEq, Eq)]
pub struct Alarm {
    pub node: usize,
    pub kind: usize,
}

// Does nothing: its contract is every law of the crate and the worked examples, so that none of them can go unproved.
pub fn laws_hold()
    ensures laws { Laws }
    ensures starred { Starred }
{}
