// A task table: its layout, what stands at its nodes and points, and refusals 1 to 6.
#![tactic(auto)]

ghost use Rattle.table.specs.Laws.{Laws};
ghost use Rattle.table.specs.Examples.{Starred};

pub mod checked;
pub mod decode;
pub mod formed;
pub mod layout;
mod uses;
pub mod validate;

pub use checked::Table;

// The five sizes.
#[derive(Clone, Copy, Debug, PartialEq, Eq)]
pub struct Sizes {
    pub tasks: usize,
    pub variables: usize,
    pub mutexes: usize,
    pub points: usize,
    pub nodes: usize,
}

// The four words of a point or a node.
#[derive(Clone, Copy, Debug, Default, PartialEq, Eq)]
pub struct Four {
    pub kind: i32,
    pub a: i32,
    pub b: i32,
    pub c: i32,
}

// A node as the evaluators read it: its kind, the words of its first two fields, and the numbers of all three.
#[derive(Clone, Copy, Debug, PartialEq, Eq)]
pub struct Node {
    pub kind: usize,
    pub x: i32,
    pub y: i32,
    pub a: usize,
    pub b: usize,
    pub c: usize,
}

// What stands at a node, its children by their numbers. Kinds 4 to 7 are one shape with the operation's name, and so are 16 to 19 with the
// comparison's. Bad: an unknown kind, or a child that is not below its parent.
#[derive(Clone, Copy, Debug, PartialEq, Eq)]
pub enum Shape {
    Constant(i32),
    Input(i32, i32),
    Variable(usize),
    Negation(usize),
    Binary(interval::Operation, usize, usize),
    Choice(usize, usize, usize),
    Compare(interval::Comparison, usize, usize),
    Both(usize, usize),
    Either(usize, usize),
    Not(usize),
    Bad,
}

// What stands at a point. An unknown kind is an end.
#[derive(Clone, Copy, Debug, PartialEq, Eq)]
pub enum Point {
    End,
    // variable, arithmetic node, target
    Assign(usize, usize, usize),
    // condition node, target on yes, target on no
    Test(usize, usize, usize),
    // mutex, target
    Lock(usize, usize),
    Unlock(usize, usize),
}

// What the fields of a point may name: so many variables, mutexes and nodes, and the points of its task, from first on and below last.
#[derive(Clone, Copy, Debug, PartialEq, Eq)]
pub struct Bounds {
    pub variables: usize,
    pub mutexes: usize,
    pub nodes: usize,
    pub first: usize,
    pub last: usize,
}

// Does nothing: its contract is every law of the crate and the worked examples, so that none of them can go unproved.
pub fn laws_hold()
    ensures laws { Laws }
    ensures starred { Starred }
{}
