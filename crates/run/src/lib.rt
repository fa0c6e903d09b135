// The run of a table by a schedule: its state, one step, and the whole.
#![tactic(auto)]

ghost use Rattle.run.specs.Laws.{Laws};

mod evaluate;
pub mod play;
mod program;
mod start;
mod step;
mod stop;

// Document 01's numbers: each task's point, each variable, each mutex's owner or -1, each task's stop node or -1 and stop kind or 0. Slots past
// the sizes are 0. A step copies the state, so its slots are narrow: of a table that passed refusals 1 to 6 a point is below 256, an owner below 8,
// a stop node below 1024 and a stop kind below 3.
#[derive(Clone, Copy, Debug, PartialEq, Eq)]
pub struct State {
    pub points: [u16; 8],
    pub values: [i32; 16],
    pub owners: [i8; 8],
    pub stop_nodes: [i16; 8],
    pub stop_kinds: [u8; 8],
}

// A state, and the position in the schedule.
#[derive(Clone, Copy, Debug, PartialEq, Eq)]
pub struct Stepped {
    pub state: State,
    pub at: usize,
}

// Does nothing: its contract is every law of the crate, so that none of them can go unproved.
pub fn laws_hold()
    ensures { Laws }
{}
