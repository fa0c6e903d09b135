// A whole run.
ghost use Rattle.std.specs.Prelude.{◌≡◌};
ghost use Rattle.words.specs.Stages.{stage_of, stage_numbers};
ghost use Rattle.table.specs.Validate.{validate_of, table_numbers};
ghost use Rattle.run.specs.Run.{last_of, run_of, state_by, left_by};

use crate::State;
use crate::program::Program;
use table::Table;
use words::{Refusal, padded};

// The state after the whole schedule: the first step gets the starting state, each later one what the step before gave back. A step reads the program
// faster than the table, and goes on where it says: an evaluation may have read words of its own.
#[tactic(auto, using(crate::proofs::KeptLaws::kept_made, crate::proofs::RunLaws::reached))]
fn play(table: &Table, schedule: &[i32]) -> State
    ensures { result ≡ last_of table.now.words.now schedule.now }
{
    let nodes = padded(table.nodes);
    let points = padded(table.points);
    let program = Program {
        table,
        nodes: &nodes,
        points: &points,
    };
    let mut state = State::start(table);
    let mut at = 0;
    while at < schedule.len() {
        let next = state.step(at, &program, schedule);
        state = next.state;
        at = next.at;
    }
    state
}

// Plays the whole schedule and gives the last state, or the table's refusal.
#[tactic(auto, unfolding(crate::specs::Run::run_of, crate::specs::Run::played_by, crate::specs::Run::state_by, crate::specs::Run::left_by, words::specs::Stages::stage_of))]
pub fn run(table: &[i32], schedule: &[i32]) -> Result<State, Refusal>
    ensures value { result ≡ run_of table.now schedule.now }
    ensures stage_value { stage_numbers (stage_of result) ≡ table_numbers table.now }
    ensures state_value { state_by result ≡ left_by (validate_of table.now) (last_of table.now schedule.now) }
{
    let table = Table::read(table)?;
    Ok(play(&table, schedule))
}
