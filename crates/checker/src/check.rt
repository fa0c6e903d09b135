// The whole check.
ghost use Rattle.std.specs.Prelude.{◌≡◌, length};
ghost use Rattle.checker.specs.Check.{check_of, verdict_numbers, check_numbers, buffer_of};

use crate::list::{needed, write};
use rules::examine::examine;
use words::{Refusal, Rule, number_at, refuse};

// Accepted with the number of alarms, which stand in pairs at the buffer's front; or the first broken rule with its smallest place, and the buffer
// as it came.
#[tactic(auto, using(crate::proofs::CheckLaws::nodes_within, crate::proofs::CheckLaws::marked_words), unfolding(crate::specs::Check::check_of, crate::specs::Check::verdict_by, crate::specs::Check::verdict_numbers, crate::specs::Check::stages_of, crate::specs::Check::room_stage, crate::specs::Check::buffer_of, words::specs::Stages::refuse, words::specs::Stages::and_then, words::specs::Stages::numbers_by, words::specs::Stages::buffer_by, words::specs::First::unless))]
pub fn check(table: &[i32], proposal: &[i32], alarms: &mut [i32]) -> Result<usize, Refusal>
    ensures value { result ≡ check_of table.now proposal.now (length alarms.old) }
    ensures result_value { verdict_numbers result ≡ check_numbers table.now proposal.now (length alarms.old) }
    ensures alarms_after { alarms.new ≡ buffer_of table.now proposal.now alarms.old }
{
    let mut marks = [0u8; 2048];
    examine(table, proposal, &mut marks)?;
    let nodes = number_at(table, 4);
    let need = needed(&marks, nodes);
    refuse(Rule::Room, (alarms.len() < need).then_some(need))?;
    write(&marks, nodes, alarms);
    Ok(need / 2)
}
