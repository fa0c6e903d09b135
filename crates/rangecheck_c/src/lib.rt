// The check, the run and the proposer for C and Rust to link: thin functions over `checker::check::check`, `run::play::run` and
// `iterator::propose::propose`.
#![tactic(auto)]

ghost use Rattle.std.specs.Prelude.{◌≡◌, length};
ghost use Rattle.words.specs.Stages.{stage_numbers, stage_of, buffer_by};
ghost use Rattle.checker.specs.Check.{check_numbers, verdict_numbers, buffer_of};
ghost use Rattle.proposer.specs.Propose.{propose_of, buffer_of as proposal_of};
ghost use Rattle.rangecheck_c.specs.Answer.{answer_of, ran_stage, proposed_by};
ghost use Rattle.rangecheck_c.specs.Slots.{laid_of, slots_by, slice_of};

use crate::slots::lay;
use checker::check::check;
use iterator::propose::propose;
use proposer::Proposed;
use run::State;
use run::play::run;
use words::{Refusal, Rule, refuse};

mod slots;

// Document 01's numbers: the number of the refusal or 0, its place, and the count of alarms; 0 for what isn't given.
#[repr(C)]
#[derive(Clone, Copy, Debug, PartialEq, Eq)]
pub struct RangecheckAnswer {
    pub number: u32,
    pub place: u64,
    pub count: u64,
}

// The number of the refusal or 0, its place, the words that were written and the passes that were made; 0 for what isn't given.
#[repr(C)]
#[derive(Clone, Copy, Debug, PartialEq, Eq)]
pub struct RangecheckProposed {
    pub number: u32,
    pub place: u64,
    pub words: u64,
    pub passes: u64,
}

impl From<Result<usize, Refusal>> for RangecheckAnswer {
    ghost from_gives = { λ answer r. r ≡ answer_of (verdict_numbers answer) };

    #[tactic(auto, unfolding(checker::specs::Check::verdict_numbers))]
    fn from(answer: Result<usize, Refusal>) -> RangecheckAnswer {
        match answer {
            Ok(count) => RangecheckAnswer {
                number: 0,
                place: 0,
                count: count as u64,
            },
            Err(refusal) => RangecheckAnswer {
                number: refusal.rule.number(),
                place: refusal.place as u64,
                count: 0,
            },
        }
    }
}

impl From<Result<Proposed, Refusal>> for RangecheckProposed {
    ghost from_gives = { λ answer r. r ≡ proposed_by answer };

    #[tactic(auto, unfolding(words::specs::Stages::numbers_by, words::specs::Stages::stage_of, proposer::specs::Propose::given_by))]
    fn from(answer: Result<Proposed, Refusal>) -> RangecheckProposed {
        match answer {
            Ok(made) => RangecheckProposed {
                number: 0,
                place: 0,
                words: made.words as u64,
                passes: made.passes as u64,
            },
            Err(refused) => RangecheckProposed {
                number: refused.rule.number(),
                place: refused.place as u64,
                words: 0,
                passes: 0,
            },
        }
    }
}

// The check. The alarms stand in pairs at the buffer's front; a refusal leaves the buffer as it came.
#[unsafe(no_mangle)]
pub extern "C" fn rangecheck_check(
    table: &[i32],
    proposal: &[i32],
    alarms: &mut [i32],
) -> RangecheckAnswer
    ensures value { result ≡ answer_of (check_numbers table.now proposal.now (length alarms.old)) }
    ensures alarms_after { alarms.new ≡ buffer_of table.now proposal.now alarms.old }
{
    check(table, proposal, alarms).into()
}

// The last state as 48 words at the answer's front, or the refusal of the run, or of an answer that is shorter.
#[tactic(auto, using(crate::proofs::SlotLaws::slots_count), unfolding(crate::specs::Slots::laid_of, crate::specs::Answer::short_stage, checker::specs::Check::verdict_by, run::specs::Run::state_by, words::specs::Stages::stage_of, words::specs::Stages::and_then, words::specs::Stages::refuse, words::specs::Stages::buffer_by, words::specs::First::unless))]
fn laid(played: Result<State, Refusal>, answer: &mut [i64]) -> Result<usize, Refusal>
    ensures value { result ≡ laid_of played (length answer.old) }
    ensures answer_after { answer.new ≡ buffer_by (stage_of (laid_of played (length answer.old))) (slots_by played) answer.old }
{
    let state = played?;
    refuse(Rule::Short, (answer.len() < 48).then_some(48))?;
    lay(&state, answer);
    Ok(0)
}

// The run. The last state stands in 48 words at the answer's front: 8 points, 16 values, 8 owners, 8 stop nodes, 8 stop kinds. A refusal leaves
// the answer as it came: one of the table's, or 31 at 48 for a slice that is shorter.
#[unsafe(no_mangle)]
#[tactic(auto, using(crate::proofs::AnswerLaws::laid))]
pub extern "C" fn rangecheck_run(
    table: &[i32],
    schedule: &[i32],
    answer: &mut [i64],
) -> RangecheckAnswer
    ensures value { result ≡ answer_of (stage_numbers (ran_stage table.now (length answer.old))) }
    ensures answer_after { answer.new ≡ slice_of table.now schedule.now answer.old }
{
    laid(run(table, schedule), answer).into()
}

// The proposer. The proposal stands at the buffer's front; a refusal leaves the buffer as it came: one of the table's, or 19, 20 or 18.
#[unsafe(no_mangle)]
pub extern "C" fn rangecheck_propose(
    table: &[i32],
    thresholds: &[i32],
    proposal: &mut [i32],
) -> RangecheckProposed
    ensures value { result ≡ proposed_by (propose_of table.now thresholds.now (length proposal.old)) }
    ensures proposal_after { proposal.new ≡ proposal_of table.now thresholds.now proposal.old }
{
    propose(table, thresholds, proposal).into()
}
