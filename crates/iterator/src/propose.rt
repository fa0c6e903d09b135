// The whole call: refusals in order, and then the proposal.
ghost use Rattle.std.specs.Prelude.{◌≡◌, ◌++◌, ◌<◌, ◌≤◌, length, drop};
ghost use Rattle.words.specs.First.{first_bad};
ghost use Rattle.words.specs.Stages.{stage_of, stage_numbers};
ghost use Rattle.proposer.specs.Walk.{mark_count, walks_of};
ghost use Rattle.proposer.specs.Propose.{rule19, words_needed, made_for, proposed_of, propose_stage, propose_of, given_by, buffer_of};

use crate::given::Given;
use crate::plan::{blank_plan, plan_for};
use crate::start::{begin, blank_state};
use crate::walk::{joined, mark_count, walk};
use proposer::Proposed;
use table::Table;
use words::{Refusal, Rule, filled, first_bad, refuse};

// Whether the threshold i is above the one before, and among the first 32.
#[tactic(auto, unfolding(proposer::specs::Propose::rule19))]
fn rises(ts: &[i32], i: usize) -> bool
    requires { i < length ts.now }
    ensures { result ≡ rule19 ts.now i }
{
    if i == 0 {
        return true;
    }
    (i < 32) & (ts[i - 1] < ts[i])
}

// The first threshold that isn't.
fn falls(ts: &[i32]) -> Option<usize>
    ensures { result ≡ first_bad (rule19 ts.now) (length ts.now) }
{
    first_bad(ts.len(), |i| rises(ts, i))
}

// How many words a proposal with one entry a point has.
#[tactic(auto, using(crate::proofs::TableLaws::sizes, crate::proofs::TableLaws::intervals_few))]
fn words_needed(t: &Table<'_>) -> usize
    ensures { result ≡ words_needed t.now.words.now }
{
    let sizes = t.sizes;
    let rows = (sizes.points + sizes.mutexes) * sizes.variables;
    4 + sizes.points + 3 * sizes.points + 2 * (rows + sizes.points)
}

// The proposal of a table that no refusal is left for, by the marks of its walks. The words are written at the end.
#[tactic(auto, using(crate::proofs::TableLaws::small))]
fn made(t: &Table<'_>, ts: &[i32], marks: &[bool], out: &mut [i32]) -> Proposed
    requires ts_len_bound { length ts.now ≤ 32 }
    requires marks_len { length marks.now ≡ mark_count t.now.words.now }
    requires marks_value { marks.now ≡ walks_of t.now.words.now }
    requires in_bounds { words_needed t.now.words.now ≤ length out.old }
    ensures value { result ≡ record { words = length (proposed_of t.now.words.now ts.now); passes = (made_for t.now.words.now ts.now).passes } }
    ensures out_after { out.new ≡ proposed_of t.now.words.now ts.now ++ drop (length (proposed_of t.now.words.now ts.now)) out.old }
{
    let mut plan = blank_plan();
    plan_for(&mut plan, t, marks);
    let given = Given {
        table: t,
        thresholds: ts,
        plan: &plan,
    };
    let mut state = blank_state();
    begin(t, &mut state);
    let passes = given.passes(&mut state);
    let words = given.write(&state, out);
    Proposed { words, passes }
}

// A proposal of the table by passes over its points, with up to 32 strictly rising thresholds: its words stand at the buffer's front, and their number and
// that of the passes are given. After a refusal of the table, 19, 20 or 18 the buffer is as it came.
pub fn propose(table: &[i32], thresholds: &[i32], proposal: &mut [i32]) -> Result<Proposed, Refusal>
    ensures value { result ≡ propose_of table.now thresholds.now (length proposal.old) }
    ensures stage_value { stage_numbers (stage_of result) ≡ stage_numbers (propose_stage table.now thresholds.now (length proposal.old)) }
    ensures given { given_by result ≡ given_by (propose_of table.now thresholds.now (length proposal.old)) }
    ensures proposal_after { proposal.new ≡ buffer_of table.now thresholds.now proposal.old }
{
    let table = Table::read(table)?;
    refuse(Rule::Rise, falls(thresholds))?;
    let need = words_needed(&table);
    refuse(Rule::Space, (proposal.len() < need).then_some(need))?;
    let mut room = filled::<bool, 65536>(false);
    let marks = &mut room[..mark_count(&table)];
    walk(&table, marks);
    refuse(Rule::Walks, joined(&table, marks))?;
    Ok(made(&table, thresholds, marks, proposal))
}
