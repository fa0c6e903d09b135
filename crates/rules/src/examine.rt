// Refusals 1 to 16 in document 01's order, each with its smallest place, and the marks of the alarms.
#![tactic(auto, unfolding(crate::specs::Examine::examined_of, crate::specs::Examine::marks_by, crate::specs::Examine::marks_of, crate::specs::Examine::outcome_stage, crate::specs::Examine::shared_stage, crate::specs::Points::faults_of, words::specs::Stages::and_then, words::specs::Stages::refuse, words::specs::Stages::stage_of))]

ghost use Rattle.std.specs.Prelude.{◌≡◌};
ghost use Rattle.words.specs.Stages.{stage_numbers};
ghost use Rattle.table.specs.Layout.{sizes_of};
ghost use Rattle.analysis.specs.Alarms.{marked_of};
ghost use Rattle.rules.specs.Alarms.{alarms_in};
ghost use Rattle.rules.specs.Examine.{whole_of, outcome_stage, shared_stage, examined_of, marks_of};

use crate::checked::Checked;
use crate::disturb::first_disturbed;
use crate::points::faults;
use crate::rest::{first_rest_entry, first_rest_point};
use words::{Refusal, Rule, refuse};

// 12, 13 and 14.
fn outcomes(all: &Checked, marks: &mut [u8]) -> Result<(), Refusal>
    ensures value { result ≡ outcome_stage all.now.proposal.table.words.now all.now.proposal.words.now (whole_of all.now.proposal.table.words.now all.now.proposal.words.now) }
    ensures marks_after { marks.new ≡ marked_of marks.old (alarms_in all.now.proposal.table.words.now all.now.proposal.words.now 0 (sizes_of all.now.proposal.table.words.now).points) }
{
    let found = faults(all, all.proposal.whole().points, marks);
    refuse(Rule::Locks, found.locks)?;
    refuse(Rule::Flow, found.flow)?;
    refuse(Rule::Write, found.write)
}

// 15 and 16.
fn shared(all: &Checked) -> Result<(), Refusal>
    ensures { result ≡ shared_stage all.now.proposal.table.words.now all.now.proposal.words.now (whole_of all.now.proposal.table.words.now all.now.proposal.words.now) }
{
    let scope = all.proposal.whole();
    refuse(Rule::Disturb, first_disturbed(all, scope.points))?;
    refuse(Rule::Rest, first_rest_point(all, scope.points))?;
    refuse(Rule::Rest, first_rest_entry(all, scope.entries))
}

// The first of refusals 1 to 16, or passed. Where 1 to 11 passed, the alarms of the reached points are marked.
pub fn examine(t: &[i32], w: &[i32], marks: &mut [u8]) -> Result<(), Refusal>
    ensures value { result ≡ examined_of t.now w.now }
    ensures result_value { stage_numbers result ≡ stage_numbers (examined_of t.now w.now) }
    ensures marks_after { marks.new ≡ marks_of t.now w.now marks.old }
{
    let all = Checked::read(t, w)?;
    outcomes(&all, marks)?;
    shared(&all)
}
