// Refusals 12, 13 and 14: one walk over the points of a range settles all three and marks the alarms.
ghost use Rattle.std.specs.Prelude.{◌≡◌, ◌≤◌};
ghost use Rattle.table.specs.Layout.{sizes_of};
ghost use Rattle.analysis.specs.Alarms.{marked_of};
ghost use Rattle.rules.specs.Alarms.{alarms_in};
ghost use Rattle.rules.specs.Points.{fault_or, faults_of};

use crate::checked::Checked;
use crate::point::point_fits;
use crate::{Faults, Fits};
use words::Places;

// What was found before, and the place p where a test fails for the first time.
#[tactic(auto, unfolding(crate::specs::Points::fault_or, words::specs::First::or_else, words::specs::First::unless))]
fn fault_or(f: Faults, x: Fits, p: usize) -> Faults
    ensures { result ≡ fault_or f x p }
{
    Faults {
        locks: f.locks.or((!x.locks).then_some(p)),
        flow: f.flow.or((!x.flow).then_some(p)),
        write: f.write.or((!x.write).then_some(p)),
    }
}

pub(crate) fn faults(all: &Checked, r: Places, marks: &mut [u8]) -> Faults
    requires { (r.from ≤ r.to) × (r.to ≤ (sizes_of all.now.proposal.table.words.now).points) }
    ensures value { result ≡ faults_of all.now.proposal.table.words.now all.now.proposal.words.now r.from r.to }
    ensures marks_after { marks.new ≡ marked_of marks.old (alarms_in all.now.proposal.table.words.now all.now.proposal.words.now r.from r.to) }
{
    let mut found = Faults {
        locks: None,
        flow: None,
        write: None,
    };
    for p in r.from..r.to {
        let fits = point_fits(all, p, marks);
        found = fault_or(found, fits, p);
    }
    found
}
