// Marks of alarms: two for each node, one a kind.
ghost use Rattle.std.specs.Prelude.{◌≡◌};
ghost use Rattle.analysis.specs.Alarms.{kind_number, alarm_if, told_of, marked_of};

use crate::Kind;
use interval::{Computed, Interval};

impl Kind {
    pub fn number(self) -> usize
        ensures { result ≡ kind_number self }
    {
        self as usize
    }
}

// Marks the kind of the node n where it is told; a place past the marks is left out.
#[tactic(auto, unfolding(crate::specs::Alarms::alarm_if, crate::specs::Alarms::marked_of))]
fn mark_if(marks: &mut [u8], told: bool, n: usize, kind: Kind)
    ensures { marks.new ≡ marked_of marks.old (alarm_if told n (kind_number kind)) }
{
    if told & (n <= marks.len() / 2) {
        let place = 2 * n + (kind.number() - 1);
        if place < marks.len() {
            marks[place] = 1;
        }
    }
}

// Marks what the operation at the node n tells, and gives its interval.
#[tactic(auto, using(crate::proofs::AlarmLaws::marked_append), unfolding(crate::specs::Alarms::told_of))]
pub(crate) fn mark_told(marks: &mut [u8], n: usize, o: Computed) -> Option<Interval>
    ensures value { result ≡ o.range }
    ensures marks_after { marks.new ≡ marked_of marks.old (told_of n o) }
{
    mark_if(marks, o.overflow, n, Kind::Overflow);
    mark_if(marks, o.zero, n, Kind::Zero);
    o.range
}
