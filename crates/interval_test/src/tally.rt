// How many cases were run, and how many of them were wrong.
use std::fmt;

#[derive(Clone, Copy, Default)]
pub struct Tally {
    pub cases: u64,
    pub wrong: u64,
}

impl Tally {
    // With one more case.
    pub(crate) fn count(self, right: bool) -> Tally {
        self.and(Tally {
            cases: 1,
            wrong: u64::from(!right),
        })
    }

    // With the cases of another. No run has so many that a sum is cut.
    pub(crate) fn and(self, other: Tally) -> Tally {
        Tally {
            cases: self.cases.saturating_add(other.cases),
            wrong: self.wrong.saturating_add(other.wrong),
        }
    }
}

impl fmt::Display for Tally {
    fn fmt<W: fmt::Write>(&self, f: &mut fmt::Formatter<W>) -> fmt::Result {
        write!(f, "{} cases, {} wrong", self.cases, self.wrong)
    }
}
