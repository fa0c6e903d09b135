// A refusal: the first broken rule, and its smallest place.
ghost use Rattle.std.specs.Prelude.{◌≡◌};
ghost use Rattle.words.specs.Stages.{number_by, refuse, passed};

// The rules by the trade's words, with the numbers that callers in other languages get. A check names the first seventeen, a proposer
// the first six and the three behind the seventeen, a run the first six and, where its answer is lent as words, the last.
#[derive(Clone, Copy, Debug, PartialEq, Eq)]
pub enum Rule {
    Length = 1,
    Size = 2,
    Share = 3,
    Node = 4,
    Point = 5,
    Use = 6,
    Reach = 7,
    Match = 8,
    Range = 9,
    Order = 10,
    Start = 11,
    Locks = 12,
    Flow = 13,
    Write = 14,
    Disturb = 15,
    Rest = 16,
    Room = 17,
    Walks = 18,
    Rise = 19,
    Space = 20,
    Short = 31,
}

impl Rule {
    #[tactic(auto, unfolding(crate::specs::Stages::number_by))]
    pub fn number(self) -> u32
        ensures { result ≡ number_by self }
    {
        self as u32
    }
}

#[derive(Clone, Copy, Debug, PartialEq, Eq)]
pub struct Refusal {
    pub rule: Rule,
    pub place: usize,
}

// Refused at the place that was found, if one was.
#[tactic(auto, unfolding(crate::specs::Stages::refuse))]
pub fn refuse(rule: Rule, found: Option<usize>) -> Result<(), Refusal>
    ensures { result ≡ refuse rule found passed }
{
    match found {
        Some(place) => Err(Refusal { rule, place }),
        None => Ok(()),
    }
}
