// A point that is looked at, of a proposal that passed refusals 1 to 11: its held set, and its row where it lies.
ghost use Rattle.std.specs.Prelude.{◌≡◌, ◌<◌, ◌≤◌};
ghost use Rattle.table.specs.Layout.{sizes_of};
ghost use Rattle.analysis.specs.Rows.{seen};
ghost use Rattle.rules.specs.Proposal.{held_of, row_at};
ghost use Rattle.rules.specs.Ready.{Whole};

use crate::checked::Checked;
use analysis::Ends;

#[derive(Clone, Copy)]
pub(crate) struct Reached<'a> {
    pub(crate) all: &'a Checked<'a>,
    pub(crate) point: usize,
    pub(crate) held: usize,
    pub(crate) row: Ends<'a>,
    ghost there: { point < (sizes_of all.now.proposal.table.words.now).points },
    ghost held_word: { held ≡ held_of all.now.proposal.words.now point },
    ghost held_bound: { held ≤ 4294967295 },
    ghost own_row: { seen row ≡ row_at all.now.proposal.table.words.now all.now.proposal.words.now point },
    ghost whole: { Whole all.now.proposal.table.words.now row.lows.now row.highs.now },
}

impl<'a> Reached<'a> {
    // The point p, which has the held set s.
    pub(crate) fn at(all: &'a Checked<'a>, p: usize, s: usize) -> Reached<'a>
        requires p_bound { p < (sizes_of all.now.proposal.table.words.now).points }
        requires s_value { s ≡ held_of all.now.proposal.words.now p }
        requires s_bound { s ≤ 4294967295 }
        ensures all { result.all.now ≡ all.now }
        ensures point { result.point ≡ p }
    {
        Reached {
            all,
            point: p,
            held: s,
            row: all.row(p),
        }
    }
}
