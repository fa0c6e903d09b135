// A proposal that passed refusals 1 to 11. Whoever has one need not ask again.
#![tactic(auto, unfolding(crate::specs::Examine::ready_of, crate::specs::Examine::start_stage, crate::specs::Examine::words_stage, words::specs::Stages::and_then, words::specs::Stages::refuse, words::specs::Stages::stage_of))]

ghost use Rattle.std.specs.Prelude.{◌≡◌, true, ◌<◌, IfOk};
ghost use Rattle.std.specs.Int.Signed.{le_z};
ghost use Rattle.words.specs.Stages.{passed, stage_of};
ghost use Rattle.table.specs.Layout.{sizes_of};
ghost use Rattle.analysis.specs.Rows.{seen};
ghost use Rattle.rules.specs.Proposal.{entries_of, rows_of, head_of, row_at, rest_at, entry_low, entry_high};
ghost use Rattle.rules.specs.Ready.{Whole};
ghost use Rattle.rules.specs.Examine.{whole_of, words_stage, start_stage, ready_of};

use crate::order::first_order;
use crate::proposal::{Proposal, natural, word_at};
use crate::range::first_word;
use crate::start::{first_start_point, first_start_rest};
use analysis::Ends;
use interval::Interval;
use table::Table;
use words::{Refusal, Rule, refuse};

#[derive(Clone, Copy)]
pub(crate) struct Checked<'a> {
    pub(crate) proposal: Proposal<'a>,
    ghost ready: { ready_of proposal.table.words.now proposal.words.now ≡ passed },
}

// 9 and 10.
fn words(p: &Proposal) -> Result<(), Refusal>
    ensures { result ≡ words_stage p.now.table.words.now p.now.words.now }
{
    refuse(Rule::Range, first_word(p))?;
    refuse(Rule::Order, first_order(p))
}

// 11.
fn start(p: &Proposal) -> Result<(), Refusal>
    ensures { result ≡ start_stage p.now.table.words.now p.now.words.now (whole_of p.now.table.words.now p.now.words.now) }
{
    refuse(Rule::Start, first_start_point(p))?;
    refuse(Rule::Start, first_start_rest(p, p.whole().rests))
}

impl<'a> Checked<'a> {
    // The proposal of these words for the table of these, or the first of refusals 1 to 11.
    pub(crate) fn read(t: &'a [i32], w: &'a [i32]) -> Result<Checked<'a>, Refusal>
        ensures stage { stage_of result ≡ ready_of t.now w.now }
        ensures words { IfOk result (λ c. (c.proposal.table.words.now ≡ t.now) × (c.proposal.words.now ≡ w.now)) }
    {
        let table = Table::read(t)?;
        let proposal = Proposal::read(table, w)?;
        words(&proposal)?;
        start(&proposal)?;
        Ok(Checked { proposal })
    }

    // Row k, whose ends are all there and in order.
    pub(crate) fn row(&self, k: usize) -> Ends<'a>
        requires { k < rows_of self.now.proposal.table.words.now }
        ensures value { seen result ≡ row_at self.now.proposal.table.words.now self.now.proposal.words.now k }
        ensures whole { Whole self.now.proposal.table.words.now result.lows.now result.highs.now }
    {
        self.proposal.row(k)
    }

    // The rest row of mutex m.
    pub(crate) fn rest(&self, m: usize) -> Ends<'a>
        requires { m < (sizes_of self.now.proposal.table.words.now).mutexes }
        ensures value { seen result ≡ rest_at self.now.proposal.table.words.now self.now.proposal.words.now m }
        ensures whole { Whole self.now.proposal.table.words.now result.lows.now result.highs.now }
    {
        self.row(self.proposal.table.sizes.points + m)
    }

    // The variable of entry i.
    pub(crate) fn variable(&self, i: usize) -> usize
        requires { i < entries_of self.now.proposal.words.now }
        ensures value { result ≡ head_of self.now.proposal.table.words.now self.now.proposal.words.now i 2 }
        ensures upper_bound { result < (sizes_of self.now.proposal.table.words.now).variables }
    {
        natural(word_at(self.proposal.heads, 3 * i + 2))
    }

    // The interval of entry i, whose ends are in order.
    pub(crate) fn span(&self, i: usize) -> Interval
        requires { i < entries_of self.now.proposal.words.now }
        ensures low { result.low ≡ entry_low self.now.proposal.table.words.now self.now.proposal.words.now i }
        ensures high { result.high ≡ entry_high self.now.proposal.table.words.now self.now.proposal.words.now i }
        ensures order { le_z result.low result.high ≡ true }
    {
        Interval {
            low: word_at(self.proposal.spans.lows, i),
            high: word_at(self.proposal.spans.highs, i),
        }
    }
}
