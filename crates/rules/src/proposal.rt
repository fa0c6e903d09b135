// A proposal that fits its table: refusals 7 and 8 passed, and its parts are cut once. A row is two lent slices, parts of the low ends and of the high ends.
#![tactic(auto, unfolding(crate::specs::Examine::layout_stage, crate::specs::Proposal::entries_of, crate::specs::Proposal::entry_high, crate::specs::Proposal::entry_low, crate::specs::Proposal::head_of, crate::specs::Proposal::heads_from, crate::specs::Proposal::held_of, crate::specs::Proposal::held_word_of, crate::specs::Proposal::intervals_of, crate::specs::Proposal::lows_from, crate::specs::Proposal::proposal_length, crate::specs::Proposal::row_at, words::specs::First::unless, words::specs::Stages::refuse, words::specs::Stages::stage_of))]

ghost use Rattle.std.specs.Prelude.{◌≡◌, not, ◌*◌, ◌<◌, ◌≤◌, eqb, length, IfOk};
ghost use Rattle.words.specs.Words.{word_of, number_of};
ghost use Rattle.words.specs.Stages.{passed, stage_of};
ghost use Rattle.interval.specs.Interval.{from_to};
ghost use Rattle.table.specs.Layout.{sizes_of};
ghost use Rattle.analysis.specs.Rows.{seen};
ghost use Rattle.rules.specs.Proposal.{rows_of, heads_from, lows_from, proposal_length, held_of, head_of, row_at, entry_low, entry_high};
ghost use Rattle.rules.specs.Parts.{Few, Parts};
ghost use Rattle.rules.specs.Examine.{whole_of, layout_stage};

use crate::Scope;
use crate::range::first_size;
use analysis::Ends;
use interval::Interval;
use table::Table;
use words::{Places, Refusal, Rule, number, number_at, part, refuse, word};

// The words of a proposal for a table, how many entries there are, their heads, three words each, the ends of all rows and entries, and those of the
// entries alone.
#[derive(Clone, Copy)]
pub(crate) struct Proposal<'a> {
    pub(crate) table: Table<'a>,
    pub(crate) words: &'a [i32],
    pub(crate) entries: usize,
    pub(crate) heads: &'a [i32],
    pub(crate) rows: Ends<'a>,
    pub(crate) spans: Ends<'a>,
    ghost sized: { layout_stage table.words.now words.now ≡ passed },
    ghost few: { Few table.sizes entries },
    ghost parts: { Parts table.words.now words.now entries heads.now rows.lows.now rows.highs.now spans.lows.now spans.highs.now },
}

// How many intervals the rows have.
fn row_intervals(table: &Table) -> usize
    ensures value { result ≡ rows_of table.now.words.now * (sizes_of table.now.words.now).variables }
    ensures upper_bound { result ≤ 4224 }
{
    let s = table.sizes;
    (s.points + s.mutexes) * s.variables
}

// The length that the sizes call for.
fn length_for(table: &Table, words: &[i32]) -> usize
    ensures { result ≡ proposal_length table.now.words.now words.now }
{
    let entries = number_at(words, 3);
    4 + table.sizes.points + 3 * entries + 2 * (row_intervals(table) + entries)
}

// 7 and 8.
fn layout(table: &Table, words: &[i32]) -> Result<(), Refusal>
    ensures { result ≡ layout_stage table.now.words.now words.now }
{
    let n = words.len();
    refuse(Rule::Reach, (n < 4).then_some(n))?;
    refuse(Rule::Match, first_size(table, words))?;
    refuse(Rule::Reach, (n != length_for(table, words)).then_some(n))
}

pub(crate) fn is_reached(held: usize) -> bool
    ensures { result ≡ not (eqb held 4294967295) }
{
    held != 4294967295
}

// The word at an index that is one.
pub(crate) fn word_at(ws: &[i32], i: usize) -> i32
    requires { i < length ws.now }
    ensures { result ≡ word_of ws.now i }
{
    ws[i]
}

// A word that isn't below 0, as a number.
pub(crate) fn natural(z: i32) -> usize
    requires { number_of z < 4294967295 }
    ensures { result ≡ number_of z }
{
    z as usize
}

fn places(from: usize, to: usize) -> Places
    ensures { result ≡ record { from = from; to = to } }
{
    Places { from, to }
}

impl<'a> Proposal<'a> {
    // The proposal of these words, or refusal 7 or 8.
    pub(crate) fn read(table: Table<'a>, words: &'a [i32]) -> Result<Proposal<'a>, Refusal>
        ensures stage { stage_of result ≡ layout_stage table.entry.words.now words.now }
        ensures words { IfOk result (λ p. (p.table ≡ table.entry) × (p.words.now ≡ words.now)) }
    {
        layout(&table, words)?;
        let entries = number_at(words, 3);
        let heads = 4 + table.sizes.points;
        let lows = heads + 3 * entries;
        let first = row_intervals(&table);
        let count = first + entries;
        let rows = Ends {
            lows: part(words, lows, count),
            highs: part(words, lows + count, count),
        };
        Ok(Proposal {
            table,
            words,
            entries,
            heads: part(words, heads, 3 * entries),
            rows,
            spans: Ends {
                lows: part(rows.lows, first, entries),
                highs: part(rows.highs, first, entries),
            },
        })
    }

    // Where the heads begin.
    pub(crate) fn heads_from(&self) -> usize
        ensures value { result ≡ heads_from self.now.table.words.now }
        ensures upper_bound { result ≤ 260 }
    {
        4 + self.table.sizes.points
    }

    // Where the low ends begin.
    pub(crate) fn lows_from(&self) -> usize
        ensures { result ≡ lows_from self.now.table.words.now self.now.words.now }
    {
        self.heads_from() + 3 * self.entries
    }

    // The held set of the point p, or 4294967295 where it is never reached.
    pub(crate) fn held(&self, p: usize) -> usize
        requires { p ≤ 4294967295 }
        ensures value { result ≡ held_of self.now.words.now p }
        ensures upper_bound { result ≤ 4294967295 }
    {
        number(word(self.words, 4 + p))
    }

    // The word k of the head of entry i: task, held set, variable.
    pub(crate) fn head(&self, i: usize, k: usize) -> usize
        requires { (i ≤ 4294967295) × (k ≤ 2) }
        ensures { result ≡ head_of self.now.table.words.now self.now.words.now i k }
    {
        number_at(self.heads, 3 * i + k)
    }

    // Row k: those of the points, then the rest rows.
    pub(crate) fn row(&self, k: usize) -> Ends<'a>
        requires { k ≤ 4294967295 }
        ensures { seen result ≡ row_at self.now.table.words.now self.now.words.now k }
    {
        let variables = self.table.sizes.variables;
        Ends {
            lows: part(self.rows.lows, k * variables, variables),
            highs: part(self.rows.highs, k * variables, variables),
        }
    }

    // The interval of entry i.
    pub(crate) fn span(&self, i: usize) -> Option<Interval>
        ensures { result ≡ from_to (entry_low self.now.table.words.now self.now.words.now i) (entry_high self.now.table.words.now self.now.words.now i) }
    {
        self.spans.range(i)
    }

    // The places of the whole table.
    pub(crate) fn whole(&self) -> Scope
        ensures { result ≡ whole_of self.now.table.words.now self.now.words.now }
    {
        let s = self.table.sizes;
        Scope {
            points: places(0, s.points),
            rests: places(s.points, s.points + s.mutexes),
            entries: places(s.points, s.points + self.entries),
        }
    }
}
