// A table that passed refusals 1 to 6. Whoever has one need not ask again, and its parts are cut once.
ghost use Rattle.std.specs.Prelude.{◌≡◌, IfOk};
ghost use Rattle.words.specs.Stages.{passed, stage_of};
ghost use Rattle.table.specs.Cut.{Cut};
ghost use Rattle.table.specs.Validate.{validate_of};

use crate::Sizes;
use crate::layout::{node_words, point_words, shares, sizes, starts};
use crate::validate::validate;
use words::Refusal;

// The words of a table, its sizes, a point count for each task, a starting value for each variable, and four words for each point and each node.
#[derive(Clone, Copy)]
pub struct Table<'a> {
    pub words: &'a [i32],
    pub sizes: Sizes,
    pub shares: &'a [i32],
    pub starts: &'a [i32],
    pub points: &'a [i32],
    pub nodes: &'a [i32],
    ghost checked: { validate_of words.now ≡ passed },
    ghost cut: { Cut words.now sizes shares.now starts.now points.now nodes.now },
}

impl<'a> Table<'a> {
    // The table of these words, or the first of refusals 1 to 6.
    #[tactic(auto, unfolding(words::specs::Stages::stage_of))]
    pub fn read(words: &'a [i32]) -> Result<Table<'a>, Refusal>
        ensures stage { stage_of result ≡ validate_of words.now }
        ensures words { IfOk result (λ t. t.words.now ≡ words.now) }
    {
        validate(words)?;
        Ok(Table {
            words,
            sizes: sizes(words),
            shares: shares(words),
            starts: starts(words),
            points: point_words(words),
            nodes: node_words(words),
        })
    }
}
