// What is read through all passes.
ghost use Rattle.iterator.specs.Plan.{Small, Planned};

use crate::plan::Plan;
use table::Table;

#[derive(Clone, Copy)]
pub(crate) struct Given<'a> {
    pub(crate) table: &'a Table<'a>,
    pub(crate) thresholds: &'a [i32],
    pub(crate) plan: &'a Plan,
    ghost small: { Small table.now.words.now table.now.sizes },
    ghost planned: { Planned table.now.words.now plan.now },
}
