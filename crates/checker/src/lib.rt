// The check of a proposal against a table: refusals 1 to 17 in order, and the alarm list.
#![tactic(auto)]

pub mod check;
mod list;

ghost use Rattle.checker.specs.Laws.{Laws};
ghost use Rattle.checker.specs.Examples.{Starred};

// Does nothing: its contract is every law of the crate and the worked examples, so that none of them can go unproved.
pub fn laws_hold()
    ensures laws { Laws }
    ensures starred { Starred }
{}
