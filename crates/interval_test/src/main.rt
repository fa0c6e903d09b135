// Runs the interval library on a grid of ends, beside brute force over the grid values in the intervals, and counts where they differ.
#![tactic(auto)]

mod brute;
mod combine;
mod exact;
mod family;
mod hull;
mod out;
mod side;
mod tally;

use crate::out::Out;
use crate::tally::Tally;
use std::fmt::{self, Write};

// Writes a family's line, and gives the total with its cases.
fn report(name: &str, total: Tally, tally: Tally) -> Result<Tally, fmt::Error> {
    writeln!(Out, "{name} {tally}")?;
    Ok(total.and(tally))
}

// A line for each family of cases, and one for all of them.
fn reports() -> fmt::Result {
    let total = Tally::default();
    let total = report("negation", total, family::negation())?;
    let total = report("arithmetic", total, family::arithmetic())?;
    let total = report("comparisons", total, family::comparisons())?;
    let total = report("connectives", total, combine::connectives())?;
    let total = report("cuts", total, family::cuts())?;
    let total = report("lattice", total, family::lattice())?;
    writeln!(Out, "total {total}")
}

fn main() {
    let _ = reports();
}
