// A run: the lengths of a table and of a schedule, then their words. Its line is the table's refusal, or the last state as 48 numbers.
use crate::print::print_line;
use crate::read::{WORDS, read_words};
use run::State;
use run::play::run;
use std::fmt::{self, Display};
use words::{Refusal, filled, part};

// What a run gave.
#[derive(Clone, Copy)]
struct Played(Result<State, Refusal>);

impl Display for Played {
    fn fmt<W: fmt::Write>(&self, f: &mut fmt::Formatter<W>) -> fmt::Result {
        match &self.0 {
            Ok(state) => write_state(f, state),
            Err(refusal) => write!(f, "refused {} at {}", refusal.rule.number(), refusal.place),
        }
    }
}

// Points, values, owners, stop nodes, stop kinds.
fn write_state<W: fmt::Write>(f: &mut fmt::Formatter<W>, state: &State) -> fmt::Result {
    write!(f, "{}", state.points[0])?;
    write_more(f, &state.points[1..])?;
    write_more(f, &state.values)?;
    write_more(f, &state.owners)?;
    write_more(f, &state.stop_nodes)?;
    write_more(f, &state.stop_kinds)
}

// Numbers, each after a space.
fn write_more<W: fmt::Write, T: Display + Copy>(
    f: &mut fmt::Formatter<W>,
    numbers: &[T],
) -> fmt::Result {
    for n in numbers {
        write!(f, " {n}")?;
    }
    Ok(())
}

// Reads a table of n words and a schedule of m and prints their line, if they come whole.
pub(crate) fn respond(n: usize, m: usize) -> Option<()> {
    if 6000 < n {
        return None;
    }
    if 6000 < m {
        return None;
    }
    let mut words: [i32; WORDS] = filled(0);
    read_words(&mut words, n + m)?;
    print_line(Played(run(part(&words, 0, n), part(&words, n, m))));
    Some(())
}
