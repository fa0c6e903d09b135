// A tree on a row: -1 less the mode, the node, how many words the nodes are and how many variables there are; then the nodes' words, the low ends
// and the high ends. Mode 0 asks for the value of the node, 1 for its decision, 2 and 3 for the row narrowed by it, wanted false and true.
use crate::print::print_line;
use crate::read::{WORDS, read_words};
use analysis::evaluate::{sides, value_on};
use analysis::{Ends, Row};
use interval::{Decision, Interval};
use std::fmt::{self, Display};
use words::{filled, number_at, part, word};

// What is asked, by its mode.
#[derive(Clone, Copy)]
enum Asked {
    Value,
    Decision,
    Narrowed { wanted: bool },
}

impl Asked {
    fn of(mode: usize) -> Option<Asked> {
        match mode {
            0 => Some(Asked::Value),
            1 => Some(Asked::Decision),
            2 => Some(Asked::Narrowed { wanted: false }),
            3 => Some(Asked::Narrowed { wanted: true }),
            _ => None,
        }
    }
}

// What is said: a value or a decision with the marks of its alarms, or the ends of the first n variables of a row.
#[derive(Clone, Copy)]
enum Said<'a> {
    Value(Option<Interval>, &'a [u8]),
    Decision(Decision, &'a [u8]),
    Narrowed(Option<&'a Row>, usize),
}

impl Display for Said<'_> {
    fn fmt<W: fmt::Write>(&self, f: &mut fmt::Formatter<W>) -> fmt::Result {
        match *self {
            Said::Value(None, marks) => {
                write!(f, "value none")?;
                write_marks(f, marks)
            }
            Said::Value(Some(x), marks) => {
                write!(f, "value {} {}", x.low, x.high)?;
                write_marks(f, marks)
            }
            Said::Decision(d, marks) => {
                write!(f, "decision {} {}", u8::from(d.yes), u8::from(d.no))?;
                write_marks(f, marks)
            }
            Said::Narrowed(None, _) => write!(f, "row none"),
            Said::Narrowed(Some(row), n) => write_row(f, row, n),
        }
    }
}

// The marked alarms by node, then kind. There are two marks for each node.
fn write_marks<W: fmt::Write>(f: &mut fmt::Formatter<W>, marks: &[u8]) -> fmt::Result {
    for (i, mark) in marks.iter().enumerate() {
        if *mark == 1 {
            write!(f, " alarm {} {}", i / 2, i % 2 + 1)?;
        }
    }
    Ok(())
}

// The two ends of each of the first n variables.
fn write_row<W: fmt::Write>(f: &mut fmt::Formatter<W>, row: &Row, n: usize) -> fmt::Result {
    write!(f, "row")?;
    for v in 0..n {
        write!(f, " {} {}", word(&row.lows, v), word(&row.highs, v))?;
    }
    Ok(())
}

// What the node says of the row.
fn answer(asked: Asked, node: usize, nodes: &[i32], row: &Ends<'_>) {
    let mut marks: [u8; 2048] = filled(0);
    if let Asked::Value = asked {
        let value = value_on(nodes, node, row, &mut marks);
        return print_line(Said::Value(value, &marks));
    }
    let mut yes = Row::default();
    let mut no = Row::default();
    let split = sides(nodes, node, &row.own(), &mut marks, &mut yes, &mut no);
    let n = row.lows.len();
    print_line(match asked {
        Asked::Narrowed { wanted: true } => Said::Narrowed(split.yes.then_some(&yes), n),
        Asked::Narrowed { wanted: false } => Said::Narrowed(split.no.then_some(&no), n),
        _ => Said::Decision(split.decision, &marks),
    });
}

// Reads the nodes and the row of a case and prints its line, if they come whole.
pub(crate) fn respond(mode: usize, node: usize) -> Option<()> {
    let asked = Asked::of(mode)?;
    let mut sizes = [0i32; 2];
    read_words(&mut sizes, 2)?;
    let n = number_at(&sizes, 0);
    if 4096 < n {
        return None;
    }
    let v = number_at(&sizes, 1);
    if 16 < v {
        return None;
    }
    let mut words: [i32; WORDS] = filled(0);
    read_words(&mut words, n + 2 * v)?;
    let row = Ends {
        lows: part(&words, n, v),
        highs: part(&words, n + v, v),
    };
    answer(asked, node, part(&words, 0, n), &row);
    Some(())
}
