// The evaluation of arithmetic and of conditions from the variables' values and the schedule's words, from the position `at` on. The words of the nodes
// and the values are lent as arrays, which are handed on in registers; a slice has a length beside.
// The three functions at the end call each other, the node number falling.
ghost use Rattle.std.specs.Prelude.{◌≡◌, ℕ, ◌<◌, ltb, pos, length};
ghost use Rattle.interval.specs.Integer.{eq_z};
ghost use Rattle.interval.specs.Compare.{test as test_of};
ghost use Rattle.words.specs.Words.{word_of};
ghost use Rattle.table.specs.Tree.{arith_at, cond_at};
ghost use Rattle.table.specs.Meaning.{gives, fit as fit_of, perform_by, perform as perform_of, input_by, result as result_of, truth};
ghost use Rattle.run.specs.Codes.{evaluation_of, kind_pair};

use crate::stop::Stop;
use interval::integer::{minus, negative, over, plus, rem, times};
use interval::{Comparison, Operation};
use table::decode::{both_below, comparison_of, node_at, operation_of};
use words::word;

// ---- one node

// The exact result z of the node n where it is a word, else an overflow.
#[tactic(auto, using(interval::proofs::Machine::read_back), unfolding(crate::specs::Codes::evaluation_of, table::specs::Meaning::fit, table::specs::Meaning::fit_by))]
fn fit(n: usize, z: i64) -> Result<i32, Stop>
    requires { n < 1024 }
    ensures { (p : ℕ) → evaluation_of result p ≡ fit_of n z p }
{
    if (-2147483648 <= z) & (z <= 2147483647) {
        Ok(z as i32)
    } else {
        Err(Stop::overflow(n))
    }
}

// The exact result z of a division by b at the node n, or the error that b is 0.
#[tactic(auto, unfolding(crate::specs::Codes::evaluation_of, table::specs::Meaning::perform_by, interval::specs::Integer::eq_z))]
fn divide(n: usize, b: i32, z: i64) -> Result<i32, Stop>
    requires { n < 1024 }
    ensures { (p : ℕ) → evaluation_of result p ≡ perform_by (eq_z b (pos 0)) n z p }
{
    if b == 0 {
        Err(Stop::zero_divisor(n))
    } else {
        fit(n, z)
    }
}

#[tactic(auto, unfolding(table::specs::Meaning::perform, table::specs::Meaning::perform_by))]
fn perform(n: usize, operation: Operation, a: i32, b: i32) -> Result<i32, Stop>
    requires { n < 1024 }
    ensures { (p : ℕ) → evaluation_of result p ≡ perform_of n operation a b p }
{
    match operation {
        Operation::Sum => fit(n, plus(a, b)),
        Operation::Difference => fit(n, minus(a, b)),
        Operation::Product => fit(n, times(a, b)),
        Operation::Quotient => divide(n, b, over(a, b)),
        Operation::Remainder => divide(n, b, rem(a, b)),
    }
}

// The next word if it lies in a..b, else a; with no word left, a.
#[tactic(auto, unfolding(table::specs::Meaning::input_by, table::specs::Meaning::word_in))]
fn input(a: i32, b: i32, schedule: &[i32], at: &mut usize) -> i32
    ensures { gives result at.new ≡ input_by (ltb at.old (length schedule.now)) a b (word_of schedule.now at.old) at.old }
{
    let p = *at;
    if schedule.len() <= p {
        return a;
    }
    *at = p + 1;
    let w = schedule[p];
    if (a <= w) & (w <= b) { w } else { a }
}

#[tactic(auto, unfolding(interval::specs::Integer::eq_z))]
fn test(comparison: Comparison, a: i32, b: i32) -> bool
    ensures { result ≡ test_of comparison a b }
{
    match comparison {
        Comparison::Less => a < b,
        Comparison::AtMost => a <= b,
        Comparison::Equal => a == b,
        Comparison::NotEqual => a != b,
    }
}

// Both, or either.
#[tactic(auto, unfolding(crate::specs::Codes::kind_pair))]
fn pair(k: usize, x: bool, y: bool) -> bool
    ensures { result ≡ kind_pair k x y }
{
    if k == 20 { x & y } else { x | y }
}

// ---- the trees

// What the arithmetic node n comes to, below another node. Constants and variables, the most frequent ones, are read without a call.
#[cycle(trees)]
#[tactic(auto, using(crate::proofs::NodeLaws::node_results, interval::proofs::Machine::read_back), unfolding(crate::specs::Codes::evaluation_of, table::specs::Meaning::followed_by, table::specs::Meaning::branch))]
fn operand(
    nodes: &[i32; 4096],
    n: usize,
    values: &[i32; 16],
    schedule: &[i32],
    at: &mut usize,
) -> Result<i32, Stop>
    requires { n < 1024 }
    ensures { evaluation_of result at.new ≡ result_of (arith_at nodes.now n) values.now schedule.now at.old }
{
    let f = node_at(nodes, n);
    match f.kind {
        0 => Ok(f.x),
        2 => Ok(word(values, f.a)),
        _ => value(nodes, n, values, schedule, at),
    }
}

// What the arithmetic node n comes to. A step calls this function and not `operand`: with two callers it isn't inlined into `operand`, which stays
// small enough to be inlined itself.
#[cycle(trees)]
#[tactic(auto, using(crate::proofs::NodeLaws::node_results, interval::proofs::Machine::read_back), unfolding(crate::specs::Codes::evaluation_of, table::specs::Meaning::followed_by, table::specs::Meaning::branch))]
pub(crate) fn value(
    nodes: &[i32; 4096],
    n: usize,
    values: &[i32; 16],
    schedule: &[i32],
    at: &mut usize,
) -> Result<i32, Stop>
    requires { n < 1024 }
    ensures { evaluation_of result at.new ≡ result_of (arith_at nodes.now n) values.now schedule.now at.old }
{
    let f = node_at(nodes, n);
    match f.kind {
        0 => Ok(f.x),
        1 => Ok(input(f.x, f.y, schedule, at)),
        2 => Ok(word(values, f.a)),
        3 if f.a < n => {
            let x = operand(nodes, f.a, values, schedule, at)?;
            fit(n, negative(x))
        }
        4..=7 | 9 if both_below(n, f.a, f.b) => {
            let x = operand(nodes, f.a, values, schedule, at)?;
            let y = operand(nodes, f.b, values, schedule, at)?;
            perform(n, operation_of(f.kind), x, y)
        }
        8 if (f.a < n) & both_below(n, f.b, f.c) => {
            let t = verity(nodes, f.a, values, schedule, at)?;
            operand(nodes, if t { f.b } else { f.c }, values, schedule, at)
        }
        _ => Ok(0),
    }
}

// What the condition node n comes to.
#[cycle(trees)]
#[tactic(auto, using(crate::proofs::NodeLaws::node_results, interval::proofs::Machine::read_back), unfolding(crate::specs::Codes::evaluation_of, table::specs::Meaning::followed_by, table::specs::Meaning::branch))]
pub(crate) fn verity(
    nodes: &[i32; 4096],
    n: usize,
    values: &[i32; 16],
    schedule: &[i32],
    at: &mut usize,
) -> Result<bool, Stop>
    requires { n < 1024 }
    ensures { evaluation_of result at.new ≡ truth (cond_at nodes.now n) values.now schedule.now at.old }
{
    let f = node_at(nodes, n);
    match f.kind {
        16..=19 if both_below(n, f.a, f.b) => {
            let x = operand(nodes, f.a, values, schedule, at)?;
            let y = operand(nodes, f.b, values, schedule, at)?;
            Ok(test(comparison_of(f.kind), x, y))
        }
        20..=21 if both_below(n, f.a, f.b) => {
            let x = verity(nodes, f.a, values, schedule, at)?;
            let y = verity(nodes, f.b, values, schedule, at)?;
            Ok(pair(f.kind, x, y))
        }
        22 if f.a < n => {
            let x = verity(nodes, f.a, values, schedule, at)?;
            Ok(!x)
        }
        _ => Ok(false),
    }
}
