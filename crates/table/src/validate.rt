// Refusals 1 to 6, in document 01's order, each with its smallest place.
ghost use Rattle.std.specs.Prelude.{◌≡◌, ◌+◌, ◌<◌};
ghost use Rattle.words.specs.First.{first_bad};
ghost use Rattle.words.specs.Stages.{stage_numbers};
ghost use Rattle.table.specs.Layout.{sizes_of, points_of, nodes_of, first_of};
ghost use Rattle.table.specs.Uses.{node_refs, point_refs};
ghost use Rattle.table.specs.Validate.{size_ok_of, share_ok_of, rule4, rule5, parts_stage, validate_of, table_numbers};
ghost use Rattle.table.specs.Walk.{Walked, WalkedOn, Whole};

use crate::Bounds;
use crate::formed::{node_ok, point_ok};
use crate::layout::{first_of, length_for, node_words, point_words, shares, sizes};
use crate::uses::first_not_one;
use words::{Refusal, Rule, first_bad, number_at, refuse, word};

// The least and the greatest of each size: tasks, variables, mutexes, points, nodes.
const LIMITS: [(usize, usize); 5] = [(1, 8), (1, 16), (0, 8), (1, 256), (0, 1024)];

// Refusal 2 at a size.
fn size_ok(t: &[i32], k: usize) -> bool
    requires { k < 5 }
    ensures { result ≡ size_ok_of t.now k }
{
    let n = number_at(t, k);
    let (low, high) = LIMITS[k];
    (low..=high).contains(&n)
}

// Refusal 3 at a task.
fn share_ok(shares: &[i32], u: usize) -> bool
    ensures { result ≡ share_ok_of shares.now u }
{
    1 <= word(shares, u)
}

// Refusal 4: the first node that fails, or the counts after the uses of all.
fn first_node(t: &[i32], counts: &mut [u8; 1024]) -> Option<usize>
    ensures { Walked (rule4 t.now) (node_refs (nodes_of t.now)) (sizes_of t.now).nodes counts.old counts.new result }
{
    let s = sizes(t);
    let nodes = node_words(t);
    for n in 0..s.nodes {
        if !node_ok(s, nodes, n, counts) {
            return Some(n);
        }
    }
    None
}

// Refusal 5 at the points of the task u, which follow those that passed.
fn first_in_task(t: &[i32], u: usize, counts: &mut [u8; 1024]) -> Option<usize>
    requires whole { Whole t.now }
    requires sum { first_of t.now (sizes_of t.now).tasks ≡ (sizes_of t.now).points }
    requires task { u < (sizes_of t.now).tasks }
    ensures { WalkedOn (rule5 t.now) (point_refs (points_of t.now)) (first_of t.now u) (first_of t.now (u + 1)) counts.old counts.new result }
{
    let s = sizes(t);
    let nodes = node_words(t);
    let points = point_words(t);
    let first = first_of(t, u);
    let last = first_of(t, u + 1);
    let bounds = Bounds {
        variables: s.variables,
        mutexes: s.mutexes,
        nodes: s.nodes,
        first,
        last,
    };
    for p in first..last {
        if !point_ok(bounds, nodes, points, p, counts) {
            return Some(p);
        }
    }
    None
}

// Refusal 5, task by task.
fn first_point(t: &[i32], counts: &mut [u8; 1024]) -> Option<usize>
    requires whole { Whole t.now }
    requires sum { first_of t.now (sizes_of t.now).tasks ≡ (sizes_of t.now).points }
    ensures { Walked (rule5 t.now) (point_refs (points_of t.now)) (sizes_of t.now).points counts.old counts.new result }
{
    for u in 0..sizes(t).tasks {
        if let Some(p) = first_in_task(t, u, counts) {
            return Some(p);
        }
    }
    None
}

// Refusals 3 to 6 of a table whose sizes and length passed.
#[tactic(auto, unfolding(crate::specs::Validate::parts_stage, words::specs::Stages::refuse, words::specs::First::unless))]
fn parts(t: &[i32]) -> Result<(), Refusal>
    requires { Whole t.now }
    ensures { result ≡ parts_stage t.now }
{
    let s = sizes(t);
    let shares = shares(t);
    refuse(Rule::Share, first_bad(s.tasks, |u| share_ok(shares, u)))?;
    refuse(
        Rule::Share,
        (first_of(t, s.tasks) != s.points).then_some(s.tasks),
    )?;
    let mut counts = [0u8; 1024];
    refuse(Rule::Node, first_node(t, &mut counts))?;
    refuse(Rule::Point, first_point(t, &mut counts))?;
    refuse(Rule::Use, first_not_one(&counts, s.nodes))
}

// The first of refusals 1 to 6, or none.
#[tactic(auto, using(crate::proofs::PassLaws::sizes_passed), unfolding(crate::specs::Validate::sizes_stage, words::specs::Stages::refuse, words::specs::First::unless))]
pub fn validate(t: &[i32]) -> Result<(), Refusal>
    ensures value { result ≡ validate_of t.now }
    ensures result_value { stage_numbers result ≡ table_numbers t.now }
{
    let n = t.len();
    refuse(Rule::Length, (n < 5).then_some(n))?;
    refuse(Rule::Size, first_bad(5, |k| size_ok(t, k)))?;
    refuse(Rule::Length, (n != length_for(t)).then_some(n))?;
    parts(t)
}
