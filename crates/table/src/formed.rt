// Refusals 4 and 5 at a place: an arm for each kind tests its fields, and counts the nodes that they name.
ghost use Rattle.std.specs.Prelude.{◌≡◌, ◌&&◌, List, [], ◌∷◌, ℕ, eqb, ltb, ℤ};
ghost use Rattle.table.specs.Layout.{sizes_of, nodes_of, points_of, task_of};
ghost use Rattle.table.specs.Formed.{kind_of};
ghost use Rattle.table.specs.Sort.{sort_holds};
ghost use Rattle.table.specs.Uses.{node_refs, point_refs};
ghost use Rattle.table.specs.Validate.{rule4, rule5};
ghost use Rattle.table.specs.Walk.{Counted, Bounded};

use crate::decode::{node_at, numbers_at};
use crate::layout::four;
use crate::uses::use_node;
use crate::{Bounds, Sizes};
use words::number;

// The kind of the node or point n.
pub fn kind_at(ws: &[i32], n: usize) -> usize
    ensures { result ≡ kind_of ws.now n }
{
    number(four(ws, n).kind)
}

// What a node has to be where another node or a point names it.
#[derive(Clone, Copy, Debug, PartialEq, Eq)]
enum Sort {
    Arithmetic,
    Condition,
}

impl Sort {
    fn holds(self, kind: usize) -> bool
        ensures { result ≡ sort_holds self kind }
    {
        match self {
            Sort::Arithmetic => matches!(kind, 0..=9),
            Sort::Condition => matches!(kind, 16..=22),
        }
    }
}

// Whether n is a node of the sort below a number; the use of a node below it is counted.
#[tactic(auto, unfolding(crate::specs::Uses::uses_in))]
fn uses(sort: Sort, nodes: &[i32], below: usize, n: usize, counts: &mut [u8; 1024]) -> bool
    ensures { Counted (ltb n below && sort_holds sort (kind_of nodes.now n)) (n ∷ []) counts.old counts.new result }
{
    if n < below {
        use_node(counts, n);
        sort.holds(kind_at(nodes, n))
    } else {
        false
    }
}

// Whether q is a point of the task.
fn is_target(b: Bounds, q: usize) -> bool
    ensures { (t : List ℤ) (p : ℕ) → Bounded t p b → result ≡ ltb q (sizes_of t).points && eqb (task_of t q) (task_of t p) }
{
    b.first <= q && q < b.last
}

// Refusal 4 at the node n of a table of these sizes. The operands of `&` are all evaluated, in the order of the fields.
#[tactic(auto, unfolding(crate::specs::Decode::node_from, crate::specs::Formed::node_fields_of, crate::specs::Formed::fits_of, crate::specs::Uses::ref_of, crate::specs::Uses::uses_in))]
pub(crate) fn node_ok(s: Sizes, nodes: &[i32], n: usize, counts: &mut [u8; 1024]) -> bool
    ensures { (t : List ℤ) → s ≡ sizes_of t → nodes.now ≡ nodes_of t → Counted (rule4 t n) (node_refs (nodes_of t) n) counts.old counts.new result }
{
    let f = node_at(nodes, n);
    match f.kind {
        0 => (f.b == 0) & (f.c == 0),
        1 => (f.x <= f.y) & (f.c == 0),
        2 => (f.a < s.variables) & ((f.b == 0) & (f.c == 0)),
        3 => uses(Sort::Arithmetic, nodes, n, f.a, counts) & ((f.b == 0) & (f.c == 0)),
        4..=7 | 9 | 16..=19 => uses(Sort::Arithmetic, nodes, n, f.a, counts)
            & (uses(Sort::Arithmetic, nodes, n, f.b, counts) & (f.c == 0)),
        8 => uses(Sort::Condition, nodes, n, f.a, counts)
            & (uses(Sort::Arithmetic, nodes, n, f.b, counts)
                & uses(Sort::Arithmetic, nodes, n, f.c, counts)),
        20..=21 => uses(Sort::Condition, nodes, n, f.a, counts)
            & (uses(Sort::Condition, nodes, n, f.b, counts) & (f.c == 0)),
        22 => uses(Sort::Condition, nodes, n, f.a, counts) & ((f.b == 0) & (f.c == 0)),
        _ => false,
    }
}

// Refusal 5 at the point p of the task that owns the points in the bounds.
#[tactic(auto, unfolding(crate::specs::Formed::point_fields_of, crate::specs::Formed::fits_of, crate::specs::Uses::ref_of, crate::specs::Uses::uses_in))]
pub(crate) fn point_ok(
    bounds: Bounds,
    nodes: &[i32],
    points: &[i32],
    p: usize,
    counts: &mut [u8; 1024],
) -> bool
    ensures { (t : List ℤ) → Bounded t p bounds → nodes.now ≡ nodes_of t → points.now ≡ points_of t → Counted (rule5 t p) (point_refs (points_of t) p) counts.old counts.new result }
{
    let (kind, a, b, c) = numbers_at(points, p);
    match kind {
        0 => (a == 0) & ((b == 0) & (c == 0)),
        1 => (a < bounds.variables)
            & (uses(Sort::Arithmetic, nodes, bounds.nodes, b, counts) & is_target(bounds, c)),
        2 => uses(Sort::Condition, nodes, bounds.nodes, a, counts)
            & (is_target(bounds, b) & is_target(bounds, c)),
        3..=4 => (a < bounds.mutexes) & (is_target(bounds, b) & (c == 0)),
        _ => false,
    }
}
