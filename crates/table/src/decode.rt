// What stands at a node and at a point.
ghost use Rattle.std.specs.Prelude.{◌≡◌, ◌&&◌, ltb};
ghost use Rattle.words.specs.Words.{number_of};
ghost use Rattle.table.specs.Layout.{four_of};
ghost use Rattle.table.specs.Formed.{kind_of};
ghost use Rattle.table.specs.Decode.{shape_by, shape_of, node_of, kind_operation, kind_comparison, point_by, point_of};

use crate::layout::four;
use crate::{Node, Point, Shape};
use interval::{Comparison, Operation};
use words::number;

// Whether both children are below their parent n.
pub fn both_below(n: usize, a: usize, b: usize) -> bool
    ensures { result ≡ ltb a n && ltb b n }
{
    a < n && b < n
}

// The operation of the kinds 4 to 7 and 9.
#[tactic(auto, unfolding(crate::specs::Decode::kind_operation))]
pub fn operation_of(k: usize) -> Operation
    ensures { result ≡ kind_operation k }
{
    match k {
        4 => Operation::Sum,
        5 => Operation::Difference,
        6 => Operation::Product,
        7 => Operation::Quotient,
        _ => Operation::Remainder,
    }
}

// The comparison of the kinds 16 to 19.
#[tactic(auto, unfolding(crate::specs::Decode::kind_comparison))]
pub fn comparison_of(k: usize) -> Comparison
    ensures { result ≡ kind_comparison k }
{
    match k {
        16 => Comparison::Less,
        17 => Comparison::AtMost,
        18 => Comparison::Equal,
        _ => Comparison::NotEqual,
    }
}

// The shape of the node n of the kind k, by its words x and y and the numbers of its fields.
#[tactic(auto, unfolding(crate::specs::Decode::shape_by, crate::specs::Decode::kept, crate::specs::Decode::kind_operation, crate::specs::Decode::kind_comparison))]
fn shape_by(n: usize, k: usize, x: i32, y: i32, a: usize, b: usize, c: usize) -> Shape
    ensures { result ≡ shape_by n k x y a b c }
{
    match k {
        0 => Shape::Constant(x),
        1 => Shape::Input(x, y),
        2 => Shape::Variable(a),
        3 if a < n => Shape::Negation(a),
        4..=7 | 9 if both_below(n, a, b) => Shape::Binary(operation_of(k), a, b),
        8 if a < n && both_below(n, b, c) => Shape::Choice(a, b, c),
        16..=19 if both_below(n, a, b) => Shape::Compare(comparison_of(k), a, b),
        20 if both_below(n, a, b) => Shape::Both(a, b),
        21 if both_below(n, a, b) => Shape::Either(a, b),
        22 if a < n => Shape::Not(a),
        _ => Shape::Bad,
    }
}

// The node n of a table's node words, whose kind and fields decide its shape.
#[tactic(auto, unfolding(crate::specs::Decode::node_from, crate::specs::Decode::shape_from))]
pub fn node_at(nodes: &[i32], n: usize) -> Node
    ensures value { result ≡ node_of nodes.now n }
    ensures n_value { shape_of nodes.now n ≡ shape_by n result.kind result.x result.y result.a result.b result.c }
{
    let f = four(nodes, n);
    Node {
        kind: number(f.kind),
        x: f.a,
        y: f.b,
        a: number(f.a),
        b: number(f.b),
        c: number(f.c),
    }
}

// The shape of the node n of a table's node words.
pub fn shape_at(nodes: &[i32], n: usize) -> Shape
    ensures { result ≡ shape_of nodes.now n }
{
    let f = node_at(nodes, n);
    shape_by(n, f.kind, f.x, f.y, f.a, f.b, f.c)
}

// The kind of the point n and the numbers of its three fields.
pub(crate) fn numbers_at(points: &[i32], n: usize) -> (usize, usize, usize, usize)
    ensures { result ≡ (kind_of points.now n, number_of (four_of points.now n).a, number_of (four_of points.now n).b, number_of (four_of points.now n).c) }
{
    let f = four(points, n);
    (number(f.kind), number(f.a), number(f.b), number(f.c))
}

#[tactic(auto, unfolding(crate::specs::Decode::point_by))]
fn point_by(k: usize, a: usize, b: usize, c: usize) -> Point
    ensures { result ≡ point_by k a b c }
{
    match k {
        1 => Point::Assign(a, b, c),
        2 => Point::Test(a, b, c),
        3 => Point::Lock(a, b),
        4 => Point::Unlock(a, b),
        _ => Point::End,
    }
}

// What stands at the point p of a table's point words.
#[tactic(auto, unfolding(crate::specs::Decode::point_from))]
pub fn point_at(points: &[i32], p: usize) -> Point
    ensures { result ≡ point_of points.now p }
{
    let (kind, a, b, c) = numbers_at(points, p);
    point_by(kind, a, b, c)
}
