// What a step reads of a table.
ghost use Rattle.std.specs.Prelude.{◌≡◌};
ghost use Rattle.table.specs.Layout.{points_of};
ghost use Rattle.table.specs.Decode.{point_of};
ghost use Rattle.run.specs.Kept.{Kept, Fits};

use table::decode::point_at;
use table::{Point, Table};

// A table, with the words of its nodes and points in arrays of fixed length, where a step finds them by their numbers alone. Behind the last node and the
// last point stand zeros, as a table reads them there.
#[derive(Clone, Copy)]
pub(crate) struct Program<'a> {
    pub(crate) table: &'a Table<'a>,
    pub(crate) nodes: &'a [i32; 4096],
    pub(crate) points: &'a [i32; 1024],
    ghost kept: { Kept table.now.words.now nodes.now points.now },
}

impl<'a> Program<'a> {
    // What stands at the point p.
    #[tactic(auto, using(crate::proofs::KeptLaws::kept, crate::proofs::SlotLaws::point_fits))]
    pub(crate) fn point(&self, p: usize) -> Point
        ensures value { result ≡ point_of (points_of self.now.table.now.words.now) p }
        ensures fits { Fits result }
    {
        let points = self.points;
        point_at(points, p)
    }
}
