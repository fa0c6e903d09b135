// The state that a run starts from.
ghost use Rattle.std.specs.Prelude.{◌≡◌, cond, ltb};
ghost use Rattle.words.specs.Tabulate.{tabulate};
ghost use Rattle.table.specs.Layout.{first_of, sizes_of};
ghost use Rattle.run.specs.State.{firsts_of, start_of};

use crate::State;
use std::array::from_fn;
use table::Table;
use table::layout::first_of;
use words::padded;

// The first point of task u, or 0 where there is no such task.
#[tactic(auto, using(crate::proofs::SlotLaws::first_fits))]
fn first_point(table: &Table, u: usize) -> u16
    ensures { result ≡ cond (ltb u (sizes_of table.now.words.now).tasks) (first_of table.now.words.now u) 0 }
{
    if u < table.sizes.tasks {
        first_of(table.words, u) as u16
    } else {
        0
    }
}

// The first points in eight slots.
#[tactic(auto, unfolding(crate::specs::State::firsts_of, words::specs::Tabulate::tabulate))]
fn first_points(table: &Table) -> [u16; 8]
    ensures { result ≡ firsts_of table.now.words.now }
{
    from_fn(|u| first_point(table, u))
}

// One value in the first n of N slots, and another in the rest.
fn first_filled<T: Copy, const N: usize>(n: usize, first: T, rest: T) -> [T; N]
    ensures { result ≡ tabulate (λ i. cond (ltb i n) first rest) N }
{
    from_fn(|i| if i < n { first } else { rest })
}

impl State {
    // Where a run of the table starts: at first points and starting values, all free.
    #[tactic(auto, unfolding(crate::specs::State::start_of, crate::specs::State::values_of, crate::specs::State::free_of))]
    pub(crate) fn start(table: &Table) -> Self
        ensures { result ≡ start_of table.now.words.now }
    {
        State {
            points: first_points(table),
            values: padded(table.starts),
            owners: first_filled(table.sizes.mutexes, -1, 0),
            stop_nodes: first_filled(table.sizes.tasks, -1, 0),
            stop_kinds: [0; 8],
        }
    }
}
