// The state that the passes start from.
ghost use Rattle.std.specs.Prelude.{◌≡◌};
ghost use Rattle.proposer.specs.Passes.{begins as begins_of, start_of};
ghost use Rattle.iterator.specs.Arrays.{blank_state, state_in};

use crate::places::{Entries, Rows, State};
use analysis::Ends;
use table::Table;
use table::layout::{first_of, task_of};
use words::filled;

// Whether the place k is a rest row, or a point at which its task starts.
#[tactic(auto, using(crate::proofs::StartLaws::first_begins))]
fn begins(t: &Table<'_>, k: usize) -> bool
    ensures { result ≡ begins_of t.now.words.now k }
{
    t.sizes.points <= k || first_of(t.words, task_of(t.words, k)) == k
}

// Nothing is there yet.
pub(crate) fn blank_state() -> State
    ensures { result ≡ blank_state }
{
    State {
        rows: Rows {
            at: filled(None),
            moved: false,
        },
        entries: Entries {
            at: filled(None),
            moved: false,
        },
    }
}

// First points and rest rows begin at the starting values; no entry is there yet. The state is made where it lies, since one that is handed back is copied.
#[tactic(auto, using(crate::proofs::TableLaws::sizes))]
pub(crate) fn begin(t: &Table<'_>, state: &mut State)
    requires { state.old ≡ blank_state }
    ensures { state_in t.now.words.now state.new ≡ start_of t.now.words.now }
{
    let start = Ends {
        lows: t.starts,
        highs: t.starts,
    }
    .own();
    for k in 0..t.sizes.points + t.sizes.mutexes {
        state.rows.at[k] = begins(t, k).then_some(start);
    }
}
