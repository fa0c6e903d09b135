// A state of a run as 48 words.
ghost use Rattle.std.specs.Prelude.{◌≡◌, ◌++◌, ◌<◌, ◌≤◌, length, drop};
ghost use Rattle.rangecheck_c.specs.Slots.{slot_of, slots_of};

use run::State;
use std::array::from_fn;

// Word i of a state.
#[tactic(auto, unfolding(crate::specs::Slots::slot_of))]
fn slot(s: &State, i: usize) -> i64
    requires { i < 48 }
    ensures { result ≡ slot_of s.now i }
{
    match i {
        0..=7 => i64::from(s.points[i]),
        8..=23 => i64::from(s.values[i - 8]),
        24..=31 => i64::from(s.owners[i - 24]),
        32..=39 => i64::from(s.stop_nodes[i - 32]),
        _ => i64::from(s.stop_kinds[i - 40]),
    }
}

// The words of a state.
fn slots(s: &State) -> [i64; 48]
    ensures { result ≡ slots_of s.now }
{
    from_fn(|i| slot(s, i))
}

// Writes the words of a state to the front of a slice that has room for them.
#[tactic(auto, using(crate::proofs::SlotLaws::slots_fill))]
pub(crate) fn lay(s: &State, out: &mut [i64])
    requires { 48 ≤ length out.old }
    ensures { out.new ≡ slots_of s.now ++ drop 48 out.old }
{
    out[..48].copy_from_slice(&slots(s));
}
