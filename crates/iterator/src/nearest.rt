// Where an end goes that must move: to the nearest threshold that covers it, or to the least or the greatest word.
ghost use Rattle.std.specs.Prelude.{◌≡◌, length};
ghost use Rattle.proposer.specs.Widen.{floor_of, ceil_of, low_to, high_to};

// The nearest threshold that isn't above z.
#[tactic(auto, unfolding(proposer::specs::Widen::floor_of))]
fn floor(ts: &[i32], z: i32) -> i32
    ensures { result ≡ floor_of ts.now (length ts.now) z }
{
    let mut nearest = i32::MIN;
    for &t in ts {
        if t <= z {
            nearest = nearest.max(t);
        }
    }
    nearest
}

// The nearest threshold that isn't below z.
#[tactic(auto, unfolding(proposer::specs::Widen::ceil_of))]
fn ceil(ts: &[i32], z: i32) -> i32
    ensures { result ≡ ceil_of ts.now (length ts.now) z }
{
    let mut nearest = i32::MAX;
    for &t in ts {
        if z <= t {
            nearest = nearest.min(t);
        }
    }
    nearest
}

// The low end that covers both.
#[tactic(auto, unfolding(proposer::specs::Widen::low_to))]
pub(crate) fn low_to(ts: &[i32], old: i32, new: i32) -> i32
    ensures { result ≡ low_to ts.now old new }
{
    if old <= new { old } else { floor(ts, new) }
}

// The high end that covers both.
#[tactic(auto, unfolding(proposer::specs::Widen::high_to))]
pub(crate) fn high_to(ts: &[i32], old: i32, new: i32) -> i32
    ensures { result ≡ high_to ts.now old new }
{
    if new <= old { old } else { ceil(ts, new) }
}
