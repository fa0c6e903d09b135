// The first place at which a test fails, and a test that holds at every place.
ghost use Rattle.std.specs.Prelude.{◌≡◌, ℕ, Bool, ◌<◌, ◌≤◌};
ghost use Rattle.words.specs.First.{first_bad, first_bad_in, all_below};

// The places that a search goes over: from one on, and below another.
#[derive(Clone, Copy, Debug, PartialEq, Eq)]
pub struct Places {
    pub from: usize,
    pub to: usize,
}

// The first place below n at which the test fails.
pub fn first_bad<F: Fn(usize) -> bool>(n: usize, holds: F) -> Option<usize>
    requires { (k : ℕ) → k < n → F.pre holds k }
    ensures { (f : ℕ → Bool) → ((k : ℕ) (r : Bool) → k < n → F.post holds k r → r ≡ f k) → result ≡ first_bad f n }
{
    for k in 0..n {
        if !holds(k) {
            return Some(k);
        }
    }
    None
}

// The first of the places at which the test fails. There are none where they end before they begin.
pub fn first_bad_in<F: Fn(usize) -> bool>(places: Places, holds: F) -> Option<usize>
    requires { (k : ℕ) → places.from ≤ k → k < places.to → F.pre holds k }
    ensures { (f : ℕ → Bool) → ((k : ℕ) (r : Bool) → places.from ≤ k → k < places.to → F.post holds k r → r ≡ f k) → result ≡ first_bad_in f places }
{
    for k in places.from..places.to {
        if !holds(k) {
            return Some(k);
        }
    }
    None
}

// Whether the test holds at each place below n.
pub fn all_below<F: Fn(usize) -> bool>(n: usize, holds: F) -> bool
    requires { (k : ℕ) → k < n → F.pre holds k }
    ensures { (f : ℕ → Bool) → ((k : ℕ) (r : Bool) → k < n → F.post holds k r → r ≡ f k) → result ≡ all_below f n }
{
    for i in 0..n {
        if !holds(i) {
            return false;
        }
    }
    true
}
