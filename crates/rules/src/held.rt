// Held sets as numbers: bit m says that mutex m is in the set.
ghost use Rattle.std.specs.Prelude.{◌≡◌, ◌<◌, ◌≤◌};
ghost use Rattle.rules.specs.Held.{has_of, with_of, without_of, disjoint_of};

// Whether mutex m is in the set s.
pub(crate) fn has(s: usize, m: usize) -> bool
    requires { m < 8 }
    ensures { result ≡ has_of s m }
{
    (s >> m) % 2 == 1
}

// The set s with m.
pub(crate) fn with(s: usize, m: usize) -> usize
    requires { (m < 8) × (s ≤ 4294967295) }
    ensures { result ≡ with_of s m }
{
    if has(s, m) { s } else { s + (1 << m) }
}

// The set s without m.
pub(crate) fn without(s: usize, m: usize) -> usize
    requires { m < 8 }
    ensures { result ≡ without_of s m }
{
    if has(s, m) { s - (1 << m) } else { s }
}

// Whether no mutex is in both: one mask of the eight that a table can have.
pub fn disjoint(s: usize, r: usize) -> bool
    ensures { result ≡ disjoint_of s r }
{
    (s % 256) & r == 0
}
