// The alarm list from the marks: a node and a kind for each mark, by node, then kind.
ghost use Rattle.std.specs.Prelude.{◌≡◌, ◌++◌, ◌+◌, ◌<◌, ◌≤◌, length, drop};
ghost use Rattle.std.proofs.lemmas.List.Edits.{sets};
ghost use Rattle.analysis.specs.Alarms.{kind_number};
ghost use Rattle.checker.specs.AlarmList.{pair_if, pairs_at, pairs_of, marked_at};

use analysis::Kind;

// Whether the kind of the node n is marked.
fn is_marked(marks: &[u8], n: usize, kind: Kind) -> bool
    requires { n < 1024 }
    ensures { result ≡ marked_at marks.now n (kind_number kind) }
{
    marks.get(2 * n + (kind.number() - 1)).copied() == Some(1)
}

// How many words a pair takes, where it is told.
#[tactic(auto, unfolding(crate::specs::AlarmList::pair_if))]
fn words_if(told: bool, n: usize, kind: Kind) -> usize
    ensures value { result ≡ length (pair_if told n (kind_number kind)) }
    ensures upper_bound { result ≤ 2 }
{
    if told { 2 } else { 0 }
}

// How many words the pairs of the nodes below a number take.
#[tactic(auto, using(crate::proofs::BufferLaws::no_words, crate::proofs::BufferLaws::words_more))]
pub(crate) fn needed(marks: &[u8], nodes: usize) -> usize
    requires { nodes ≤ 1024 }
    ensures { result ≡ length (pairs_of (marked_at marks.now) nodes) }
{
    let mut count = 0;
    for n in 0..nodes {
        count += words_if(is_marked(marks, n, Kind::Overflow), n, Kind::Overflow)
            + words_if(is_marked(marks, n, Kind::Zero), n, Kind::Zero);
    }
    count
}

// Stores a pair at a place, where it is told, and gives the next place.
#[tactic(auto, unfolding(crate::specs::AlarmList::pair_if))]
fn put_if(told: bool, n: usize, kind: Kind, out: &mut [i32], at: usize) -> usize
    requires n_bound { n < 1024 }
    requires kind_in_bounds { at + length (pair_if told n (kind_number kind)) ≤ length out.old }
    ensures value { result ≡ at + length (pair_if told n (kind_number kind)) }
    ensures out_after { out.new ≡ sets out.old at (pair_if told n (kind_number kind)) }
{
    if !told {
        return at;
    }
    out[at] = n as i32;
    out[at + 1] = kind.number() as i32;
    at + 2
}

// Stores the pairs of the node n.
#[tactic(auto, using(crate::proofs::BufferLaws::two_pairs, crate::proofs::BufferLaws::stores_append), unfolding(crate::specs::AlarmList::pairs_at))]
fn put_node(marks: &[u8], n: usize, out: &mut [i32], at: usize) -> usize
    requires n_bound { n < 1024 }
    requires n_in_bounds { at + length (pairs_at (marked_at marks.now) n) ≤ length out.old }
    ensures value { result ≡ at + length (pairs_at (marked_at marks.now) n) }
    ensures out_after { out.new ≡ sets out.old at (pairs_at (marked_at marks.now) n) }
{
    let next = put_if(
        is_marked(marks, n, Kind::Overflow),
        n,
        Kind::Overflow,
        out,
        at,
    );
    put_if(is_marked(marks, n, Kind::Zero), n, Kind::Zero, out, next)
}

// Stores the pairs of the nodes below a number at the front.
#[tactic(auto, using(crate::proofs::BufferLaws::no_words, crate::proofs::BufferLaws::front_none))]
pub(crate) fn write(marks: &[u8], nodes: usize, out: &mut [i32])
    requires nodes_bound { nodes ≤ 1024 }
    requires nodes_in_bounds { length (pairs_of (marked_at marks.now) nodes) ≤ length out.old }
    ensures { out.new ≡ pairs_of (marked_at marks.now) nodes ++ drop (length (pairs_of (marked_at marks.now) nodes)) out.old }
{
    let mut at = 0;
    for n in 0..nodes {
        at = put_node(marks, n, out, at);
    }
}
