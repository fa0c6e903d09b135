// Refusal 6: the uses of every node, as the walk for refusals 4 and 5 counts them.
ghost use Rattle.std.specs.Prelude.{◌≡◌};
ghost use Rattle.words.specs.First.{first_bad};
ghost use Rattle.table.specs.Uses.{bump_of, use_of, is_one_of};

use words::first_bad;

// One use more, up to two.
#[tactic(auto, unfolding(crate::specs::Uses::bump_of))]
fn bump(c: u8) -> u8
    ensures { result ≡ bump_of c }
{
    if c < 2 { c + 1 } else { c }
}

#[tactic(auto, unfolding(crate::specs::Uses::use_of))]
pub(crate) fn use_node(counts: &mut [u8], n: usize)
    ensures { counts.new ≡ use_of counts.old n }
{
    if n < counts.len() {
        counts[n] = bump(counts[n]);
    }
}

fn is_one(counts: &[u8], n: usize) -> bool
    ensures { result ≡ is_one_of counts.now n }
{
    counts.get(n).copied() == Some(1)
}

// The first of so many counts that isn't 1.
pub(crate) fn first_not_one(counts: &[u8; 1024], count: usize) -> Option<usize>
    ensures { result ≡ first_bad (is_one_of counts.now) count }
{
    first_bad(count, |n| is_one(counts, n))
}
