// An error that stops an evaluation.
ghost use Rattle.std.specs.Prelude.{◌≡◌, ◌+◌, ◌*◌, ◌/◌, ◌%◌, ◌<◌, pos};

// An error as one number: that of the kind k, 1 or 2, at the node n is 2 n + k - 1. A value or such a number is handed back in registers, where a node
// and a kind apart would go through memory.
#[derive(Clone, Copy, Debug, PartialEq, Eq)]
pub(crate) struct Stop {
    number: u32,
    ghost bound: { number < 2048 },
}

impl Stop {
    // An overflow at the node n.
    pub(crate) fn overflow(n: usize) -> Stop
        requires { n < 1024 }
        ensures { result.number ≡ 2 * n }
    {
        Stop {
            number: 2 * n as u32,
        }
    }

    // A division by 0 at the node n.
    pub(crate) fn zero_divisor(n: usize) -> Stop
        requires { n < 1024 }
        ensures { result.number ≡ 2 * n + 1 }
    {
        Stop {
            number: 2 * n as u32 + 1,
        }
    }

    // The node, as a stop node's slot has it.
    pub(crate) fn node(self) -> i16
        ensures { result ≡ pos (self.number / 2) }
    {
        (self.number / 2) as i16
    }

    // The kind: 1 for an overflow, 2 for a division by 0.
    pub(crate) fn kind(self) -> u8
        ensures { result ≡ 1 + self.number % 2 }
    {
        (1 + self.number % 2) as u8
    }
}
