// Text that is put together in fixed memory and written at once.
ghost use Rattle.std.specs.Prelude.{◌≡◌, [], ◌++◌, ◌+◌, ◌≤◌, length};
ghost use Rattle.rangecheck.specs.Text.{decimal_of};

use std::marker::Model;
use words::filled;

// A text of at most 72000 bytes, which stand at the front of the room. It is seen as the list of them.
#[derive(Drop)]
pub(crate) struct Text {
    room: [u8; 72000],
    len: usize,
}

impl Model for Text {
    ghost use Rattle.std.specs.Prelude.{List, ℕ, ◌≤◌, take};

    ghost Value = { List ℕ };

    ghost view = { λ t. take t.len t.room };

    ghost invariant = { λ t. t.len ≤ 72000 };
}

impl Text {
    pub(crate) fn new() -> Text
        ensures { result ≡ [] }
    {
        Text {
            room: filled(0),
            len: 0,
        }
    }

    pub(crate) fn bytes(&self) -> &[u8]
        ensures { result.now ≡ self.now }
    {
        &self.room[..self.len]
    }

    // Makes the bytes of s the whole text.
    pub(crate) fn set(&mut self, s: &[u8])
        requires { length s.now ≤ 72000 }
        ensures { self.new ≡ s.now }
    {
        self.len = 0;
        self.put(s);
    }

    // Puts the bytes of s behind the others.
    pub(crate) fn put(&mut self, s: &[u8])
        requires { length self.old + length s.now ≤ 72000 }
        ensures { self.new ≡ self.old ++ s.now }
    {
        let end = self.len + s.len();
        self.room[self.len..end].copy_from_slice(s);
        self.len = end;
    }

    // Puts a number's decimal digits, at most 20.
    #[tactic(auto, using(crate::proofs::TextLaws::decimal_text))]
    pub(crate) fn put_decimal(&mut self, n: u64)
        requires { length self.old + 20 ≤ 72000 }
        ensures text { self.new ≡ self.old ++ decimal_of n }
        ensures few { length self.new ≤ length self.old + 20 }
    {
        let mut digits = [0u8; 20];
        let k = io::decimal(n, &mut digits);
        self.put(&digits[..k]);
    }
}
