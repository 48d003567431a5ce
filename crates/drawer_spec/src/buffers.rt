// Buffers: what is filled of them, and how it grows.
ghost use Rattle.std.specs.Prelude.{IsTrue, ◌↔◌, ◌≡◌, ◌+◌, ◌++◌, ◌≤◌, ◌<◌, [], ◌∷◌, length};
ghost use Rattle.drawer_spec.specs.Filled.{filled};
ghost use Rattle.drawer_spec.specs.Turns.{Roomy};

use crate::{Drawer, Filled};
use number::copy;

impl<const N: usize> Filled<N> {
    // Nothing is filled.
    pub fn new() -> Filled<N>
        ensures { filled result ≡ [] }
    {
        Filled {
            bytes: [0; N],
            used: 0,
        }
    }

    // What is filled.
    pub fn as_slice(&self) -> &[u8]
        ensures { result.now ≡ filled self.now }
    {
        &self.bytes[..self.used]
    }

    // Nothing stays filled.
    pub fn clear(&mut self)
        ensures { filled self.new ≡ [] }
    {
        self.used = 0;
    }

    // A byte more.
    pub fn push(&mut self, byte: u8)
        requires { self.old.used < N }
        ensures { filled self.new ≡ filled self.old ++ (byte ∷ []) }
    {
        self.bytes[self.used] = byte;
        self.used += 1;
    }

    // Bytes more.
    pub fn push_slice(&mut self, part: &[u8])
        requires { self.old.used + length part.now ≤ N }
        ensures { filled self.new ≡ filled self.old ++ part.now }
    {
        let bytes = &mut self.bytes[..];
        copy(part, bytes, self.used);
        self.used += part.len();
    }
}

impl<const N: usize> Drawer<N> {
    // Whether one more answer line has room in the output: 65,549 bytes.
    pub fn has_room(&self) -> bool
        ensures { IsTrue result ↔ Roomy self.now }
    {
        65549 <= N - self.output.used
    }
}
