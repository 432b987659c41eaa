ghost use Rattle.std.specs.Prelude.{◌≡◌, ◌+◌, ◌<◌, ◌≤◌, List, [], ◌∷◌, ◌++◌, length};

use std::marker::Model;

// No report has more bytes.
pub(crate) const CAPACITY: usize = 4_096;

// A report as it is written, which contracts see as its bytes: the first `length` of these. No `ArrayVec`, since a number's digits are written
// from the last to the first, in place, and that lends only what it has.
#[derive(Drop)]
pub(crate) struct Report {
    pub(crate) bytes: [u8; CAPACITY],
    pub(crate) length: usize,
}

impl Model for Report {
    ghost use Rattle.std.specs.Prelude.{ℕ, ◌≤◌, List, take};
    ghost use Rattle.reports.specs.declared.buffer.TheConstants.{CAPACITY};

    ghost Value = { List ℕ };

    ghost view = { λ r. take r.length r.bytes };

    ghost invariant = { λ r. r.length ≤ CAPACITY };
}

impl Report {
    pub(crate) fn new() -> Report
        ensures { result ≡ [] }
    {
        Report {
            bytes: [0; CAPACITY],
            length: 0,
        }
    }

    pub(crate) fn as_slice(&self) -> &[u8]
        ensures bytes { result.now ≡ self.now }
        ensures fits { length result.now ≤ CAPACITY }
    {
        &self.bytes[..self.length]
    }

    // Each writer asks for room for what it writes: how much differs, so no type says it.
    pub(crate) fn push(&mut self, byte: u8)
        requires { length self.old < CAPACITY }
        ensures { self.new ≡ self.old ++ byte ∷ [] }
    {
        self.bytes[self.length] = byte;
        self.length += 1;
    }

    pub(crate) fn push_all(&mut self, bytes: &[u8])
        requires { length self.old + length bytes.now ≤ CAPACITY }
        ensures { self.new ≡ self.old ++ bytes.now }
    {
        let end = self.length + bytes.len();
        let free = &mut self.bytes[self.length..end];
        free.copy_from_slice(bytes);
        self.length = end;
    }
}
