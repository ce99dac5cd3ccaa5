// The first bytes of a text or of a line. Relied on: what is kept are the first 1,025 bytes of all that came, since it was last cleared.
ghost use Rattle.std.specs.Prelude.{◌≡◌, [], ◌∷◌, ◌++◌, ◌≤◌, length};
ghost use Rattle.script.specs.Script.{most_seen, seen};

use std::marker::Model;

/// What is kept of a text or of a line that comes byte by byte: its first 1,025 bytes, which tell that it has over 1,024. Contracts see those
/// bytes. Every byte behind them in the array is 0, so that what keeps equal bytes is equal, array and all.
#[derive(Clone, Copy)]
pub struct Kept {
    bytes: [u8; 1025],
    length: usize,
}

impl Model for Kept {
    ghost use Rattle.std.specs.Prelude.{List, ℕ, ◌≡◌, ◌≤◌, take};
    ghost use Rattle.tables.specs.Tables.{padded};
    ghost use Rattle.script.specs.Kept.{many, bytes-again, length-again};

    ghost Value = { List ℕ };

    ghost view = { λ k. take k.length k.bytes };

    ghost invariant = { λ k. (k.length ≤ 1025) × (k.bytes ≡ padded 1025 0 (take k.length k.bytes)) };

    ghost inverse = { λ l. record { bytes = padded 1025 0 l; length = many l } };

    ghost inverse_ok = { λ k h i. record {
      bytes = bytes-again 1025 k.bytes k.length h.0 h.1 i;
      length = length-again 1025 k.bytes k.length h.0 h.1 i;
    } };
}

impl Kept {
    /// Nothing is kept yet.
    pub fn new() -> Kept
        ensures { result ≡ [] }
    {
        Kept {
            bytes: [0; 1025],
            length: 0,
        }
    }

    /// What is kept of these bytes.
    pub fn of(bytes: &[u8]) -> Kept
        ensures { result ≡ seen bytes.now }
    {
        let mut kept = Kept::new();
        kept.append(bytes);
        kept
    }

    /// The bytes.
    pub fn as_slice(&self) -> &[u8]
        ensures { result.now ≡ self.now }
    {
        &self.bytes[..self.length]
    }

    /// One byte more is kept, if there is room.
    pub fn push(&mut self, c: u8)
        ensures { self.new ≡ seen (self.old ++ c ∷ []) }
    {
        if self.length < 1025 {
            self.bytes[self.length] = c;
            self.length += 1;
        }
    }

    /// More bytes are kept, as far as there is room.
    pub fn append(&mut self, more: &[u8])
        ensures { self.new ≡ seen (self.old ++ more.now) }
    {
        // a look at the field, so that it is known here that at most 1,025 bytes are kept
        let _ = &self.length;
        for &c in more {
            self.push(c);
        }
    }

    /// A line more is kept, with its line feed.
    pub fn keep(&mut self, line: &[u8])
        ensures { self.new ≡ seen (self.old ++ (line.now ++ 10 ∷ [])) }
    {
        self.append(line);
        self.push(b'\n');
    }

    /// Nothing is kept any more.
    pub fn clear(&mut self)
        ensures { self.new ≡ [] }
    {
        self.bytes[..self.length].fill(0);
        self.length = 0;
    }
}
