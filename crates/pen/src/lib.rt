// Text that is written into a lent buffer, piece behind piece. Relied on: a piece is put at the place behind the last, and no other byte changes;
// one piece behind another is both together (proofs/Pens.antt, `wrote_both`).
#![tactic(auto, using(crate::proofs::Pens::wrote_both, crate::proofs::Pens::wrote_first))]

pub mod pen;

ghost use Rattle.std.specs.Prelude.{◌≡◌, ◌≤◌, ◌∷◌, [], length};
ghost use Rattle.number.specs.Decimal.{decimal};
ghost use Rattle.pen.specs.Pen.{room, Wrote, number_line, behind_comma, commaed};

pub use crate::pen::Pen;

impl<'a> Pen<'a> {
    /// A pen at the front of a buffer.
    pub fn new(buf: &'a mut [u8]) -> Pen<'a>
        ensures front { result.at ≡ 0 }
        ensures buffer { result.buf.now ≡ buf.old }
        ensures same { result.buf.ghost_name ≡ buf.entry.ghost_name }
    {
        Pen { buf, at: 0 }
    }

    /// Writes a byte.
    pub fn byte(&mut self, b: u8)
        requires room { 1 ≤ room self.old }
        ensures { Wrote (b ∷ []) self.old self.new }
    {
        self.bytes(&[b]);
    }

    /// Writes a word.
    pub fn bytes(&mut self, word: &[u8])
        requires room { length word.now ≤ room self.old }
        ensures { Wrote word.now self.old self.new }
    {
        self.at = number::put_bytes(self.buf, self.at, word);
    }

    /// Writes a number in decimal, without leading zeros.
    pub fn number(&mut self, n: u32)
        requires room { length (decimal n) ≤ room self.old }
        ensures { Wrote (decimal n) self.old self.new }
    {
        self.at = number::put_number(self.buf, self.at, n);
    }

    /// Writes a line KEY=NUMBER with its line feed, where the key is "KEY=".
    pub fn number_line(&mut self, key: &[u8], n: u32)
        requires room { length (number_line key.now n) ≤ room self.old }
        ensures { Wrote (number_line key.now n) self.old self.new }
    {
        self.bytes(key);
        self.number(n);
        self.byte(b'\n');
    }

    /// Writes a comma and a number.
    pub fn value(&mut self, v: u32)
        requires room { length (behind_comma v) ≤ room self.old }
        ensures { Wrote (behind_comma v) self.old self.new }
    {
        self.byte(b',');
        self.number(v);
    }

    /// Writes numbers, each behind a comma.
    pub fn values(&mut self, vals: &[u8])
        requires room { length (commaed vals.now) ≤ room self.old }
        ensures { Wrote (commaed vals.now) self.old self.new }
    {
        for &v in vals {
            self.value(v as u32);
        }
    }
}
