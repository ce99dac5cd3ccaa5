// A flat table of rows: one array of slots in which each row owns a stretch, and how many slots of it are in use. Contracts see the list of
// its rows. Relied on: its rows determine its bytes.
ghost use Rattle.std.specs.Prelude.{◌≡◌, ◌++◌, ◌∷◌, [], ◌+◌, ◌-◌, ◌*◌, ◌<◌, ◌≤◌, ◌==◌, length, get_or, set, replicate};
ghost use Rattle.std.specs.List.{list_any};
ghost use Rattle.tables.specs.Tables.{without, closed};
ghost use Rattle.state.specs.Flat.{Rows};

use std::marker::Model;

/// Rows of numbers: `ROWS` rows with room for `ROOM` numbers each, none of them above `MOST`. Each row owns `ROOM` of the slots, and holds its
/// numbers at the front of them, oldest first; every slot behind them is 0, so that equal rows are equal bytes. `SLOTS` is `ROWS * ROOM`.
#[derive(Clone, Copy)]
pub struct FlatTable<const SLOTS: usize, const ROWS: usize, const ROOM: usize, const MOST: u16> {
    slots: [u16; SLOTS],
    counts: [u8; ROWS],
}

impl<const SLOTS: usize, const ROWS: usize, const ROOM: usize, const MOST: u16> Model
    for FlatTable<SLOTS, ROWS, ROOM, MOST> {
    ghost use Rattle.std.specs.Prelude.{ℕ, List};
    ghost use Rattle.tables.specs.Tables.{rows, packed};
    ghost use Rattle.tables.proofs.Packed.{lengths};
    ghost use Rattle.state.specs.Flat.{Filled, packed-again, counts-again};

    ghost Value = { List (List ℕ) };

    ghost view = { λ t. rows ROOM t.slots t.counts };

    ghost invariant = { λ t. Filled ROWS ROOM MOST t.slots t.counts };

    ghost inverse = { λ rs. record { slots = packed ROOM 0 rs; counts = lengths rs } };

    ghost inverse_ok = { λ t h i. record {
      slots = packed-again ROWS ROOM MOST t.slots t.counts h i;
      counts = counts-again ROWS ROOM MOST t.slots t.counts h i;
    } };
}

impl<const SLOTS: usize, const ROWS: usize, const ROOM: usize, const MOST: u16> FlatTable<
    SLOTS,
    ROWS,
    ROOM,
    MOST,
> {
    /// A table of empty rows, made of its blank slots. There are fewer than 256 rows, and a row has fewer than 256 slots.
    pub fn of(slots: [u16; SLOTS]) -> Self
        requires blank { slots ≡ replicate (ROWS * ROOM) 0 }
        requires few { ROWS < 256 }
        requires narrow { ROOM < 256 }
        ensures { result ≡ replicate ROWS [] }
    {
        FlatTable {
            slots,
            counts: [0; ROWS],
        }
    }

    /// The numbers of row i, oldest first.
    #[inline]
    pub fn row(&self, i: u8) -> &[u16]
        requires there { i < ROWS }
        ensures value { result.now ≡ get_or self.now i [] }
        ensures rows { Rows ROWS ROOM MOST self.now }
    {
        let at = i as usize;
        let n = self.counts[at] as usize;
        let start = at * ROOM;
        let slots = &self.slots[..];
        &slots[start..start + n]
    }

    /// Whether some row holds the number x.
    #[inline]
    pub fn holds(&self, x: u16) -> bool
        ensures { result ≡ list_any (λ r. list_any (λ y. y == x) r) self.now }
    {
        let counts = &self.counts[..];
        let rows = counts.len() as u8;
        for i in 0..rows {
            // most rows are empty, and a count tells it at once
            if self.counts[i as usize] != 0 && self.row(i).contains(&x) {
                return true;
            }
        }
        false
    }

    /// The number x joins the end of row i, where there is room.
    #[inline]
    pub fn push(&mut self, i: u8, x: u16)
        requires there { i < ROWS }
        requires room { length (get_or self.old i []) < ROOM }
        requires allowed { x ≤ MOST }
        ensures row { self.new ≡ set self.old i (get_or self.old i [] ++ x ∷ []) }
        ensures rows { Rows ROWS ROOM MOST self.new }
    {
        let at = i as usize;
        let n = self.counts[at];
        self.slots[at * ROOM + (n as usize)] = x;
        self.counts[at] = n + 1;
    }

    /// The number at place k of row i leaves it: each younger one moves one slot down, within the one table, and the older ones stay.
    pub fn remove(&mut self, i: u8, k: u8)
        requires there { i < ROWS }
        requires held { k < length (get_or self.old i []) }
        ensures row { self.new ≡ set self.old i (without k (get_or self.old i [])) }
        ensures rows { Rows ROWS ROOM MOST self.new }
    {
        let at = i as usize;
        let n = self.counts[at];
        close(&mut self.slots[..], at * ROOM, k as usize, n as usize);
        self.counts[at] = n - 1;
    }
}

// The number at place k leaves the row of `count` numbers that begins at the slot `row`: each younger one moves one slot down, and the slot of the
// row's last is blank then.
// kept: a loop, where `copy_within` would do: the theorem `only-younger` speaks of each of its turns.
fn close(slots: &mut [u16], row: usize, k: usize, count: usize)
    requires held { k < count }
    requires there { row + count ≤ length slots.old }
    ensures { slots.new ≡ closed 0 slots.old (row + k) (count - 1 - k) }
{
    let from = row + k;
    let last = row + (count - 1);
    for a in from..last {
        slots[a] = slots[a + 1];
    }
    slots[last] = 0;
}
