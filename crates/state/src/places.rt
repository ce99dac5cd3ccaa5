// Where the threads are in their instructions.
ghost use Rattle.std.specs.Prelude.{◌≡◌, ◌+◌, ◌<◌, ◌≤◌, get_or, set, replicate};
ghost use Rattle.names.specs.Names.{threads};
ghost use Rattle.tables.specs.Tables.{Below};
ghost use Rattle.program.specs.Program.{most_ops};

use crate::advance;
use names::Thread;
use std::marker::Model;

/// The place of each thread in its instructions, none behind the last that a thread can have. Contracts see the list of them.
#[derive(Clone, Copy)]
pub struct Places {
    each: [u8; 4],
}

impl Model for Places {
    ghost use Rattle.std.specs.Prelude.{ℕ, List};
    ghost use Rattle.tables.specs.Tables.{Below};
    ghost use Rattle.program.specs.Program.{most_ops};

    ghost Value = { List ℕ };

    ghost view = { λ p. p.each };

    ghost invariant = { λ p. Below most_ops p.each };

    ghost inverse = { λ ns. record { each = ns } };
}

impl Places {
    /// All threads are at their first instruction.
    pub fn start() -> Places
        ensures { result ≡ replicate threads 0 }
    {
        Places { each: [0; 4] }
    }

    /// The places, by thread.
    #[inline]
    pub fn all(&self) -> [u8; 4]
        ensures value { result ≡ self.now }
        ensures allowed { Below most_ops result }
    {
        let all = self.each;
        all
    }

    /// The place of t.
    #[inline]
    pub fn of(&self, t: Thread) -> u8
        requires there { t.0 < threads }
        ensures value { result ≡ get_or self.now t.0 0 }
        ensures allowed { result ≤ most_ops }
    {
        let at = t.0 as usize;
        self.each[at]
    }

    /// The place of t moves on by k.
    #[inline]
    pub fn advance(&mut self, t: Thread, k: u8)
        requires there { t.0 < threads }
        requires room { get_or self.old t.0 0 + k ≤ most_ops }
        ensures { self.new ≡ set self.old t.0 (get_or self.old t.0 0 + k) }
    {
        advance(&mut self.each, t, k);
    }
}
