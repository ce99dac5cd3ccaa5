// What may be done, by counts: of the buffers, or of the queues, it is only looked at how many entries each holds, whatever they are.
ghost use Rattle.std.specs.Prelude.{◌≡◌, List, ℕ, ◌<◌, get_or};
ghost use Rattle.names.specs.Names.{threads, locations};
ghost use Rattle.tables.specs.Tables.{Below};
ghost use Rattle.tables.proofs.Packed.{lengths};
ghost use Rattle.program.specs.Program.{Prog, most_ops};
ghost use Rattle.px86.specs.Machine.{Entry as PxEntry, Mark, queue};
ghost use Rattle.px86.specs.Step.{join, does, next, persists, fenced};
ghost use Rattle.listing.specs.Listing.{Lists};
ghost use Rattle.state.specs.State.{queues_of, File, machine_with};
ghost use Rattle.verdict.specs.Verdict.{allows, fenced_by, Judges, instruction};

use crate::reads::all_clear;
use crate::waits;
use listing::fetch;
use names::{Loc, Thread};
use program::Op;
use state::QueueTable;

/// Whether mf or a locked operation of t may be done, where the buffers hold so many entries: its own holds none, and no queue holds an fo of it.
pub fn is_fenced<'a>(queues: &'a QueueTable, counts: &'a [u8; 4], t: Thread) -> bool
    requires { t.0 < threads }
    ensures tests { result ≡ fenced_by counts.now (queues_of queues.now) t.0 }
    ensures value { (bs : List (List PxEntry)) (vs ns : List ℕ) (g : File) → lengths bs ≡ counts.now
        → result ≡ fenced (machine_with (queues_of queues.now) bs vs ns g) t.0 }
{
    counts[t.0 as usize] == 0 && all_clear(queues, t)
}

// Whether t may do the instruction o.
fn may_do<'a>(queues: &'a QueueTable, counts: &'a [u8; 4], t: Thread, o: Op) -> bool
    requires { t.0 < threads }
    ensures { (bs : List (List PxEntry)) → lengths bs ≡ counts.now
        → Judges (queues_of queues.now) bs (λ p m. does p join m t.0 o) result }
{
    !waits(o) || is_fenced(queues, counts, t)
}

/// Codes 64+l: whether the oldest entry of the queue of l may go, where the queues hold so many entries.
pub fn may_persist(counts: &[u8; 6], l: Loc) -> bool
    requires { l.0 < locations }
    ensures { (qs : List (List Mark)) (bs : List (List PxEntry)) → lengths qs ≡ counts.now
        → Judges qs bs (λ p m. persists m l.0 (queue m l.0)) result }
{
    0 < counts[l.0 as usize]
}

/// Codes 0 to 3: whether t may do its next instruction, where the buffers hold so many entries and the threads are at these places.
#[tactic(auto, unfolding(px86::specs::Step::next, px86::specs::Machine::moved))]
pub fn may_step<'a>(
    list: &'a [u32; 36],
    queues: &'a QueueTable,
    counts: &'a [u8; 4],
    places: &'a [u8; 4],
    t: Thread,
) -> bool
    requires there { t.0 < threads }
    requires allowed { Below most_ops places.now }
    ensures { (p : Prog) (bs : List (List PxEntry)) (vs : List ℕ) (g : File) → Lists list.now p → lengths bs ≡ counts.now
        → result ≡ allows (next p join (machine_with (queues_of queues.now) bs vs places.now g) t.0
        (instruction p t.0 (get_or places.now t.0 0))) }
{
    match fetch(list, t, places[t.0 as usize]) {
        Some(o) => may_do(queues, counts, t, o),
        None => false,
    }
}
