// A list of codes, each in its turn.
ghost use Rattle.std.specs.Prelude.{◌≡◌};
ghost use Rattle.program.specs.Program.{Prog};
ghost use Rattle.px86.specs.Step.{step as step_of};
ghost use Rattle.px86.specs.Apart.{longest};
ghost use Rattle.px86.specs.Apart.Longest.{up_to};
ghost use Rattle.listing.specs.Listing.{Lists};
ghost use Rattle.state.specs.State.{machine_of};
ghost use Rattle.machine.specs.Ready.{Ready};

use crate::registers::loaded;
use crate::turn::take_turn;
use state::State;

/// How far a list of codes leads.
#[derive(Clone, Copy)]
pub struct Followed {
    /// How many codes were taken: as many as there are, or those before the first that is not allowed.
    pub length: usize,
    /// The registers after them.
    pub registers: [[u8; 4]; 4],
}

/// Takes the codes of a list, each in its turn, up to the first that is not allowed. The state is the one after those that were taken.
pub fn follow(list: &[u32; 36], regs: [[u8; 4]; 4], s: &mut State, codes: &[u8]) -> Followed
    requires { Ready list.now s.old }
    ensures longest { (p : Prog) → Lists list.now p
        → longest (step_of p) 0 (machine_of s.old regs) codes.now
        ≡ up_to result.length (machine_of s.new result.registers) }
    ensures ready { Ready list.now s.new }
{
    let mut registers = regs;
    for (length, c) in codes.iter().enumerate() {
        match take_turn(list, registers, s, *c) {
            Some(load) => {
                let after = loaded(registers, load);
                registers = after;
            }
            None => return Followed { length, registers },
        }
    }
    Followed {
        length: codes.len(),
        registers,
    }
}
