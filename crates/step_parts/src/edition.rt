// Rules in which the two editions of the book differ: LEA, TRAP and JSRR R7 of machine/specs/Edition.antt. The access
// exception is in `protection`, xFFFC in `devices`. `second` is whether the rules are the second edition's.
ghost use Rattle.std.specs.Prelude.{◌≡◌, ℕ, List};
ghost use Rattle.machine.specs.Record.{whole};
ghost use Rattle.machine.specs.Edition.{edition_of, lea_plan, linked, trapped, jsrr_target};
ghost use Rattle.step_parts.specs.Delivery.{effect, no_output, after, delivered};

use crate::Obeyed;
use crate::access::put_in;
use crate::devices::unshown;
use crate::entry::raise;
use crate::memory::word_at;
use crate::words::{next, register};
use machine::{Control, Memory, Plan, Rule};

// LEA sets the codes in the second edition only.
pub fn lea_plan(second: bool, r: u8, address: u16, next: u16) -> Plan
    ensures { result ≡ lea_plan (edition_of second) r address next }
{
    if second {
        return Plan::Move(r, address, next);
    }
    Plan::Put(r, address, next)
}

// TRAP by the second edition: Next in R7, and PC from the vector word.
fn link(c: Control, regs: &mut [u16; 8], memory: &Memory, vector: u16) -> Control
    ensures { (clock : ℕ) → no_output (whole regs.new clock result) memory.now
        ≡ effect (linked vector (whole regs.old clock c) memory.now) }
{
    let target = word_at(memory, vector);
    put_in(c, regs, 7, next(c.pc), target)
}

// TRAP: by the third edition an entry, which pushes Next.
pub fn trap(
    second: bool,
    c: Control,
    regs: &mut [u16; 8],
    memory: &mut Memory,
    vector: u16,
) -> Obeyed
    ensures { (clock : ℕ) (output : List ℕ) → after result regs.new clock memory.new output
        ≡ delivered regs.old memory.old output
        (trapped (edition_of second) vector (whole regs.old clock c) memory.old) }
{
    if second {
        return unshown(link(c, regs, memory, vector), Rule::Instruction);
    }
    unshown(raise(c, regs, memory, vector, next(c.pc)), Rule::Trap)
}

// JSRR R7 continues at Next in the second edition.
pub fn jsrr_target(second: bool, regs: &[u16; 8], next: u16, base: u8) -> u16
    ensures { result ≡ jsrr_target (edition_of second) regs.now next base }
{
    if second {
        if base % 8 == 7 {
            return next;
        }
        return register(regs, base);
    }
    register(regs, base)
}
