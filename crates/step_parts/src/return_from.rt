// RTI: both words are popped before R6 changes.
ghost use Rattle.std.specs.Prelude.{◌≡◌, ℕ, List};
ghost use Rattle.machine.specs.Record.{whole};
ghost use Rattle.machine.specs.Return.{after_return, return};
ghost use Rattle.step_parts.specs.Delivery.{after, delivered};

use crate::Obeyed;
use crate::devices::unshown;
use crate::entry::raise;
use crate::memory::word_at;
use crate::psr::defined_psr;
use crate::words::{next, register, set_register};
use machine::addresses::PRIVILEGE_VECTOR;
use machine::{Control, Memory, Rule};

// The record with this PC and PSR popped, and R6 above them at sp.
fn after_return(c: Control, regs: &mut [u16; 8], pc: u16, psr: u16, sp: u16) -> Control
    ensures { (clock : ℕ) → whole regs.new clock result
        ≡ after_return pc psr sp (whole regs.old clock c) }
{
    let devices = c.devices;
    if psr < 0x8000 {
        set_register(regs, 6, sp);
        return Control {
            pc,
            psr,
            saved_ssp: c.saved_ssp,
            saved_usp: c.saved_usp,
            devices,
        };
    }
    set_register(regs, 6, c.saved_usp);
    Control {
        pc,
        psr,
        saved_ssp: sp,
        saved_usp: c.saved_usp,
        devices,
    }
}

pub fn return_from_interrupt(c: Control, regs: &mut [u16; 8], memory: &mut Memory) -> Obeyed
    ensures { (clock : ℕ) (output : List ℕ) → after result regs.new clock memory.new output
        ≡ delivered regs.old memory.old output
        (return (whole regs.old clock c) memory.old) }
{
    if c.psr < 0x8000 {
        let sp = register(regs, 6);
        let pc = word_at(memory, sp);
        let above = next(sp);
        let psr = defined_psr(word_at(memory, above));
        return unshown(
            after_return(c, regs, pc, psr, next(above)),
            Rule::Instruction,
        );
    }
    unshown(
        raise(c, regs, memory, PRIVILEGE_VECTOR, c.pc),
        Rule::Privilege,
    )
}
