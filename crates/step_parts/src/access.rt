// The accesses of LD, LDR, LDI, ST, STR, STI: each address is checked first, then the access is made.
ghost use Rattle.std.specs.Prelude.{◌≡◌, ℕ, List};
ghost use Rattle.machine.specs.Words.{with_register};
ghost use Rattle.machine.specs.Record.{whole};
ghost use Rattle.machine.specs.Psr.{Codes, kept, set_from, recoded};
ghost use Rattle.machine.specs.Outcome.{after_instruction};
ghost use Rattle.machine.specs.Edition.{edition_of};
ghost use Rattle.machine.specs.Access.{loaded_to_by, load_to_by, store_at_by, by_pointer_by};
ghost use Rattle.step_parts.specs.Delivery.{after, delivered};

use crate::Obeyed;
use crate::devices::{after_load, load, store, unshown};
use crate::entry::raise;
use crate::protection::is_denied;
use crate::psr::with_codes;
use crate::words::{next, set_register};
use machine::addresses::ACCESS_VECTOR;
use machine::{Control, Memory, Rule};

// The record after an instruction.
fn after_instruction(c: Control, pc: u16, psr: u16) -> Control
    ensures { (regs : List ℕ) (clock : ℕ) (codes : Codes) → psr ≡ recoded codes c.psr → whole regs clock result
        ≡ after_instruction regs pc codes (whole regs clock c) }
{
    Control { pc, psr, ..c }
}

// An instruction that puts a value in a register and sets the codes from it.
pub fn move_to(c: Control, regs: &mut [u16; 8], r: u8, v: u16, pc: u16) -> Control
    ensures { (clock : ℕ) → whole regs.new clock result
        ≡ after_instruction (with_register regs.old r v) pc (set_from v)
        (whole regs.old clock c) }
{
    set_register(regs, r, v);
    after_instruction(c, pc, with_codes(c.psr, v))
}

// An instruction that puts a value in a register.
pub fn put_in(c: Control, regs: &mut [u16; 8], r: u8, v: u16, pc: u16) -> Control
    ensures { (clock : ℕ) → whole regs.new clock result
        ≡ after_instruction (with_register regs.old r v) pc kept (whole regs.old clock c) }
{
    set_register(regs, r, v);
    after_instruction(c, pc, c.psr)
}

// An instruction that goes on at this PC.
pub fn go_on_at(c: Control, pc: u16) -> Control
    ensures { (regs : List ℕ) (clock : ℕ) → whole regs clock result
        ≡ after_instruction regs pc kept (whole regs clock c) }
{
    after_instruction(c, pc, c.psr)
}

// A load to a register from an address that is not denied.
fn load_allowed(
    second: bool,
    c: Control,
    regs: &mut [u16; 8],
    memory: &Memory,
    r: u8,
    a: u16,
) -> Control
    ensures { (clock : ℕ) → whole regs.new clock result
        ≡ loaded_to_by (edition_of second) r a (whole regs.old clock c) memory.now }
{
    let v = load(second, c, memory, a);
    let n = after_load(c, a);
    move_to(n, regs, r, v, next(c.pc))
}

// A load shows nothing, so its contract speaks of any output.
pub fn load_to(
    second: bool,
    c: Control,
    regs: &mut [u16; 8],
    memory: &mut Memory,
    r: u8,
    a: u16,
) -> Obeyed
    ensures { (clock : ℕ) (output : List ℕ) → after result regs.new clock memory.new output
        ≡ delivered regs.old memory.old output
        (load_to_by (edition_of second) r a (whole regs.old clock c) memory.old) }
{
    if is_denied(second, c.psr, a) {
        return unshown(raise(c, regs, memory, ACCESS_VECTOR, c.pc), Rule::Access);
    }
    unshown(
        load_allowed(second, c, regs, memory, r, a),
        Rule::Instruction,
    )
}

pub fn store_at(
    second: bool,
    c: Control,
    regs: &mut [u16; 8],
    memory: &mut Memory,
    output: &mut [u8],
    v: u16,
    a: u16,
) -> Obeyed
    ensures { (clock : ℕ) → after result regs.new clock memory.new output.new
        ≡ delivered regs.old memory.old output.old
        (store_at_by (edition_of second) v a (whole regs.old clock c) memory.old) }
{
    if is_denied(second, c.psr, a) {
        return unshown(raise(c, regs, memory, ACCESS_VECTOR, c.pc), Rule::Access);
    }
    let n = go_on_at(c, next(c.pc));
    store(second, n, memory, output, v, a)
}

// LDI: the pointer is loaded, then the word that it points to.
pub fn load_by(
    second: bool,
    c: Control,
    regs: &mut [u16; 8],
    memory: &mut Memory,
    r: u8,
    a: u16,
) -> Obeyed
    ensures { (clock : ℕ) (output : List ℕ) → after result regs.new clock memory.new output
        ≡ delivered regs.old memory.old output
        (by_pointer_by (edition_of second) a (load_to_by (edition_of second) r) (whole regs.old clock c)
        memory.old) }
{
    if is_denied(second, c.psr, a) {
        return unshown(raise(c, regs, memory, ACCESS_VECTOR, c.pc), Rule::Access);
    }
    let p = load(second, c, memory, a);
    let n = after_load(c, a);
    if is_denied(second, n.psr, p) {
        return unshown(raise(n, regs, memory, ACCESS_VECTOR, n.pc), Rule::Access);
    }
    unshown(
        load_allowed(second, n, regs, memory, r, p),
        Rule::Instruction,
    )
}

// STI: the pointer is loaded, then the value is stored where it points.
pub fn store_by(
    second: bool,
    c: Control,
    regs: &mut [u16; 8],
    memory: &mut Memory,
    output: &mut [u8],
    v: u16,
    a: u16,
) -> Obeyed
    ensures { (clock : ℕ) → after result regs.new clock memory.new output.new
        ≡ delivered regs.old memory.old output.old
        (by_pointer_by (edition_of second) a (store_at_by (edition_of second) v) (whole regs.old clock c)
        memory.old) }
{
    if is_denied(second, c.psr, a) {
        return unshown(raise(c, regs, memory, ACCESS_VECTOR, c.pc), Rule::Access);
    }
    let p = load(second, c, memory, a);
    let n = after_load(c, a);
    store_at(second, n, regs, memory, output, v, p)
}
